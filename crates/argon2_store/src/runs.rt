//! What the next open finds after calls, crashes and opens that failed.

ghost use Rattle.argon2_store.specs.Opening.{LeavesNames};
ghost use Rattle.argon2_store.specs.Runs.{EndsRun, NamesAreRun, TextsAreKept};

use crate::account_file::AccountFile;
use sqlite_disk::{Disk, Files};
use sqlite_store::FileStore;

/// If a crash comes now, or the file is dropped, the two files are left with the table of some names, and the next open that
/// succeeds finds the names as all calls on the file left them. It may also find the change of the last call that did not
/// find the file closed, if this call had an error of the file, or the crash cut it off. Before it any number of opens may
/// fail, each as [`failed_open`] says. A crash during an open counts as an open that fails there.
pub fn next_run<D: Disk>(file: &AccountFile<FileStore<D>>)
    ensures { EndsRun file.now }
{}

/// An [`AccountFile::open_from`] that fails leaves the names of synced files, such as the files that [`AccountFile::open`]
/// opens. What a crash leaves of these files, now `new`, counts as one more failed open in the contract of [`next_run`]. An
/// open finds no other names there than before all of these failed opens.
pub fn failed_open<D: Disk>(old: &Files<D>, new: &Files<D>)
    ensures { LeavesNames D.Disk (old.now.log, old.now.db) (new.now.log, new.now.db) }
{}

/// Each run in a list opens what the run before it left, perhaps after opens that failed. After these runs an open finds what
/// the calls of all runs, in their order, made of the names that the first run found. If the first run found no names, each
/// name has the text that the accepted calls on it left, in their order: the text that was added, set, replaced, locked or
/// unlocked last, or no text. In each run the last call that did not find the file closed may count as accepted, if it had an
/// error of the file, or a crash cut it off.
pub fn account_file_runs()
    ensures events { NamesAreRun }
    ensures texts { TextsAreKept }
{}
