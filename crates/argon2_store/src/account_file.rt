//! Accounts in a file.
#![tactic(auto, using(crate::proofs::FileLemmas::answers))]

ghost use Rattle.std.specs.Prelude.{◌≡◌, ◌≤◌, ◌↔◌, ◌∷◌, false, Err, IsTrue, IfErr, IfOk, OnOk, length, map, string_bytes};
ghost use Rattle.argon2_rows.specs.Names.{Texts, entry_of, get};
ghost use Rattle.argon2_rows.specs.Table.{HasSome, IsHonest, IsOpen};
ghost use Rattle.argon2_store.specs.Errors.{is_refusal, read_by};

use crate::database::{Soundness, open_files};
use crate::edit::{Edit, RowEdit, row_edit};
use crate::error::{FileError, LineError, OpenError, call_error, line_result, read_result};
use crate::format::check_headers;
use crate::path::{open_path, restore_log};
use argon2_base::phc::PasswordHash;
use argon2_rows::lines::write_lines;
use argon2_rows::rows::{are_rows_sound, look_up};
use argon2_rows::table::{AddError, finish, insert, remove, replace, undo_failed};
use argon2_rows::{StoredText, View};
use sqlite_disk::{Disk, Files};
use sqlite_std_file::{FileFrom, Start};
use sqlite_store::FileStore;
use sqlite_trees::store::Store;
use sqlite_value::row::Row;
use std::alloc::{AllocError, Global};
use std::fmt;
use std::io::Write;

/// Names with PHC texts in a file. After a call that changes a text has returned `Ok`, the file holds the change, past any
/// crash. No name is kept in memory: each call looks its name up in the file.
///
/// A name is any text. The text of a name may be locked: it then stands after `!`, and accepts no password.
///
/// After an error the names are as before the call, with one exception: if the disk fails, the file may have to be opened
/// again. Then each later call returns [`FileError::Closed`], and after a failed commit the file may hold the change or
/// not.
#[derive(Drop)]
pub struct AccountFile<S: Store> {
    pub(crate) store: S,
    // The rows to read and to look up with.
    pub(crate) row: Row,
    pub(crate) key: Row,
    pub(crate) alloc: Global,
    ghost kept: { HasSome S.Store store } by { squash₁ },
}

/// Accounts in the file at a path. `T` stands for what the file and its log held as they were opened.
pub type AccountsAt<T> = AccountFile<FileStore<FileFrom<T>>>;

impl<S: Store> AccountFile<S> {
    ghost use Rattle.argon2_store.specs.AccountFile.{EditsText, HasNames, IsClosed, IsErrorAt, Reads, Serves, WritesLines, database_of, unindexed};
    ghost use Rattle.argon2_store.specs.Edits.{AddsShortName, adding, additions, edit_value, locking, option_map, removing, replacing, setting, text_of, unlocking};

    /// Edits the text of a name. Each edit has a method, which says when it is refused: [`add`](AccountFile::add),
    /// [`set`](AccountFile::set), [`replace`](AccountFile::replace), [`remove`](AccountFile::remove),
    /// [`lock`](AccountFile::lock) and [`unlock`](AccountFile::unlock).
    ///
    /// # Errors
    /// The errors of the method for this edit.
    pub fn edit(&mut self, name: &str, edit: &Edit<'_>) -> Result<(), FileError>
        ensures call { EditsText name.now (edit_value edit.now) result self.old self.new }
        ensures short { OnOk result (AddsShortName (name.now, edit_value edit.now)) }
    {
        let text = self.text_of(name)?;
        let change = row_edit(edit, text.as_deref())?;
        let (store, row, key) = (&mut self.store, &mut self.row, &mut self.key);
        let done = match change {
            RowEdit::Keep => return Ok(()),
            RowEdit::Insert(new) => insert(store, row, name, new.text().as_str()),
            RowEdit::Replace(old, new) => replace(store, row, key, name, old, new.text().as_str()),
            RowEdit::Remove(old) => remove(store, row, key, name, old),
            RowEdit::Lock(old) => {
                let locked = add_lock(self.alloc, old)?;
                replace(store, row, key, name, old, locked.as_str())
            }
            RowEdit::Unlock(old, bare) => replace(store, row, key, name, old, bare),
        };
        read_result(finish(&mut self.store, done))
    }

    /// Gives a new name a text. The name has at most 4096 bytes.
    ///
    /// # Errors
    /// The first of these that holds:
    /// - the errors of [`text_of`](AccountFile::text_of): the file has to be opened again, or can't be read.
    /// - [`FileError::NameTaken`]: the name has a text.
    /// - [`FileError::OutOfMemory`], [`FileError::Io`], [`FileError::Damaged`], [`FileError::Full`] or
    ///   [`FileError::TooLong`]: the change can't be written.
    pub fn add(&mut self, name: &str, text: &PasswordHash) -> Result<(), FileError>
        ensures call { EditsText name.now (adding (text_of text.now)) result self.old self.new }
        ensures short { OnOk result (length name.now ≤ 4096) }
    {
        self.edit(name, &Edit::Add(text))
    }

    /// Gives a name with a text another text, also if its text is locked.
    ///
    /// # Errors
    /// As [`add`](AccountFile::add), with [`FileError::NameUnknown`] instead of `NameTaken`: the name has no text.
    pub fn set(&mut self, name: &str, text: &PasswordHash) -> Result<(), FileError>
        ensures { EditsText name.now (setting (text_of text.now)) result self.old self.new }
    {
        self.edit(name, &Edit::Set(text))
    }

    /// Gives a name the text `new` if the name still has the text `old`, and `old` is not locked. So a caller that has read
    /// and verified a text does not write over what others have written meanwhile.
    ///
    /// # Errors
    /// The first of these that holds:
    /// - the errors of [`text_of`](AccountFile::text_of): the file has to be opened again, or can't be read.
    /// - [`FileError::NameUnknown`]: the name has no text.
    /// - [`FileError::Locked`]: its text is locked.
    /// - [`FileError::Changed`]: its text is not `old`.
    /// - the errors of writing, as [`add`](AccountFile::add).
    pub fn replace(&mut self, name: &str, old: &str, new: &PasswordHash) -> Result<(), FileError>
        ensures { EditsText name.now (replacing old.now (text_of new.now)) result self.old self.new }
    {
        self.edit(name, &Edit::Replace(old, new))
    }

    /// Removes a name and its text.
    ///
    /// # Errors
    /// As [`set`](AccountFile::set), except [`FileError::TooLong`].
    pub fn remove(&mut self, name: &str) -> Result<(), FileError>
        ensures { EditsText name.now removing result self.old self.new }
    {
        self.edit(name, &Edit::Remove)
    }

    /// Locks a name: its text is kept after `!`, and accepts no password until [`unlock`](AccountFile::unlock) or
    /// [`set`](AccountFile::set). A locked text stays as it is.
    ///
    /// # Errors
    /// As [`set`](AccountFile::set). If another program wrote a name of more than 4096 bytes, its row may become too long.
    pub fn lock(&mut self, name: &str) -> Result<(), FileError>
        ensures { EditsText name.now locking result self.old self.new }
    {
        self.edit(name, &Edit::Lock)
    }

    /// Unlocks a name: the `!` before its text is removed. A text that is not locked stays as it is.
    ///
    /// # Errors
    /// As [`lock`](AccountFile::lock).
    pub fn unlock(&mut self, name: &str) -> Result<(), FileError>
        ensures { EditsText name.now unlocking result self.old self.new }
    {
        self.edit(name, &Edit::Unlock)
    }

    /// Adds all of these new names with their texts, or none. Each name and each text has at most 4096 bytes; no clause
    /// says so. The names are one transaction: after a crash in the middle of the call the file holds all of them or none.
    /// They are written in the order of the names. If `new` is in another order, the call sorts a copy of it; without
    /// memory for the copy the names are written as they are listed, which takes longer.
    ///
    /// # Errors
    /// Each comes with an index into `new`:
    /// - [`FileError::Closed`]: the file has to be opened again. The index is 0.
    /// - [`FileError::NameTaken`]: the name at the index is the first name that has a text, or that stands in `new` a second
    ///   time.
    /// - the errors of reading and writing, as [`add`](AccountFile::add). The index is then the number of entries.
    pub fn add_all(&mut self, new: &[(&str, StoredText<'_>)]) -> Result<(), (usize, FileError)>
        ensures call { Serves (additions (map entry_of new.now)) (unindexed result) self.old self.new }
        ensures index { (names : Texts) → HasNames self.old names →
            IsHonest S.Store (database_of self.new) →
            IfErr result (IsErrorAt names (map entry_of new.now)) }
    {
        if self.is_closed() {
            return Err((0, FileError::Closed));
        }
        match self.add_in_order(new) {
            Ok(()) => Ok(()),
            Err(AddError::Taken(index)) => Err((index, FileError::NameTaken)),
            Err(AddError::Store(error)) => Err((new.len(), call_error(error))),
        }
    }

    /// Whether the file has to be opened again, because the disk failed.
    pub fn is_closed(&self) -> bool
        ensures { IsHonest S.Store (database_of self.now) → IsTrue result ↔ IsClosed self.now }
    {
        self.store.is_broken()
    }

    /// The text of a name, if it has one, with the `!` of a locked text. A text of another program may be outside the grammar
    /// of PHC texts.
    ///
    /// # Errors
    /// The first of these that holds:
    /// - [`FileError::Closed`]: the file has to be opened again.
    /// - [`FileError::OutOfMemory`], [`FileError::Io`], [`FileError::Damaged`], [`FileError::Full`]: the file
    ///   can't be read. It stays open, unless [`is_closed`](AccountFile::is_closed) says otherwise.
    pub fn text_of(&mut self, name: &str) -> Result<Option<String>, FileError>
        ensures reads { Reads result self.old self.new }
        ensures shows { (names : Texts) → HasNames self.new names → IfOk result (λ text.
            IsHonest S.Store (database_of self.new) → get names name.now ≡ option_map string_bytes text) }
        ensures open { OnOk result (IsHonest S.Store (database_of self.new) →
            IsOpen S.Store (database_of self.new)) }
        ensures error { IfErr result (λ e. is_refusal e ≡ false) }
        ensures closed { IsHonest S.Store (database_of self.old) → IsClosed self.old →
            (result ≡ Err FileError.Closed) × (database_of self.new ≡ database_of self.old) }
    {
        if self.is_closed() {
            return Err(FileError::Closed);
        }
        let text = look_up(
            self.alloc,
            &mut self.store,
            &mut self.row,
            &mut self.key,
            name,
        );
        undo_failed(&mut self.store, &text);
        read_result(text)
    }

    /// Writes a line for each name, in the order of the names' bytes, and flushes `output`. No clause promises the flush.
    ///
    /// # Errors
    /// - [`LineError::Breaks`]: a name [breaks its line](View::breaks_line). The lines before the first such name are written,
    ///   and no more.
    /// - [`LineError::Write`]: `output` can't be written. A prefix of these lines is written.
    /// - [`LineError::File`]: the errors of [`text_of`](AccountFile::text_of). A prefix of these lines is written.
    pub fn write_lines<W: Write>(&mut self, view: View, output: &mut W) -> Result<(), LineError>
        ensures reads { Reads (read_by result) self.old self.new }
        ensures shows { (names : Texts) → HasNames self.old names →
            IsHonest S.Store (database_of self.new) →
            WritesLines view names (W.contents output.old) (W.contents output.new) result }
        ensures closed { IsHonest S.Store (database_of self.old) → IsClosed self.old →
            output.new ≡ output.old }
    {
        if self.is_closed() {
            return Err(FileError::Closed.into());
        }
        let done = write_lines(&mut self.store, &mut self.row, view, output);
        undo_failed(&mut self.store, &done);
        line_result(read_result(done))
    }

    /// The store that holds the names.
    pub fn into_store(self) -> S
        ensures { result ≡ database_of self }
    {
        self.store
    }
}

/// Shows neither names nor texts.
impl<S: Store> fmt::Debug for AccountFile<S> {
    fn fmt<W: fmt::Write>(&self, f: &mut fmt::Formatter<W>) -> fmt::Result {
        f.debug_struct("AccountFile").finish_non_exhaustive()
    }
}

impl<T: Start> AccountsAt<T> {
    ghost use Rattle.sqlite_wal.specs.Files.{image_at};
    ghost use Rattle.argon2_store.specs.AccountFile.{IsFileFrom};
    ghost use Rattle.argon2_store.specs.Opening.{AreHeld};

    /// Opens the accounts in the SQLite file at a path, or makes the file. The log of the file lies next to it, and its name
    /// ends in `-wal`. `start` stands for what the two files hold: one value of each type opens one file, and only `main`
    /// names the type, such as `sqlite_std_file::Wary`.
    ///
    /// The file stays open, and locked against other processes, until the value is dropped. No clause promises the rest of
    /// this paragraph. A new file and its log are only for their owner: their mode is 0600. The log gets no right that the
    /// file does not have. If the file is removed while it is opened, the result is an error. A file that is new, was empty,
    /// or whose making was cut off becomes a database without a table before its log is begun, so that `sqlite3` opens it
    /// after a kill.
    ///
    /// An open that fails leaves the accounts in the file as they were: see [`failed_open`](crate::failed_open). A file with
    /// other contents, or of another format, keeps each byte, and the log that it had; a log that the open has made is
    /// removed. No clause promises this, nor the error. The clause of [`open_from`](AccountFile::open_from) says which error
    /// an open of two files returns.
    ///
    /// # Errors
    /// - [`OpenError::Path`]: the system refuses to open or to make the file.
    /// - [`OpenError::Busy`]: another process has it open.
    /// - [`OpenError::HotJournal`]: SQLite was stopped in the middle of a change.
    /// - [`OpenError::LogWithoutFile`]: a log or a journal exists for a file that is still to be made. Nothing is written.
    /// - [`OpenError::LogOfAnother`]: its log belongs to another user, who may not write the file. It is not read.
    /// - [`OpenError::DamagedLog`]: the header of its log is damaged. Nothing is written.
    /// - [`OpenError::Format`]: its rows have another format. Nothing is written.
    /// - [`OpenError::NotAccounts`], [`OpenError::Row`]: it does not hold accounts.
    /// - [`OpenError::Io`], [`OpenError::Full`], [`OpenError::OutOfMemory`].
    pub fn open(rt: &HostRuntime, path: &str, start: T) -> Result<AccountsAt<T>, OpenError>
        ensures { IfOk result (IsFileFrom (image_at T.Start)) }
    {
        let (files, seed, log) = open_path(rt, path, start)?;
        match AccountFile::open_from(rt.alloc(), files, seed) {
            Ok(file) => Ok(file),
            Err((error, _files)) => {
                // (the error of the open matters more)
                let _ = restore_log(rt, path, log, &error);
                Err(error)
            }
        }
    }

    /// Opens the accounts at a path as [`open`](AccountFile::open) does, and supposes that the files are sound, as
    /// [`open_sound_from`](AccountFile::open_sound_from) does.
    ///
    /// # Errors
    /// The errors of [`open`](AccountFile::open), except [`OpenError::Row`].
    pub fn open_sound(rt: &HostRuntime, path: &str, start: T) -> Result<AccountsAt<T>, OpenError>
        requires { AreHeld (image_at T.Start) }
        ensures { IfOk result (IsFileFrom (image_at T.Start)) }
    {
        let (files, seed, log) = open_path(rt, path, start)?;
        match AccountFile::open_sound_from(rt.alloc(), files, seed) {
            Ok(file) => Ok(file),
            Err((error, _files)) => {
                // (the error of the open matters more)
                let _ = restore_log(rt, path, log, &error);
                Err(error)
            }
        }
    }
}

impl<D: Disk + Drop> AccountFile<FileStore<D>> {
    ghost use Rattle.argon2_store.specs.AccountFile.{IsFileFrom};
    ghost use Rattle.argon2_store.specs.Opening.{AreClean, AreHeld, IsOfPair, seen_image};

    /// Opens the accounts in a database file and its log, or makes them if there is no table yet.
    /// [`open`](AccountFile::open) does so with the files at a path. `seed` is a random number for the log. An error comes
    /// with the files: whatever a crash leaves of them, during the call or after it, stands for the accounts that they held.
    ///
    /// # Errors
    /// [`OpenError::DamagedLog`], [`OpenError::Format`], [`OpenError::NotAccounts`], [`OpenError::Row`],
    /// [`OpenError::Io`], [`OpenError::Full`] and [`OpenError::OutOfMemory`], as [`open`](AccountFile::open). `Format` comes
    /// before the table is looked at.
    pub fn open_from(
        alloc: Global,
        mut files: Files<D>,
        seed: u64,
    ) -> Result<AccountFile<FileStore<D>>, (OpenError, Files<D>)>
        requires { IsTrue (D.Disk.is_usable files.log) × IsTrue (D.Disk.is_usable files.db) }
        ensures ready { IfOk result (IsFileFrom (seen_image D.Disk files.log files.db)) }
        ensures err { IfErr result (λ e.
            IsOfPair D.Disk (files.log, files.db) (e.1.log, e.1.db) e.0) }
    {
        if let Err(error) = check_headers(alloc, &mut files) {
            return Err((error, files));
        }
        let mut store = open_files(alloc, files, seed, Soundness::Checked)?;
        let (mut row, mut key) = (Row::new(alloc), Row::new(alloc));
        let error = match are_rows_sound(&mut store, &mut row, &mut key) {
            Ok(true) => {
                return Ok(AccountFile {
                    store,
                    row,
                    key,
                    alloc,
                });
            }
            Ok(false) => OpenError::Row,
            Err(error) => error.into(),
        };
        Err((error, store.close()))
    }

    /// Opens files as [`open_from`](AccountFile::open_from) does, and supposes that they are sound. Files are sound if
    /// `open_from` has opened them, and only this crate or SQLite has changed them since. No row is read. A call that meets
    /// an unsound row returns [`FileError::Damaged`].
    ///
    /// # Errors
    /// The errors of [`open_from`](AccountFile::open_from), except [`OpenError::Row`].
    pub fn open_sound_from(
        alloc: Global,
        mut files: Files<D>,
        seed: u64,
    ) -> Result<AccountFile<FileStore<D>>, (OpenError, Files<D>)>
        requires usable { IsTrue (D.Disk.is_usable files.log) × IsTrue (D.Disk.is_usable files.db) }
        requires sound { AreClean D.Disk files.log files.db →
            AreHeld (seen_image D.Disk files.log files.db) }
        ensures ready { IfOk result (IsFileFrom (seen_image D.Disk files.log files.db)) }
        ensures err { IfErr result (λ e.
            IsOfPair D.Disk (files.log, files.db) (e.1.log, e.1.db) e.0) }
    {
        if let Err(error) = check_headers(alloc, &mut files) {
            return Err((error, files));
        }
        let store = open_files(alloc, files, seed, Soundness::Supposed)?;
        let (row, key) = (Row::new(alloc), Row::new(alloc));
        Ok(AccountFile {
            store,
            row,
            key,
            alloc,
        })
    }
}

impl<D: Disk> AccountFile<FileStore<D>> {
    ghost use Rattle.sqlite_store.specs.FileStore.{HasSpilled, log_frames};
    ghost use Rattle.argon2_store.specs.AccountFile.{Reads, database_of};

    /// Copies the log into the file, so that the file has all accounts without the log, and empties the log, unless it has
    /// frames of an unfinished change. Without this call nothing is lost: the next open reads the log.
    ///
    /// # Errors
    /// - [`FileError::Closed`]: the file has to be opened again.
    /// - [`FileError::OutOfMemory`], [`FileError::Io`], [`FileError::Damaged`], [`FileError::Full`]: the
    ///   copy fails. The file and its log still hold all accounts.
    pub fn checkpoint(&mut self) -> Result<(), FileError>
        ensures call { Reads result self.old self.new }
        ensures copied { OnOk result
            (¬ HasSpilled (database_of self.old) → log_frames (database_of self.new) ≡ 0) }
    {
        if self.is_closed() {
            return Err(FileError::Closed);
        }
        read_result(self.store.checkpoint())
    }
}

// The text with `!` before it.
fn add_lock(alloc: Global, text: &str) -> Result<String, AllocError>
    ensures { IfOk result (λ locked. string_bytes locked ≡ 33 ∷ text.now) }
{
    let mut locked = String::from_str(alloc, "!")?;
    locked.push_str(text)?;
    Ok(locked)
}
