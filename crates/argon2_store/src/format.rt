//! The format of the rows, by the number in the header of the database.

ghost use Rattle.std.specs.Prelude.{◌≡◌, ◌≢◌, ◌<◌, [], ◌∷◌, ◌++◌, ℕ, codes, length, slice_index, take, IsTrue, IfErr, IfOk, MatchOption, OnOk};
ghost use Rattle.sqlite_pool.specs.Header.{user_version};
ghost use Rattle.sqlite_wal.specs.Index.{IsLatest};
ghost use Rattle.argon2_store.specs.Errors.{log_error};
ghost use Rattle.argon2_store.specs.Opening.{AreClean, HasOtherFormat, HasVersion, IsDamaged, IsOfFormat, IsOfPair, OnlyReads, PageMap, Recovers, seen_image};

use crate::database::PAGE;
use crate::error::OpenError;
use crate::headers::{HEADERS, NAME, is_damaged};
use sqlite_disk::{Disk, Files};
use sqlite_wal::{Error, PageSize, probe_frames};
use std::alloc::Global;

// The format that this release reads and writes. No release has had another one.
const FORMAT: u32 = 0;

// The bytes of a database's header up to the end of its `user_version`.
const VERSIONED: usize = 64;

// The bytes of a frame of the log.
const FRAME: usize = 24 + PAGE;

// The last frame of a log that has the first page. `frames` lists the page of each frame.
fn last_header(frames: &[u32]) -> Option<usize>
    ensures { MatchOption result
        ((i : ℕ) → i < length frames.now → slice_index frames.now i ≢ 1) (IsLatest frames.now 1) }
{
    frames.iter().rposition(|&page| page == 1)
}

// The number in the header of a database. If `head` begins no database, it is the number of this release's format.
fn format_in(head: &[u8; VERSIONED]) -> u32
    ensures named { result ≢ 0 → take 16 head.now ≡ codes "SQLite format 3" ++ 0 ∷ [] }
    ensures found { take 16 head.now ≡ codes "SQLite format 3" ++ 0 ∷ [] → result ≡ user_version head.now }
{
    if !head.starts_with(&NAME) {
        return FORMAT;
    }
    u32::from_be_bytes([head[60], head[61], head[62], head[63]])
}

// The number in the header of a database, as the last commit left it. If the file is no database, it is the number of this
// release's format. Nothing is written.
fn probe_format<D: Disk>(alloc: Global, files: &mut Files<D>) -> Result<u32, Error>
    requires { IsTrue (D.Disk.is_usable files.old.log) × IsTrue (D.Disk.is_usable files.old.db) }
    ensures found { IfOk result (λ format. AreClean D.Disk files.new.log files.new.db → (pages : PageMap) →
        Recovers 4096 (seen_image D.Disk files.old.log files.old.db) pages →
        (format ≢ 0 → HasVersion pages format) × ((n : ℕ) → n ≢ 0 → HasVersion pages n → format ≡ n)) }
    ensures error { IfErr result (λ e. AreClean D.Disk files.new.log files.new.db → (pages : PageMap) →
        Recovers 4096 (seen_image D.Disk files.old.log files.old.db) pages → (n : ℕ) →
        IsOfFormat D.Disk (files.old.log, files.old.db) (files.new.log, files.new.db) n (log_error e)) }
    ensures log { OnlyReads D.Disk files.old.log files.new.log }
    ensures db { OnlyReads D.Disk files.old.db files.new.db }
{
    let Some(size) = PageSize::new(PAGE) else {
        return Err(Error::Full);
    };
    let frames = probe_frames(alloc, &mut files.log, size)?;
    let mut head = [0; VERSIONED];
    if let Some(frame) = last_header(frames.as_slice()) {
        let Ok(frame) = u32::try_from(frame) else {
            return Err(Error::Full);
        };
        files
            .log
            .read_at(HEADERS + frame as usize * FRAME, &mut head)?;
    } else if files.db.len()? >= VERSIONED {
        files.db.read_at(0, &mut head)?;
    }
    Ok(format_in(&head))
}

// Refuses a damaged log, and then rows of a format that this release does not know. Nothing is written.
pub(crate) fn check_headers<D: Disk>(alloc: Global, files: &mut Files<D>) -> Result<(), OpenError>
    requires { IsTrue (D.Disk.is_usable files.old.log) × IsTrue (D.Disk.is_usable files.old.db) }
    ensures whole { OnOk result (AreClean D.Disk files.new.log files.new.db →
        ¬ IsDamaged (D.Disk.seen files.old.log)) }
    ensures known { OnOk result (AreClean D.Disk files.new.log files.new.db → (n : ℕ) →
        ¬ HasOtherFormat (seen_image D.Disk files.old.log files.old.db) n) }
    ensures reads { OnOk result
        (OnlyReads D.Disk files.old.log files.new.log × OnlyReads D.Disk files.old.db files.new.db) }
    ensures refused { IfErr result
        (IsOfPair D.Disk (files.old.log, files.old.db) (files.new.log, files.new.db)) }
{
    match is_damaged(&mut files.log) {
        Ok(false) => {}
        Ok(true) => return Err(OpenError::DamagedLog),
        Err(_) => return Err(OpenError::Io),
    }
    match probe_format(alloc, files) {
        Ok(FORMAT) => Ok(()),
        Ok(format) => Err(OpenError::Format(format)),
        Err(error) => Err(error.into()),
    }
}
