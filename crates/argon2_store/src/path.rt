//! The files at a path: making them, opening them, and their permissions.

ghost use Rattle.std.specs.Prelude.{true, false, IsTrue, IfOk};
ghost use Rattle.sqlite_std_file.specs.File.{IsFresh, file_is_usable};
ghost use Rattle.argon2_store.specs.Making.{IsUnmade};
ghost use Rattle.argon2_store.specs.Opening.{AreSynced};

use crate::database::{PAGE, first_page, is_unmade};
use crate::error::OpenError;
use crate::headers::{HEADERS, NAME};
use sqlite_disk::{Disk, Files};
use sqlite_std_file::{FileFrom, Start};
use std::fs::{self, File, OpenOptions, Permissions, TryLockError};
use std::hash::{BuildHasher, RandomState};
use std::io::{self, ErrorKind, Write};
use std::os::unix::fs::{FileExt, MetadataExt, OpenOptionsExt, PermissionsExt};

// The error of the system on a new file.
fn system_error(error: io::Error) -> OpenError {
    match error.kind() {
        ErrorKind::OutOfMemory => OpenError::OutOfMemory,
        ErrorKind::StorageFull => OpenError::Full,
        _ => OpenError::Path(error),
    }
}

// The bytes of a file, in memory for a page, or `None` if the file has more than a page.
fn small_bytes<'page>(file: &File, page: &'page mut [u8; PAGE]) -> io::Result<Option<&'page [u8]>> {
    let len = file.metadata()?.len();
    if len > PAGE as u64 {
        return Ok(None);
    }
    let held = &mut page[..len as usize];
    file.read_exact_at(held, 0)?;
    Ok(Some(held))
}

// Makes a file only for its owner, or opens a file of at most a page. `None`: something else has the name.
fn small_file(rt: &HostRuntime, path: &str) -> io::Result<Option<File>> {
    let mut made = OpenOptions::new();
    made.read(true).write(true).create_new(true).mode(0o600);
    match made.open(rt, path) {
        Ok(file) => return Ok(Some(file)),
        Err(error) if error.kind() == ErrorKind::AlreadyExists => {}
        Err(error) => return Err(error),
    }
    match fs::metadata(rt, path) {
        Ok(found) if found.is_file() && found.len() <= PAGE as u64 && found.nlink() == 1 => {}
        _ => return Ok(None),
    }
    let found = OpenOptions::new().read(true).write(true).open(rt, path);
    Ok(found.ok())
}

// Whether the path names this file.
fn is_at(rt: &HostRuntime, file: &File, path: &str) -> io::Result<bool> {
    let (found, named) = (file.metadata()?, fs::metadata(rt, path)?);
    Ok(found.dev() == named.dev() && found.ino() == named.ino())
}

// Whether anything has the name of the path with this ending.
fn is_beside(rt: &HostRuntime, path: &str, ending: &str) -> Result<bool, OpenError> {
    let name = format!(in rt.alloc(); "{path}{ending}")?;
    match fs::symlink_metadata(rt, name.as_str()) {
        Ok(_) => Ok(true),
        Err(error) if error.kind() == ErrorKind::NotFound => Ok(false),
        Err(error) => Err(system_error(error)),
    }
}

// Refuses a path for which a log or a journal exists. It would bring the rows of another database into a new one.
fn check_alone(rt: &HostRuntime, path: &str) -> Result<(), OpenError> {
    if is_beside(rt, path, "-wal")? || is_beside(rt, path, "-journal")? {
        return Err(OpenError::LogWithoutFile);
    }
    Ok(())
}

// Writes a database with no table into a file, only for its owner. It has one page, which is written whole before there is a
// log, so that sqlite3 opens what a kill leaves. A failure to write it leaves the file empty. `_held` is what the file held.
fn write_first_page(file: &mut File, _held: &[u8]) -> io::Result<()>
    requires { IsUnmade _held.now }
{
    file.set_permissions(Permissions::from_mode(0o600))?;
    let done = file.write_all(&first_page());
    if done.is_err() {
        file.set_len(0)?;
    }
    done?;
    file.sync_all()
}

// Makes a database only for its owner, unless something else has its name, and returns whether it has written the first page. A
// file whose making was cut off is completed. The kit's open would make a file that all may read. A file is never removed,
// because another process may have it open.
fn make(rt: &HostRuntime, path: &str) -> Result<bool, OpenError> {
    if !is_beside(rt, path, "")? {
        check_alone(rt, path)?;
    }
    let mut file = match small_file(rt, path) {
        Ok(Some(file)) => file,
        Ok(None) => return Ok(false),
        Err(error) => return Err(system_error(error)),
    };
    let mut page = [0; PAGE];
    if !small_bytes(&file, &mut page)?.is_some_and(is_unmade) {
        return Ok(false);
    }
    // Of the processes that open the file by this call one writes the page. SQLite takes another lock, for which std has no call.
    match file.try_lock() {
        Ok(()) => {}
        Err(TryLockError::WouldBlock) => return Err(OpenError::Busy),
        Err(TryLockError::Error(error)) => return Err(system_error(error)),
    }
    // Before the lock another process may have written or replaced the file.
    let Some(held) = small_bytes(&file, &mut page)? else {
        return Ok(false);
    };
    if !is_unmade(held) || !is_at(rt, &file, path)? {
        return Ok(false);
    }
    check_alone(rt, path)?;
    match write_first_page(&mut file, held) {
        Ok(()) => Ok(true),
        Err(error) => Err(system_error(error)),
    }
}

/// Makes the file for accounts at a path, as [`open`](crate::AccountFile::open) does, and does not keep it open. It returns
/// whether this call has made the file: of the processes that make one at the same time at most one gets `true`. No clause
/// says so.
///
/// # Errors
/// The errors of [`open`](crate::AccountFile::open) that come while a file is made: [`OpenError::Path`], [`OpenError::Busy`],
/// [`OpenError::LogWithoutFile`], [`OpenError::Full`] and [`OpenError::OutOfMemory`].
pub fn make_file(rt: &HostRuntime, path: &str) -> Result<bool, OpenError> {
    make(rt, resolve(rt, path)?.as_str())
}

/// Whether the file at a path is made: `false` if it is empty, or if its making was cut off, so that
/// [`open`](crate::AccountFile::open) would make it. A file that holds something else counts as made. Nothing is written. No
/// clause says so.
///
/// # Errors
/// - [`OpenError::Path`]: the file does not exist, or can't be read.
/// - [`OpenError::LogWithoutFile`]: the file is not made, and a log or a journal exists for it.
/// - [`OpenError::OutOfMemory`].
pub fn is_made(rt: &HostRuntime, path: &str) -> Result<bool, OpenError> {
    let path = resolve(rt, path)?;
    let file = open_regular(rt, path.as_str())?;
    let mut page = [0; PAGE];
    let is_made = !small_bytes(&file, &mut page)?.is_some_and(is_unmade);
    if !is_made {
        check_alone(rt, path.as_str())?;
    }
    Ok(is_made)
}

// The regular file at a path.
fn open_regular(rt: &HostRuntime, path: &str) -> io::Result<File> {
    if !fs::metadata(rt, path)?.is_file() {
        return Err(ErrorKind::Unsupported.into());
    }
    File::open(rt, path)
}

// Refuses a file that does not begin as a database, unless its log may have the first page. The kit would make a database of each
// file of one byte.
fn check_begun(rt: &HostRuntime, file: &File, path: &str) -> Result<(), OpenError> {
    let mut head = [0; NAME.len()];
    match file.read_exact_at(&mut head, 0) {
        Ok(()) if head == NAME => return Ok(()),
        Err(error) if error.kind() != ErrorKind::UnexpectedEof => return Err(system_error(error)),
        _ => {}
    }
    let log = format!(in rt.alloc(); "{path}-wal")?;
    match fs::metadata(rt, log.as_str()) {
        Ok(found) if found.len() >= HEADERS as u64 => Ok(()),
        Err(error) if error.kind() != ErrorKind::NotFound => Err(system_error(error)),
        _ => Err(OpenError::NotAccounts),
    }
}

// Gives only the owner access to what the kit's open left of a file that was removed meanwhile, and removes the empty log. The
// kit still locks the file, after which a log is opened, so no other process has this one.
fn narrow(rt: &HostRuntime, path: &str) -> Result<(), OpenError> {
    let file = open_regular(rt, path)?;
    let log = format!(in rt.alloc(); "{path}-wal")?;
    if file.metadata()?.len() == 0 && fs::symlink_metadata(rt, log.as_str())?.len() == 0 {
        file.set_permissions(Permissions::from_mode(0o600))?;
        fs::remove_file(rt, log.as_str())?;
    }
    Ok(())
}

// Refuses a log of another owner than the file's, unless others may write the file too, and leaves it no right that the file has
// not.
fn check_log(rt: &HostRuntime, file: &File, path: &str) -> Result<(), OpenError> {
    let log = open_regular(rt, format!(in rt.alloc(); "{path}-wal")?.as_str())?;
    let (found, of_file) = (log.metadata()?, file.metadata()?);
    if found.uid() != of_file.uid() && of_file.mode() & 0o022 == 0 {
        return Err(OpenError::LogOfAnother);
    }
    if found.mode() & !of_file.mode() & 0o777 != 0 {
        log.set_permissions(Permissions::from_mode(of_file.mode() & 0o777))?;
    }
    Ok(())
}

// The path with no link in it: as in SQLite, the files lie where a link leads.
fn resolve(rt: &HostRuntime, path: &str) -> Result<String, OpenError> {
    match fs::canonicalize(rt, path) {
        Ok(real) => Ok(String::from_str(rt.alloc(), real.as_str())?),
        Err(error) if error.kind() == ErrorKind::NotFound => Ok(String::from_str(
            rt.alloc(),
            path,
        )?),
        Err(error) => Err(system_error(error)),
    }
}

// The bytes of the log of the file at a path, or `None` if the file has no log.
fn log_len(rt: &HostRuntime, path: &str) -> Result<Option<u64>, OpenError> {
    let log = format!(in rt.alloc(); "{path}-wal")?;
    match fs::symlink_metadata(rt, log.as_str()) {
        Ok(found) => Ok(Some(found.len())),
        Err(error) if error.kind() == ErrorKind::NotFound => Ok(None),
        Err(error) => Err(system_error(error)),
    }
}

// The length that a refusal has to leave the log of files that are locked now, so that no other process writes to the log. It is
// `None` if the open has made the log, which is empty then. `before` is the length before the open.
fn log_to_leave(
    rt: &HostRuntime,
    path: &str,
    before: Option<u64>,
) -> Result<Option<u64>, OpenError> {
    let len = log_len(rt, path)?;
    Ok(if before.is_none() && len == Some(0) {
        None
    } else {
        len
    })
}

// Gives the log of a file that an open has refused for what it holds the length that it had when the files were locked, or
// removes it. What the open has written comes after that length. The files are still locked.
pub(crate) fn restore_log(
    rt: &HostRuntime,
    path: &str,
    len: Option<u64>,
    error: &OpenError,
) -> Result<(), OpenError> {
    if !matches!(
        error,
        OpenError::NotAccounts | OpenError::Row | OpenError::Format(_)
    ) {
        return Ok(());
    }
    let path = resolve(rt, path)?;
    let log = format!(in rt.alloc(); "{path}-wal")?;
    let Some(len) = len else {
        fs::remove_file(rt, log.as_str())?;
        return Ok(());
    };
    let log = OpenOptions::new().write(true).open(rt, log.as_str())?;
    if log.metadata()?.len() > len {
        log.set_len(len)?;
    }
    Ok(())
}

// Opens the files at a path, or makes them. They come with a seed, and with the length that `restore_log` gives the log if the
// open is refused.
pub(crate) fn open_path<T: Start>(
    rt: &HostRuntime,
    path: &str,
    start: T,
) -> Result<(Files<FileFrom<T>>, u64, Option<u64>), OpenError>
    ensures log { IfOk result (λ it. IsTrue (file_is_usable T.Start it.0.log)) }
    ensures db { IfOk result (λ it. IsTrue (file_is_usable T.Start it.0.db)) }
    ensures fresh { IfOk result (λ it. IsFresh true it.0.log × IsFresh false it.0.db) }
    ensures synced { IfOk result (λ it. AreSynced ⟦<FileFrom<T> as Disk>⟧ (it.0.log, it.0.db)) }
{
    let path = resolve(rt, path)?;
    let path = path.as_str();
    let before = log_len(rt, path)?;
    make(rt, path)?;
    let held = open_regular(rt, path)?;
    check_begun(rt, &held, path)?;
    let files = sqlite_std_file::open(rt, path, start)?;
    // If the file was removed meanwhile, the kit's open has made a file that all may read.
    if !is_at(rt, &held, path)? {
        narrow(rt, path)?;
        return Err(OpenError::Path(ErrorKind::NotFound.into()));
    }
    check_log(rt, &held, path)?;
    let state = RandomState::new(rt)?;
    let log = log_to_leave(rt, path, before)?;
    Ok((files, state.hash_one(&0u8), log))
}
