//! The errors of calls on a file of accounts.

ghost use Rattle.std.specs.Prelude.{◌≡◌, Some};
ghost use Rattle.argon2_store.specs.Errors.{File, IsOfDatabase, OutOfMemory, call_error, file_error_text, files_error, is_refusal, line_error_text, lines_by, log_error, file_error, open_error_text, path_error, read_of, store_error};
ghost use Rattle.argon2_store.specs.declared.error.OpenError.TheVariants as no;

use argon2_rows::Written;
use sqlite_std_file::OpenError as PathError;
use sqlite_store::OpenError as UnopenedError;
use sqlite_trees::error::StoreError;
use sqlite_wal::Error as LogError;
use std::alloc::AllocError;
use std::{fmt, io};

/// Why a call on an account file fails. The accounts are then as before the call, unless the disk failed
/// during a commit.
#[derive(Clone, Copy, Debug, PartialEq, Eq)]
pub enum FileError {
    /// The name has a text already.
    NameTaken,
    /// The name has no text.
    NameUnknown,
    /// The text of the name is not the text that was to be replaced.
    Changed,
    /// The text of the name is locked.
    Locked,
    /// A request for memory was refused.
    OutOfMemory,
    /// The disk failed.
    Io,
    /// The file is damaged: it does not hold what was written.
    Damaged,
    /// The disk or the file has no room.
    Full,
    /// A new name or its text has more than 4096 bytes, or the row would have more than a billion.
    TooLong,
    /// An earlier failure left the file in doubt. It has to be opened again.
    Closed,
}

impl FileError {
    /// Whether the names are the reason for the error. Then nothing was written.
    pub fn is_refusal(self) -> bool
        ensures { result ≡ is_refusal self }
    {
        matches!(
            self,
            FileError::NameTaken | FileError::NameUnknown | FileError::Changed | FileError::Locked
        )
    }
}

impl fmt::Display for FileError {
    ghost output = { λ e. Some (file_error_text e) };

    fn fmt<W: fmt::Write>(&self, f: &mut fmt::Formatter<W>) -> fmt::Result {
        match self {
            FileError::NameTaken => f.write_str("name is taken"),
            FileError::NameUnknown => f.write_str("name is unknown"),
            FileError::Changed => f.write_str("hash has changed"),
            FileError::Locked => f.write_str("name is locked"),
            FileError::OutOfMemory => f.write_str("out of memory"),
            FileError::Io => f.write_str("the disk failed"),
            FileError::Damaged => f.write_str("the file is damaged"),
            FileError::Full => f.write_str("the disk or the file is full"),
            FileError::TooLong => f.write_str("name or hash is too long"),
            FileError::Closed => f.write_str("the file has to be opened again"),
        }
    }
}

impl std::error::Error for FileError {}

impl From<AllocError> for FileError {
    ghost from_gives = { λ _ error. error ≡ OutOfMemory };

    fn from(_: AllocError) -> FileError {
        FileError::OutOfMemory
    }
}

impl From<StoreError> for FileError {
    ghost from_gives = { λ e error. error ≡ file_error e };

    fn from(error: StoreError) -> FileError {
        match error {
            StoreError::OutOfMemory => FileError::OutOfMemory,
            StoreError::Io => FileError::Io,
            StoreError::Corrupt => FileError::Damaged,
            StoreError::Full => FileError::Full,
            StoreError::Broken => FileError::Closed,
            StoreError::Unstorable => FileError::TooLong,
        }
    }
}

// The error of a call that reads or changes an open file.
pub(crate) fn call_error(error: StoreError) -> FileError
    ensures { result ≡ call_error error }
{
    match error {
        // Only a wrong answer of the disk breaks a store that was open.
        StoreError::Broken => FileError::Damaged,
        error => error.into(),
    }
}

// The result of a call that read or changed an open file.
pub(crate) fn read_result<X>(done: Result<X, StoreError>) -> Result<X, FileError>
    ensures { result ≡ read_of done }
{
    done.map_err(call_error)
}

// The result of writing the lines of a file.
pub(crate) fn line_result(done: Result<Written, FileError>) -> Result<(), LineError>
    ensures { result ≡ lines_by done }
{
    match done {
        Ok(Written::All) => Ok(()),
        Ok(Written::Breaks) => Err(LineError::Breaks),
        Ok(Written::Failed(error)) => Err(LineError::Write(error)),
        Err(error) => Err(error.into()),
    }
}

/// Why the lines of accounts are not all written.
#[derive(Clone, Copy, Debug)]
pub enum LineError {
    /// The file can't be read.
    File(FileError),
    /// The line of a name would read as the line of another name.
    Breaks,
    /// The output can't be written.
    Write(io::Error),
}

impl fmt::Display for LineError {
    ghost output = { line_error_text };

    fn fmt<W: fmt::Write>(&self, f: &mut fmt::Formatter<W>) -> fmt::Result {
        match self {
            LineError::File(error) => write!(f, "{error}"),
            LineError::Breaks => f.write_str("the line of a name would read as that of another"),
            LineError::Write(error) => write!(f, "{error}"),
        }
    }
}

impl std::error::Error for LineError {}

impl From<FileError> for LineError {
    ghost from_gives = { λ e error. error ≡ File e };

    fn from(error: FileError) -> LineError {
        LineError::File(error)
    }
}

/// Why a file is not opened. The accounts in it are then as they were.
#[derive(Clone, Copy, Debug)]
pub enum OpenError {
    /// The system refuses to open or to make the file.
    Path(io::Error),
    /// Another process has the file open.
    Busy,
    /// SQLite was stopped in the middle of a change, and has to open the file first.
    HotJournal,
    /// A log or a journal exists for the path, and the file is missing or empty.
    LogWithoutFile,
    /// The log of the file belongs to another user, who may not write the file.
    LogOfAnother,
    /// A request for memory was refused.
    OutOfMemory,
    /// The disk failed.
    Io,
    /// The disk or the file has no room.
    Full,
    /// The log of the file is damaged: its header is not what was written, and no crash leaves such a header.
    DamagedLog,
    /// The rows of the file have a format that this release does not know: the `user_version` is this number.
    Format(u32),
    /// The file is no SQLite database, is damaged, or lists anything except the table of the accounts.
    NotAccounts,
    /// A row is not a name with a text of one line, or a name has two rows.
    Row,
}

impl fmt::Display for OpenError {
    ghost output = { open_error_text };

    fn fmt<W: fmt::Write>(&self, f: &mut fmt::Formatter<W>) -> fmt::Result {
        match self {
            OpenError::Path(error) => write!(f, "{error}"),
            OpenError::Busy => f.write_str("the file is in use"),
            OpenError::HotJournal => f.write_str(
                "the file has a journal to play back: open it with sqlite3 first",
            ),
            OpenError::LogWithoutFile => f.write_str(
                "the file is missing or empty, but its -wal or -journal is there: bring it back, or move that away",
            ),
            OpenError::LogOfAnother => f.write_str("the -wal of the file belongs to another user"),
            OpenError::OutOfMemory => f.write_str("out of memory"),
            OpenError::Io => f.write_str("the disk failed"),
            OpenError::Full => f.write_str("the disk or the file is full"),
            OpenError::DamagedLog => f.write_str("the log is damaged"),
            OpenError::Format(number) => write!(
                f,
                "the file has format {number}, not 0: use the release that made it, or export with that and import"
            ),
            OpenError::NotAccounts => f.write_str("the file does not hold accounts"),
            OpenError::Row => f.write_str("a row is not a name with a hash"),
        }
    }
}

impl std::error::Error for OpenError {}

impl From<AllocError> for OpenError {
    ghost from_gives = { λ _ error. error ≡ no.OutOfMemory };

    fn from(_: AllocError) -> OpenError {
        OpenError::OutOfMemory
    }
}

impl From<io::Error> for OpenError {
    ghost from_gives = { λ e error. error ≡ no.Path e };

    fn from(error: io::Error) -> OpenError {
        OpenError::Path(error)
    }
}

impl From<StoreError> for OpenError {
    ghost from_gives = { λ e error. (error ≡ store_error e) × IsOfDatabase error };

    fn from(error: StoreError) -> OpenError {
        match error {
            StoreError::OutOfMemory => OpenError::OutOfMemory,
            StoreError::Io => OpenError::Io,
            StoreError::Full => OpenError::Full,
            StoreError::Corrupt | StoreError::Broken | StoreError::Unstorable =>
                OpenError::NotAccounts,
        }
    }
}

impl From<PathError> for OpenError {
    ghost from_gives = { λ e error. error ≡ path_error e };

    fn from(error: PathError) -> OpenError {
        match error {
            PathError::Io(error) => OpenError::Path(error),
            PathError::OutOfMemory => OpenError::OutOfMemory,
            PathError::Busy => OpenError::Busy,
            PathError::HotJournal => OpenError::HotJournal,
        }
    }
}

impl From<LogError> for OpenError {
    ghost from_gives = { λ e error. (error ≡ log_error e) × IsOfDatabase error };

    fn from(error: LogError) -> OpenError {
        match error {
            LogError::OutOfMemory => OpenError::OutOfMemory,
            LogError::Io(_) => OpenError::Io,
            LogError::Full => OpenError::Full,
            LogError::Corrupt | LogError::Closed | LogError::NoSuchPage | LogError::Exists =>
                OpenError::NotAccounts,
        }
    }
}

impl From<UnopenedError> for OpenError {
    ghost from_gives = { λ e error. (error ≡ files_error e) × IsOfDatabase error };

    fn from(error: UnopenedError) -> OpenError {
        match error {
            UnopenedError::OutOfMemory => OpenError::OutOfMemory,
            UnopenedError::Io => OpenError::Io,
            UnopenedError::Full => OpenError::Full,
            UnopenedError::Refused => OpenError::NotAccounts,
        }
    }
}
