//! Why the program fails.

ghost use Rattle.std.specs.Prelude.{◌≡◌, ◌≢◌};
ghost use Rattle.std.specs.IoError.{error_kind};
ghost use Rattle.argon2_passwd.specs.Failures.{Memory, denial_failure, file_failure, lines_failure, open_failure, write_failure, status_of};

use argon2::password_hash;
use argon2_policy::Denial;
use argon2_store::{FileError, LineError, OpenError};
use std::alloc::{AllocError, AllocFailed};
use std::io;
use std::io::ErrorKind;
use thiserror::Error;

/// Why a line of an import or a name may not be added.
#[derive(Clone, Copy, Debug, Error)]
pub enum Flaw {
    /// The line's text is too long.
    #[error("a hash has at most 4096 bytes")]
    TextLength,
    /// The line has no text that may be added.
    #[error("no name with an Argon2 hash that can be verified; see --any-hash")]
    NoText,
    /// The name is empty or too long.
    #[error("a name has 1 to 4096 bytes")]
    NameLength,
    /// The name has a colon or a control character.
    #[error("a name has no colon and no control character")]
    Character,
    /// The name begins with a byte order mark, which an import leaves out before the first line.
    #[error("a name begins with no byte order mark")]
    Mark,
    /// The name is taken.
    #[error("name is taken")]
    Taken,
}

/// One of the two secrets.
#[derive(Clone, Copy, Debug)]
pub enum SecretKind {
    /// The one under which texts are made.
    Current,
    /// The one under which they were made before.
    Old,
}

/// Why the program fails, with the text that it prints.
#[derive(Debug, Drop, Error)]
pub enum Failure {
    /// Standard input has no line for a password.
    #[error("standard input has no password")]
    NoPassword,
    /// A line for a password is longer than it may be.
    #[error("a password has at most 4096 bytes")]
    LongPassword,
    /// A line for a new password is empty.
    #[error("a new password has 1 to 4096 bytes")]
    EmptyPassword,
    /// A new password was typed twice, and not the same.
    #[error("the two passwords differ")]
    Differing,
    /// A new name may not be added.
    #[error(transparent)]
    Name(Flaw),
    /// The parameters are above the bound.
    #[error("parameters are above the bound")]
    Params,
    /// What a name has, or the text that is given, does not accept the password.
    #[error(transparent)]
    Denied(Denial),
    /// The line of this number may not be added.
    #[error("line {0}: {1}")]
    Line(usize, Flaw),
    /// The lines of these numbers were passed over, and all others were added.
    #[error("lines were passed over")]
    Passed(Vec<(usize, Flaw)>),
    /// What is at the path of the file with the accounts is no such file.
    #[error("{0}")]
    Unfit(&'static str),
    /// The file with the accounts can't be opened.
    #[error(transparent)]
    Unopened(OpenError),
    /// The names in the file with the accounts refuse the call, or the file can't be read or written.
    #[error(transparent)]
    File(FileError),
    /// A name in the file has a line break or a colon, and its text was to follow.
    #[error("a name has a line break or a colon")]
    BrokenLine,
    /// The file with this secret can't be read.
    #[error("the secret's file can't be read")]
    Secret(SecretKind),
    /// The file with this secret is empty or too long. An old one may be empty.
    #[error("a secret has 1 to 4096 bytes, and an old one 0 to 4096")]
    SecretLength(SecretKind),
    /// The system gives no random bytes.
    #[error("the system gives no random bytes")]
    Random,
    /// Standard input can't be read to its end.
    #[error("standard input can't be read")]
    Input,
    /// Standard output can't be written.
    #[error("standard output can't be written")]
    Output,
    /// The reader of standard output has gone.
    #[error("standard output has no reader")]
    Unread,
    /// A request for memory was refused.
    #[error("out of memory")]
    Memory,
}

impl Failure {
    ghost use Rattle.std.specs.Prelude.{◌≡◌, ◌≤◌};
    ghost use Rattle.argon2_passwd.specs.Failures.{is_denial, status_of};

    /// The exit status: 1 if a password, a name or a line is refused, 2 if the parameters are, 4 if a text can't be
    /// verified by any password or lines were passed over, and 3 if a file, a stream or a request for memory fails.
    pub fn status(&self) -> u8
        ensures value { result ≡ status_of self.now }
        ensures some { (1 ≤ result) × (result ≤ 4) }
    {
        match self {
            Failure::NoPassword
            | Failure::LongPassword
            | Failure::EmptyPassword
            | Failure::Differing
            | Failure::Name(_)
            | Failure::Line(_, _) => 1,
            Failure::Params => 2,
            Failure::Denied(why) if why.is_wrong() => 1,
            Failure::Denied(_) | Failure::Passed(_) => 4,
            Failure::File(error) if error.is_refusal() => 1,
            _ => 3,
        }
    }

    /// Whether a name is unknown, or its text refuses the password or is locked.
    pub fn is_denial(&self) -> bool
        ensures { result ≡ is_denial self.now }
    {
        matches!(self, Failure::Denied(why) if why.is_wrong())
    }
}

/// The failure of a read from standard input; out of memory is reported as that.
pub fn of_reading(error: &io::Error) -> Failure
    ensures memory { error_kind error.now ≡ ErrorKind.OutOfMemory → result ≡ Failure.Memory }
    ensures input { error_kind error.now ≢ ErrorKind.OutOfMemory → result ≡ Failure.Input }
    ensures trouble { status_of result ≡ 3 }
{
    if error.kind() == ErrorKind::OutOfMemory {
        Failure::Memory
    } else {
        Failure::Input
    }
}

impl From<AllocError> for Failure {
    ghost from_gives = { λ _ failure. failure ≡ Memory };

    fn from(_: AllocError) -> Failure {
        Failure::Memory
    }
}

impl<T: Drop> From<AllocFailed<T>> for Failure {
    ghost from_gives = { λ _ failure. failure ≡ Memory };

    fn from(_refused: AllocFailed<T>) -> Failure {
        Failure::Memory
    }
}

/// The failure of a write.
impl From<io::Error> for Failure {
    ghost from_gives = { λ error failure. failure ≡ write_failure error };

    fn from(error: io::Error) -> Failure {
        match error.kind() {
            ErrorKind::BrokenPipe => Failure::Unread,
            _ => Failure::Output,
        }
    }
}

/// The failure of a call of the policy. Out of memory is reported as that, and a locked text as a wrong password.
impl From<Denial> for Failure {
    ghost from_gives = { λ why failure. failure ≡ denial_failure why };

    fn from(why: Denial) -> Failure {
        match why {
            Denial::Refused(password_hash::Error::OutOfMemory) => Failure::Memory,
            Denial::Locked => Failure::Denied(Denial::Refused(
                password_hash::Error::PasswordInvalid,
            )),
            why => Failure::Denied(why),
        }
    }
}

/// The failure of a call on a file. A name that is unknown is denied. A name that is locked is denied as a wrong password is.
impl From<FileError> for Failure {
    ghost from_gives = { λ error failure. failure ≡ file_failure error };

    fn from(error: FileError) -> Failure {
        match error {
            FileError::OutOfMemory => Failure::Memory,
            FileError::NameUnknown => Denial::NameUnknown.into(),
            FileError::Locked => Denial::Locked.into(),
            error => Failure::File(error),
        }
    }
}

/// The failure of writing the lines of a file.
impl From<LineError> for Failure {
    ghost from_gives = { λ error failure. failure ≡ lines_failure error };

    fn from(error: LineError) -> Failure {
        match error {
            LineError::File(error) => error.into(),
            LineError::Breaks => Failure::BrokenLine,
            LineError::Write(error) => error.into(),
        }
    }
}

/// The failure of an open.
impl From<OpenError> for Failure {
    ghost from_gives = { λ error failure. failure ≡ open_failure error };

    fn from(error: OpenError) -> Failure {
        match error {
            OpenError::OutOfMemory => Failure::Memory,
            error => Failure::Unopened(error),
        }
    }
}
