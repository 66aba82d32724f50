//! Why a command fails, and what is printed then.

ghost use Rattle.std.specs.Prelude.{◌≡◌, ◌++◌};
ghost use Rattle.argon2_io.specs.Failures.{IsOfReading};
ghost use Rattle.argon2_io.specs.declared.failure.Failure.TheVariants.{Memory};
ghost use Rattle.argon2_tool.specs.Failures.{IsHashingFailure, IsTextFailure, IsIoAnd, failure_text};
ghost use Rattle.argon2_tool.specs.declared.failure.Failure.TheVariants.{Io};

use argon2::password_hash;
use argon2_io as io;
use std::alloc::AllocError;

/// Why a command fails.
#[derive(Debug, Drop)]
pub enum Failure {
    /// A stream or a request for memory fails.
    Io(io::Failure),
    /// The call that the command makes refuses.
    Hashing(argon2::Error),
    /// The call that makes or verifies a text refuses.
    Text(password_hash::Error),
}

impl Failure {
    /// The text that is printed, in three parts as [`password_hash::Error::text`] returns them.
    pub fn text(&self) -> (&'static str, &'static str, &'static str)
        ensures { result.0.now ++ result.1.now ++ result.2.now ≡ failure_text self.now }
    {
        let sentence = match self {
            Failure::Io(io::Failure::Input(_)) => "standard input can't be read",
            Failure::Io(io::Failure::Output(_)) => "standard output can't be written",
            Failure::Io(io::Failure::Memory(_)) => "out of memory",
            Failure::Io(io::Failure::Other(what)) => what,
            Failure::Hashing(error) => error.text(),
            Failure::Text(error) => return error.text(),
        };
        (sentence, "", "")
    }
}

impl From<io::Failure> for Failure {
    ghost from_gives = { λ failed failure. failure ≡ Io failed };

    fn from(failed: io::Failure) -> Failure {
        Failure::Io(failed)
    }
}

impl From<AllocError> for Failure {
    ghost from_gives = { λ refused failure. failure ≡ Io (Memory refused) };

    fn from(refused: AllocError) -> Failure {
        Failure::Io(io::Failure::Memory(refused))
    }
}

/// The failure of a read. Out of memory becomes `Memory`.
impl From<std::io::Error> for Failure {
    ghost from_gives = { λ error failure. IsIoAnd (IsOfReading error) failure };

    fn from(error: std::io::Error) -> Failure {
        Failure::Io(io::Failure::of_reading(error))
    }
}

/// Out of memory becomes `Memory`, whichever call reports it.
impl From<argon2::Error> for Failure {
    ghost from_gives = { IsHashingFailure };

    fn from(error: argon2::Error) -> Failure {
        match error {
            argon2::Error::OutOfMemory => AllocError.into(),
            error => Failure::Hashing(error),
        }
    }
}

/// Out of memory becomes `Memory`, whichever call reports it.
impl From<password_hash::Error> for Failure {
    ghost from_gives = { IsTextFailure };

    fn from(error: password_hash::Error) -> Failure {
        match error {
            password_hash::Error::OutOfMemory => AllocError.into(),
            error => Failure::Text(error),
        }
    }
}
