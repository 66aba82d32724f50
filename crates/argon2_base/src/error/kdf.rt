//! The fault of key derivation.

ghost use Rattle.std.specs.Prelude.{◌≡◌, Some, codes};

use super::Error as HashingError;
use std::alloc::AllocError;
use std::fmt;

/// Key derivation failed, for whatever reason.
#[derive(Clone, Copy, Debug, PartialEq, Eq)]
pub struct Error;

/// A result with the fault of key derivation.
pub type Result<T> = std::result::Result<T, Error>;

impl Error {
    /// What is printed.
    pub fn text(&self) -> &'static str
        ensures { result.now ≡ codes "key derivation failed" }
    {
        "key derivation failed"
    }
}

impl fmt::Display for Error {
    ghost output = { λ _. Some (codes "key derivation failed") };

    fn fmt<W: fmt::Write>(&self, f: &mut fmt::Formatter<W>) -> fmt::Result {
        f.write_str(self.text())
    }
}

impl std::error::Error for Error {}

impl From<HashingError> for Error {
    ghost from_gives = { λ _ e. e ≡ record {} };

    fn from(_error: HashingError) -> Error {
        Error
    }
}

impl From<AllocError> for Error {
    ghost from_gives = { λ _ e. e ≡ record {} };

    fn from(_error: AllocError) -> Error {
        Error
    }
}
