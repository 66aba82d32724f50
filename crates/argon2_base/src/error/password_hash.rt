//! The faults of calls on passwords and PHC texts.

ghost use Rattle.std.specs.Prelude.{◌≡◌, ◌++◌, Some};
ghost use Rattle.argon2_base.specs.Error.{hash_error_text, fault_of, as_fault};
ghost use Rattle.argon2_base.specs.declared.error.password_hash.Error.TheVariants.{OutOfMemory};

use super::Error as HashingError;
use std::alloc::AllocError;
use std::fmt;

/// Why a call on passwords or PHC texts is refused.
#[derive(Clone, Copy, Debug, PartialEq, Eq)]
pub enum Error {
    /// The identifier names no algorithm of Argon2.
    Algorithm,
    /// The text is outside the grammar.
    EncodingInvalid,
    /// A request for memory was refused.
    OutOfMemory,
    /// The output has a length that a hash can't have.
    OutputSize,
    /// The parameter of this name has a value that it can't have.
    ParamInvalid {
        /// The parameter's name.
        name: &'static str,
    },
    /// The parameter list is outside the grammar, or its parameters are not Argon2's.
    ParamsInvalid,
    /// The password is too long, or another password was hashed.
    PasswordInvalid,
    /// The salt has a length that a salt can't have.
    SaltInvalid,
    /// The version is not one of Argon2's.
    Version,
}

/// A result with the fault of calls on passwords.
pub type Result<T> = std::result::Result<T, Error>;

impl Error {
    /// What is printed, in three parts that follow one another.
    pub fn text(&self) -> (&'static str, &'static str, &'static str)
        ensures { result.0.now ++ result.1.now ++ result.2.now ≡ hash_error_text self.now }
    {
        let sentence = match self {
            Error::Algorithm => "algorithm is not supported",
            Error::EncodingInvalid => "encoding is invalid",
            Error::OutOfMemory => "out of memory",
            Error::OutputSize => "output size is invalid",
            Error::ParamInvalid { name } => return ("parameter ", name, " is invalid"),
            Error::ParamsInvalid => "parameters are invalid",
            Error::PasswordInvalid => "password is invalid",
            Error::SaltInvalid => "salt is invalid",
            Error::Version => "version is not supported",
        };
        (sentence, "", "")
    }
}

impl fmt::Display for Error {
    ghost output = { λ e. Some (hash_error_text e) };

    fn fmt<W: fmt::Write>(&self, f: &mut fmt::Formatter<W>) -> fmt::Result {
        let (start, name, end) = self.text();
        write!(f, "{start}{name}{end}")
    }
}

impl std::error::Error for Error {}

impl From<HashingError> for Error {
    ghost from_gives = { λ error e. fault_of e ≡ as_fault error };

    fn from(error: HashingError) -> Error {
        match error {
            HashingError::AdTooLong => Error::ParamInvalid { name: "data" },
            HashingError::AlgorithmInvalid => Error::Algorithm,
            HashingError::B64Encoding(_) => Error::EncodingInvalid,
            HashingError::KeyIdTooLong => Error::ParamInvalid { name: "keyid" },
            HashingError::MemoryTooLittle | HashingError::MemoryTooMuch => {
                Error::ParamInvalid { name: "m" }
            }
            HashingError::OutputTooShort | HashingError::OutputTooLong => Error::OutputSize,
            HashingError::PwdTooLong => Error::PasswordInvalid,
            HashingError::SaltTooShort | HashingError::SaltTooLong => Error::SaltInvalid,
            HashingError::SecretTooLong => Error::ParamsInvalid,
            HashingError::ThreadsTooFew | HashingError::ThreadsTooMany => {
                Error::ParamInvalid { name: "p" }
            }
            HashingError::TimeTooSmall => Error::ParamInvalid { name: "t" },
            HashingError::VersionInvalid => Error::Version,
            HashingError::OutOfMemory => Error::OutOfMemory,
        }
    }
}

impl From<AllocError> for Error {
    ghost from_gives = { λ _ e. e ≡ OutOfMemory };

    fn from(_error: AllocError) -> Error {
        Error::OutOfMemory
    }
}
