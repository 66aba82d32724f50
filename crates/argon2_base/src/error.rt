//! The faults of hashing, and their texts.

ghost use Rattle.std.specs.Prelude.{◌≡◌, ◌++◌, Some, codes};
ghost use Rattle.argon2_base.specs.Error.{cause_text, error_text};
ghost use Rattle.argon2_base.specs.declared.error.Error.TheVariants.{B64Encoding, OutOfMemory};

use std::alloc::AllocError;
use std::fmt;

pub mod kdf;
pub mod password_hash;

/// Why a Base64 text (RFC 4648, section 4, without padding) is refused.
#[derive(Clone, Copy, Debug, PartialEq, Eq)]
pub enum B64Error {
    /// The text is the encoding of no byte list.
    InvalidEncoding,
    /// The text is longer than any encoding that fits.
    InvalidLength,
}

impl B64Error {
    /// What is printed.
    pub fn text(&self) -> &'static str
        ensures { result.now ≡ cause_text self.now }
    {
        match self {
            B64Error::InvalidEncoding => "invalid Base64 encoding",
            B64Error::InvalidLength => "invalid Base64 length",
        }
    }
}

impl fmt::Display for B64Error {
    ghost output = { λ e. Some (cause_text e) };

    fn fmt<W: fmt::Write>(&self, f: &mut fmt::Formatter<W>) -> fmt::Result {
        f.write_str(self.text())
    }
}

impl std::error::Error for B64Error {}

/// Why a call is refused.
#[derive(Clone, Copy, Debug, PartialEq, Eq)]
pub enum Error {
    /// The associated data is longer than 32 bytes, or than 4294967295 if a call takes it apart.
    AdTooLong,
    /// The name is not `argon2d`, `argon2i` or `argon2id`.
    AlgorithmInvalid,
    /// A Base64 text is refused.
    B64Encoding(B64Error),
    /// The key identifier is longer than 8 bytes.
    KeyIdTooLong,
    /// The memory cost is below 8, or below 8 times the number of lanes, or the memory lent has
    /// fewer blocks than the parameters ask for.
    MemoryTooLittle,
    /// Kept for its name: no call returns it.
    MemoryTooMuch,
    /// The output is shorter than 4 bytes (1 byte for the hash of any length), or than the
    /// parameters' output length.
    OutputTooShort,
    /// The output is longer than 4294967295 bytes, or than the parameters' output length.
    OutputTooLong,
    /// The password is longer than 4294967295 bytes.
    PwdTooLong,
    /// The salt is shorter than 8 bytes.
    SaltTooShort,
    /// The salt is longer than 4294967295 bytes.
    SaltTooLong,
    /// The secret is longer than 4294967295 bytes.
    SecretTooLong,
    /// There is no lane.
    ThreadsTooFew,
    /// There are more than 16777215 lanes.
    ThreadsTooMany,
    /// There is no pass.
    TimeTooSmall,
    /// The version is neither 0x10 nor 0x13.
    VersionInvalid,
    /// A request for memory was refused.
    OutOfMemory,
}

/// A result with the fault of hashing.
pub type Result<T> = std::result::Result<T, Error>;

impl Error {
    /// What is printed.
    pub fn text(&self) -> &'static str
        ensures { result.now ≡ error_text self.now }
    {
        match self {
            Error::AdTooLong => "associated data is too long",
            Error::AlgorithmInvalid => "algorithm identifier invalid",
            Error::B64Encoding(cause) => encoding_text(cause),
            Error::KeyIdTooLong => "key ID is too long",
            Error::MemoryTooLittle => "memory cost is too small",
            Error::MemoryTooMuch => "memory cost is too large",
            Error::OutputTooShort => "output is too short",
            Error::OutputTooLong => "output is too long",
            Error::PwdTooLong => "password is too long",
            Error::SaltTooShort => "salt is too short",
            Error::SaltTooLong => "salt is too long",
            Error::SecretTooLong => "secret is too long",
            Error::ThreadsTooFew => "not enough threads",
            Error::ThreadsTooMany => "too many threads",
            Error::TimeTooSmall => "time cost is too small",
            Error::VersionInvalid => "invalid version",
            Error::OutOfMemory => "out of memory",
        }
    }
}

// What is printed of a Base64 text that is refused for such a cause.
fn encoding_text(cause: &B64Error) -> &'static str
    ensures { result.now ≡ codes "B64 encoding invalid: " ++ cause_text cause.now }
{
    match cause {
        B64Error::InvalidEncoding => "B64 encoding invalid: invalid Base64 encoding",
        B64Error::InvalidLength => "B64 encoding invalid: invalid Base64 length",
    }
}

impl fmt::Display for Error {
    ghost output = { λ e. Some (error_text e) };

    fn fmt<W: fmt::Write>(&self, f: &mut fmt::Formatter<W>) -> fmt::Result {
        f.write_str(self.text())
    }
}

impl std::error::Error for Error {}

impl From<B64Error> for Error {
    ghost from_gives = { λ cause e. e ≡ B64Encoding cause };

    fn from(cause: B64Error) -> Error {
        Error::B64Encoding(cause)
    }
}

impl From<AllocError> for Error {
    ghost from_gives = { λ _ e. e ≡ OutOfMemory };

    fn from(_error: AllocError) -> Error {
        Error::OutOfMemory
    }
}
