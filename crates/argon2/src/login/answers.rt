//! What the calls of the login store return.

ghost use Rattle.std.specs.Prelude.{◌≡◌, Some};
ghost use Rattle.argon2.specs.Login.{accepted_text, login_error_text};

use argon2_base::error::password_hash::Error;
use argon2_base::phc::PasswordHash;
use std::fmt;

/// What an accepted login did with the name's text.
#[derive(Clone, Copy, Debug, PartialEq, Eq)]
pub enum Accepted {
    /// The text is as the target asks, and stays.
    Current,
    /// The text was not. A fresh text, made of the password under the target, takes its place.
    Rehashed,
    /// The text is not, but stays: no fresh text could be made or stored.
    Kept,
}

impl Accepted {
    /// What became of the text, in words.
    pub fn as_str(&self) -> &'static str
        ensures { result.now ≡ accepted_text self.now }
    {
        match self {
            Accepted::Current => "hash is current",
            Accepted::Rehashed => "hash is renewed",
            Accepted::Kept => "hash is kept",
        }
    }
}

impl fmt::Display for Accepted {
    ghost output = { λ a. Some (accepted_text a) };

    fn fmt<W: fmt::Write>(&self, f: &mut fmt::Formatter<W>) -> fmt::Result {
        f.write_str(self.as_str())
    }
}

// An accepted login by a text.
#[derive(Debug, Drop)]
pub(super) struct LoggedIn {
    // What is to become of the text.
    pub(super) accepted: Accepted,
    // The fresh text, to be stored in place of the old one. It exists exactly with `Rehashed`.
    pub(super) fresh: Option<PasswordHash>,
}

/// Why a call of the login store is refused.
#[derive(Clone, Copy, Debug, PartialEq, Eq)]
pub enum LoginError {
    /// The text is outside the grammar of PHC texts.
    Text,
    /// The name has a text already.
    NameTaken,
    /// The name has no text.
    NameUnknown,
    /// A request for memory was refused.
    OutOfMemory,
    /// Verifying the name's text fails with this error.
    Refused(Error),
}

impl fmt::Display for LoginError {
    ghost output = { λ e. Some (login_error_text e) };

    fn fmt<W: fmt::Write>(&self, f: &mut fmt::Formatter<W>) -> fmt::Result {
        match self {
            LoginError::Text => f.write_str("text is outside the grammar"),
            LoginError::NameTaken => f.write_str("name is taken"),
            LoginError::NameUnknown => f.write_str("name is unknown"),
            LoginError::OutOfMemory => f.write_str("out of memory"),
            LoginError::Refused(error) => write!(f, "{error}"),
        }
    }
}

impl std::error::Error for LoginError {}
