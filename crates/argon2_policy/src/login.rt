//! What an accepted login does with the text that is stored.

ghost use Rattle.std.specs.Prelude.{◌≡◌};
ghost use Rattle.argon2_policy.specs.Renewals.{accepted_of};

use argon2::PasswordHash;
use argon2::login::Accepted;

/// A fresh text, and the stored text that it replaces.
#[derive(Debug, Drop)]
pub struct Renewal<'text> {
    /// The text that was stored when the password was verified.
    pub old: &'text str,
    /// The text that the caller stores in its place, if the name still has the old one.
    pub fresh: PasswordHash,
}

/// What an accepted login does with the text that is stored.
#[derive(Debug, Drop)]
pub enum LoggedIn<'text> {
    /// The text is as the target asks, and stays.
    Current,
    /// The text is not, and the caller replaces it.
    Renewed(Renewal<'text>),
    /// The text is not, and stays: there was no memory for a fresh one.
    Kept,
}

impl LoggedIn<'_> {
    /// The answer of the login, once the caller has replaced the text that is renewed.
    pub fn accepted(&self) -> Accepted
        ensures { result ≡ accepted_of self.now }
    {
        match self {
            LoggedIn::Current => Accepted::Current,
            LoggedIn::Renewed(_) => Accepted::Rehashed,
            LoggedIn::Kept => Accepted::Kept,
        }
    }
}
