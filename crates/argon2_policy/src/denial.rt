//! Why a password is not accepted.

ghost use Rattle.std.specs.Prelude.{◌≡◌, Some};
ghost use Rattle.argon2_policy.specs.Denials.{denial_text, is_wrong, of_bound};

use argon2::bound::BoundError;
use argon2::password_hash::Error;
use argon2_schemes::Scheme;
use std::fmt;

/// Why what is stored for a name does not accept a password, or why no fresh text is made of it.
///
/// Show a person one answer for all that [`is_wrong`](Denial::is_wrong), and the others only if names may be
/// known. A log may have each.
#[derive(Clone, Copy, Debug, PartialEq, Eq)]
pub enum Denial {
    /// Nothing is stored.
    NameUnknown,
    /// The text is locked.
    Locked,
    /// The text is of another scheme.
    OtherScheme(Scheme),
    /// The text asks for more than the bound.
    TooExpensive,
    /// Reading or verifying the text, or making a fresh one, fails with this error. A wrong password is
    /// [`Error::PasswordInvalid`].
    Refused(Error),
}

impl Denial {
    /// Whether the name or the password is wrong: nothing is stored, or the text is locked, or it does not accept
    /// the password.
    pub fn is_wrong(self) -> bool
        ensures { result ≡ is_wrong self }
    {
        matches!(
            self,
            Denial::NameUnknown | Denial::Locked | Denial::Refused(Error::PasswordInvalid)
        )
    }
}

impl fmt::Display for Denial {
    ghost output = { λ denial. Some (denial_text denial) };

    fn fmt<W: fmt::Write>(&self, f: &mut fmt::Formatter<W>) -> fmt::Result {
        match self {
            Denial::NameUnknown => f.write_str("name is unknown"),
            Denial::Locked => f.write_str("name is locked"),
            Denial::OtherScheme(scheme) => write!(f, "{}, not Argon2", scheme.name()),
            Denial::TooExpensive => f.write_str("costs are above the bound"),
            Denial::Refused(error) => write!(f, "{error}"),
        }
    }
}

impl std::error::Error for Denial {}

impl From<Error> for Denial {
    ghost use Rattle.argon2_policy.specs.Denials.{Refused};

    ghost from_gives = { λ error denial. denial ≡ Refused error };

    fn from(error: Error) -> Denial {
        Denial::Refused(error)
    }
}

impl From<BoundError> for Denial {
    ghost from_gives = { λ error denial. denial ≡ of_bound error };

    fn from(error: BoundError) -> Denial {
        match error {
            BoundError::TooExpensive => Denial::TooExpensive,
            BoundError::Refused(error) => Denial::Refused(error),
        }
    }
}
