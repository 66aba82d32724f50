//! Why calls on accounts are refused or fail.

ghost use Rattle.std.specs.Prelude.{◌≡◌, Some};
ghost use Rattle.argon2_accounts.specs.Errors.{Refused, account_error_text, is_account_refusal, of_denial, of_file};

use argon2::password_hash;
use argon2_policy::Denial;
use argon2_store::FileError;
use std::fmt;

/// Why a call on accounts is refused or fails. The names are then as before it, unless the disk failed
/// during a commit. Each cause has one value, whether the policy or the file finds it.
#[derive(Clone, Copy, Debug, PartialEq, Eq)]
pub enum AccountError {
    /// What the name has does not accept the password, or no text is made of a password. A name that is
    /// unknown is denied by [`set_password`](crate::Accounts::set_password) too.
    Denied(Denial),
    /// A new name has more than 4096 bytes.
    NameTooLong,
    /// A request for memory was refused.
    OutOfMemory,
    /// The file refuses the call for another reason, or fails.
    File(FileError),
}

impl AccountError {
    /// Whether the answer is no: because of the name, its text or the password. If not, memory, the
    /// disk or the file fails.
    pub fn is_refusal(self) -> bool
        ensures { result ≡ is_account_refusal self }
    {
        match self {
            AccountError::Denied(_) | AccountError::NameTooLong => true,
            AccountError::OutOfMemory => false,
            AccountError::File(error) => error.is_refusal(),
        }
    }
}

impl fmt::Display for AccountError {
    ghost output = { λ e. Some (account_error_text e) };

    fn fmt<W: fmt::Write>(&self, f: &mut fmt::Formatter<W>) -> fmt::Result {
        match self {
            AccountError::Denied(why) => write!(f, "{why}"),
            AccountError::NameTooLong => f.write_str("name is too long"),
            AccountError::OutOfMemory => f.write_str("out of memory"),
            AccountError::File(error) => write!(f, "{error}"),
        }
    }
}

impl std::error::Error for AccountError {}

impl From<FileError> for AccountError {
    ghost from_gives = { λ e error. error ≡ of_file e };

    fn from(error: FileError) -> AccountError {
        match error {
            FileError::NameUnknown => AccountError::Denied(Denial::NameUnknown),
            FileError::Locked => AccountError::Denied(Denial::Locked),
            FileError::OutOfMemory => AccountError::OutOfMemory,
            error => AccountError::File(error),
        }
    }
}

impl From<Denial> for AccountError {
    ghost from_gives = { λ why error. error ≡ of_denial why };

    fn from(why: Denial) -> AccountError {
        match why {
            Denial::Refused(password_hash::Error::OutOfMemory) => AccountError::OutOfMemory,
            why => AccountError::Denied(why),
        }
    }
}

impl From<password_hash::Error> for AccountError {
    ghost from_gives = { λ e error. error ≡ of_denial (Refused e) };

    fn from(error: password_hash::Error) -> AccountError {
        Denial::Refused(error).into()
    }
}
