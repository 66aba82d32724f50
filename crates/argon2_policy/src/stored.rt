//! Reads what is stored for a name.

ghost use Rattle.std.specs.Prelude.{◌≡◌, IfErr, IfOk, Some, option_copied};
ghost use Rattle.argon2_base.specs.PhcFields.{phc_of};
ghost use Rattle.argon2_base.specs.PhcText.{Phc};
ghost use Rattle.argon2_policy.specs.StoredFor.{IsShut, SaysValue};

use crate::denial::Denial;
use argon2::PasswordHash;
use argon2_schemes::{after_lock, scheme_of};

/// The stored text and what it says, if there is a text that a password may open.
pub(crate) fn read(stored: Option<&str>) -> Result<(&str, PasswordHash), Denial>
    ensures text { IfOk result (λ found. option_copied stored.entry ≡ Some found.0.now) }
    ensures found { IfOk result (λ found. SaysValue (option_copied stored.entry) (phc_of found.1)) }
    ensures only { IfOk result (λ found. (v : Phc) → SaysValue (option_copied stored.entry) v
        → phc_of found.1 ≡ v) }
    ensures shut { IfErr result (IsShut (option_copied stored.entry)) }
{
    let Some(text) = stored else {
        return Err(Denial::NameUnknown);
    };
    if after_lock(text).is_some() {
        return Err(Denial::Locked);
    }
    match scheme_of(text.as_bytes()) {
        Some(scheme) => Err(Denial::OtherScheme(scheme)),
        None => Ok((text, PasswordHash::new(text)?)),
    }
}
