//! Laws on calls: each is the contract of a function without parameters, and calling it does nothing.

ghost use Rattle.std.specs.Prelude.{◌≡◌, ◌⊎◌, ◌↔◌};
ghost use Rattle.argon2_base.specs.PhcText.{Phc};
ghost use Rattle.argon2.specs.declared.login.answers.Accepted.TheVariants.{Current, Kept, Rehashed};
ghost use Rattle.argon2_c.specs.Logins.{IsAcceptedLogin, IsLogin, IsWritten, Login};
ghost use Rattle.argon2_c.specs.Verification.{BoundVerification, IsAccepted, IsAcceptedWithin, Verification};

use crate::code::{CURRENT, DUE, OK};

/// The text of a hash is read, its hash is made again, and the two are compared. If the first call answers 0, so does
/// the second. All three answer 0 if and only if neither the call nor the text has a fault, and the hash of the text is
/// the password's tag.
pub fn verifying()
    ensures hashes { (c : Verification) → c.decoded ≡ OK → c.hashed ≡ OK }
    ensures accepts { (c : Verification) → (c.decoded ≡ OK) × (c.hashed ≡ OK) × (c.compared ≡ OK)
        ↔ IsAccepted c }
{}

/// A bound admits a text, its hash is made again under a secret or an old one, and the two are compared. If the first call
/// answers 0, so does the second. All three answer 0 if and only if the text accepts the password within the bound under
/// that secret, its hash has a length that the bound allows, and neither secret is longer than 4294967295 bytes.
pub fn verifying_within()
    ensures hashes { (c : BoundVerification) → c.admitted ≡ OK → c.hashed ≡ OK }
    ensures accepts { (c : BoundVerification) → (c.admitted ≡ OK) × (c.hashed ≡ OK) × (c.compared ≡ OK)
        ↔ IsAcceptedWithin c }
{}

/// A login verifies a text under a secret, and under an old secret if the secret refuses. If one of them accepts, the call
/// that decides whether a new hash is due answers 0 or 1, and the call that hashes answers 0. If it is not due, the text stays
/// as by `Policy::log_in` of argon2_policy. If it is due, the text is kept, or the written text is a fresh one, as by that call.
pub fn logging_in()
    ensures decides { (c : Login) → IsAcceptedLogin c → (c.due ≡ CURRENT) ⊎ (c.due ≡ DUE) }
    ensures hashes { (c : Login) → IsAcceptedLogin c → c.hashed ≡ OK }
    ensures current { (c : Login) → IsAcceptedLogin c → c.due ≡ CURRENT
        → (v : Phc) × IsLogin c Current v v }
    ensures kept { (c : Login) → IsAcceptedLogin c → c.due ≡ DUE → (v : Phc) × IsLogin c Kept v v }
    ensures renewed { (c : Login) → IsAcceptedLogin c → c.due ≡ DUE → c.encoded ≡ OK
        → (v : Phc) × (w : Phc) × IsLogin c Rehashed v w × IsWritten c w }
{}
