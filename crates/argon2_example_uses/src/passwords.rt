//! Passwords as stored texts, under the default settings and no secret.

ghost use Rattle.std.specs.Prelude.{◌≡◌, ◌↔◌, ◌⊎◌, [], IsTrue, IfOk, MatchResult};
ghost use Rattle.argon2.specs.TextHashing.{drawn_salt};
ghost use Rattle.argon2.specs.StoredTexts.{Accepts, AcceptsHash};
ghost use Rattle.argon2.specs.TextHashing.{IsHashAnswer};
ghost use Rattle.argon2.specs.base_declared.error.password_hash.Error.TheVariants.{OutOfMemory};
ghost use Rattle.argon2_example_uses.specs.Passwords.{default_target, IsAcceptedAnswer};

use argon2::password_hash::{Error, Result};
use argon2::{Argon2, PasswordHash, PasswordHasher, PasswordVerifier};
use rand_core::Rng;
use std::alloc::Global;

/// What to store for a new password: it prints as the text.
pub fn stored<R: Rng>(alloc: Global, rng: &mut R, password: &[u8]) -> Result<PasswordHash>
    ensures accepted { IfOk result (AcceptsHash [] password.now) }
    ensures made { IsHashAnswer default_target password.now (drawn_salt (R.stream rng.old))
        result }
{
    Argon2::default().hash_password(alloc, rng, password)
}

/// Whether a stored text accepts a password.
///
/// # Errors
/// The errors of [`PasswordVerifier::verify_password`], except that the answer is false for `PasswordInvalid`.
pub fn is_accepted(alloc: Global, password: &[u8], text: &str) -> Result<bool>
    ensures answer { MatchResult result (λ yes. IsTrue yes ↔ Accepts [] password.now text.now)
        (λ e. (e ≡ OutOfMemory) ⊎ (Accepts [] password.now text.now → ⊥)) }
    ensures verified { IsAcceptedAnswer password.now text.now result }
{
    match Argon2::default().verify_password(alloc, password, text) {
        Ok(()) => Ok(true),
        Err(Error::PasswordInvalid) => Ok(false),
        Err(e) => Err(e),
    }
}
