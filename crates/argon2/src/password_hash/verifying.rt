//! Verifying passwords against stored hashes.

ghost use Rattle.std.specs.Prelude.{◌≡◌, Ok};
ghost use Rattle.argon2_base.specs.PhcFields.{phc_of};
ghost use Rattle.argon2_base.specs.PhcText.{Phc};
ghost use Rattle.argon2.specs.StoredTexts.{Accepts, AcceptsBy, IsVerifyAnswer, IsVerifyTextAnswer, stored_of, stored_value};
ghost use Rattle.argon2.specs.Argon2.{secret_of};

use super::{Error, PasswordVerifier, Result, Settings, Stored};
use crate::context::Argon2;
use argon2_base::phc::PasswordHash;
use std::alloc::Global;

impl Argon2<'_> {
    /// Verifies a password by a stored text that was read, under the secret of this `Argon2`. The memory of
    /// the hash is requested from `alloc` in one request, and freed before the call returns.
    ///
    /// # Errors
    /// The first of these that holds:
    /// - [`Error::OutOfMemory`]: the request was refused.
    /// - [`Error::PasswordInvalid`]: the password is longer than 4294967295 bytes, or is not accepted.
    pub fn verify_stored(&self, alloc: Global, password: &[u8], stored: &Stored<'_>) -> Result<()>
        ensures { (v : Phc) → stored_of v ≡ Ok (stored_value stored.now)
            → IsVerifyAnswer (secret_of self.now) password.now v result }
    {
        let Settings {
            algorithm,
            version,
            params,
        } = stored.settings;
        let argon2 = self.with_settings(algorithm, version, params);
        let tag = argon2.tag(alloc, password, stored.salt.as_bytes())?;
        if tag == *stored.hash {
            return Ok(());
        }
        Err(Error::PasswordInvalid)
    }
}

/// Hashes under the algorithm, the version and the parameters of the stored hash (no version
/// means 0x10), and with this context's secret. Nothing else of this context is used.
impl PasswordVerifier<&PasswordHash> for Argon2<'_> {
    ghost verify_gives = { λ argon2 password hash.
        IsVerifyAnswer (secret_of argon2) password (phc_of hash.now) };

    ghost accepts = { λ argon2 password hash.
        AcceptsBy (secret_of argon2) password (phc_of hash.now) };

    fn verify_password(&self, alloc: Global, password: &[u8], hash: &PasswordHash) -> Result<()> {
        self.verify_stored(alloc, password, &Stored::try_from(hash)?)
    }
}

/// Verifies against the value of a PHC text.
impl PasswordVerifier<&str> for Argon2<'_> {
    ghost verify_gives = { λ argon2 password text.
        IsVerifyTextAnswer (secret_of argon2) password text.now };

    ghost accepts = { λ argon2 password text. Accepts (secret_of argon2) password text.now };

    fn verify_password(&self, alloc: Global, password: &[u8], text: &str) -> Result<()> {
        let hash = PasswordHash::new(text)?;
        self.verify_password(alloc, password, &hash)
    }
}
