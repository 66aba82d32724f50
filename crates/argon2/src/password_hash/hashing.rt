//! Hashing under the settings of an `Argon2`.

ghost use Rattle.std.specs.Prelude.{◌≡◌, ◌≤◌, Ok, length, option_copied};
ghost use Rattle.argon2_base.specs.Error.{outcome_of};
ghost use Rattle.argon2_base.specs.PhcFields.{phc_of};
ghost use Rattle.argon2.specs.TextHashing.{IsAskedAnswer, IsHashAnswer, IsTagAnswer, algorithm_or_default, settings_or_default, tag_length, target_of, version_or_default};
ghost use Rattle.argon2.specs.TextHashing.{with_tag_length};
ghost use Rattle.argon2.specs.Argon2.{parameters_of, secret_of, settings_of};
ghost use Rattle.argon2.specs.StoredTexts.{AcceptsHash, shown_settings};

use super::{CustomizedPasswordHasher, Error, PasswordHasher, Result};
use crate::algorithm::Algorithm;
use crate::context::Argon2;
use crate::params::Params;
use crate::version::Version;
use argon2_base::phc::{Output, ParamsString, PasswordHash, Salt};
use rand_core::Rng;
use std::alloc::Global;

impl Argon2<'_> {
    // The tag of a password and a salt, with the length of the hash in a text.
    pub(super) fn tag(&self, alloc: Global, password: &[u8], salt: &[u8]) -> Result<Output>
        requires fits { tag_length (settings_of self.now) ≤ 64 }
        requires salt_least { 8 ≤ length salt.now }
        requires salt_most { length salt.now ≤ 48 }
        ensures { IsTagAnswer self.now password.now salt.now result }
    {
        let mut buffer = [0u8; Output::MAX_LENGTH];
        let tag = &mut buffer[..self.params().hash_len()];
        self.hash_password_into(alloc, password, salt, tag)?;
        Output::new(tag)
    }
}

/// Hashes have the output length of the parameters, or 32 bytes if none is set.
impl PasswordHasher<PasswordHash> for Argon2<'_> {
    ghost hash_gives = { λ argon2. IsHashAnswer (target_of argon2) };

    ghost accepts = { λ argon2. AcceptsHash (secret_of argon2) };

    ghost shows = { λ argon2 hash. shown_settings (phc_of hash) ≡ Ok (with_tag_length (settings_of argon2)) };

    fn hash_password_with_salt(
        &self,
        alloc: Global,
        password: &[u8],
        salt: &[u8],
    ) -> Result<PasswordHash> {
        let salt = Salt::new(salt)?;
        let params = self.params();
        if !params.hash_fits_text() {
            return Err(Error::OutputSize);
        }
        let hash = self.tag(alloc, password, salt.as_bytes())?;
        Ok(PasswordHash {
            algorithm: self.algorithm().ident(),
            version: Some(u32::from(self.version())),
            params: ParamsString::try_from(params)?,
            salt: Some(salt),
            hash: Some(hash),
        })
    }

    fn hash_password<R: Rng>(
        &self,
        alloc: Global,
        rng: &mut R,
        password: &[u8],
    ) -> Result<PasswordHash> {
        let mut salt = [0u8; Salt::RECOMMENDED_LENGTH];
        rng.fill_bytes(&mut salt);
        self.hash_password_with_salt(alloc, password, &salt)
    }
}

// The algorithm of a name, or Argon2id.
fn asked_algorithm(name: Option<&str>) -> Result<Algorithm>
    ensures { outcome_of (λ a. a) result ≡ algorithm_or_default (option_copied name.entry) }
{
    let Some(name) = name else {
        return Ok(Algorithm::default());
    };
    Algorithm::try_from(name)
}

// The version of a number, or 0x13.
#[tactic(auto, using(crate::proofs::params_lemmas::Named::not_found))]
fn asked_version(number: Option<u32>) -> Result<Version>
    ensures { outcome_of (λ v. v) result ≡ version_or_default number }
{
    let Some(number) = number else {
        return Ok(Version::default());
    };
    Ok(Version::try_from(number)?)
}

impl CustomizedPasswordHasher<PasswordHash> for Argon2<'_> {
    type Params = Params;

    ghost customized_gives = { λ argon2 name number params.
        IsAskedAnswer (settings_or_default name number (parameters_of params)) (secret_of argon2) };

    ghost accepts = { λ argon2. AcceptsHash (secret_of argon2) };

    /// If no algorithm is given it is Argon2id, and if no version is, 0x13, whatever this
    /// context's are. Its secret is used.
    fn hash_password_customized(
        &self,
        alloc: Global,
        password: &[u8],
        salt: &[u8],
        alg_id: Option<&str>,
        version: Option<u32>,
        params: Params,
    ) -> Result<PasswordHash> {
        let algorithm = asked_algorithm(alg_id)?;
        let version = asked_version(version)?;
        self.with_settings(algorithm, version, params)
            .hash_password_with_salt(alloc, password, salt)
    }
}
