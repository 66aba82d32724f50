//! What a stored hash shows: how it was made, its salt and the hash itself.

ghost use Rattle.std.specs.Prelude.{◌≡◌, ◌≤◌, Some, Ok, length};
ghost use Rattle.argon2_base.specs.Error.{outcome_of};
ghost use Rattle.argon2_base.specs.PhcFields.{phc_of};
ghost use Rattle.argon2.specs.Argon2.{parameters_of};
ghost use Rattle.argon2.specs.ListedParameters.{asked_of};

use super::{Error, Result};
use crate::algorithm::Algorithm;
use crate::params::Params;
use crate::version::Version;
use argon2_base::phc::{Output, PasswordHash, Salt};

/// The settings that a PHC text shows.
#[derive(Clone, Copy, Debug, PartialEq, Eq)]
pub struct Settings {
    /// The algorithm.
    pub algorithm: Algorithm,
    /// The version: 0x10 if the text has none.
    pub version: Version,
    /// The parameters. Their output length is the length of the hash, if the text has one.
    pub params: Params,
}

impl Settings {
    ghost use Rattle.std.specs.Prelude.{◌↔◌, IsTrue};
    ghost use Rattle.argon2.specs.Policy.{AreNoWeaker};
    ghost use Rattle.argon2.specs.StoredTexts.{settings_value, shown_settings};

    /// Whether a hash of these settings is no weaker than a hash of `wanted`. Then both have the same
    /// algorithm, version, key identifier and associated data, no cost is lower than wanted, and the hash
    /// is not shorter. Settings without an output length are of hashes of 32 bytes.
    pub fn is_no_weaker_than(&self, wanted: &Settings) -> bool
        ensures { IsTrue result ↔ AreNoWeaker (settings_value wanted.now) (settings_value self.now) }
    {
        if self.algorithm != wanted.algorithm || self.version != wanted.version {
            return false;
        }
        let (own, wanted) = (&self.params, &wanted.params);
        if own.m_cost() < wanted.m_cost() || own.t_cost() < wanted.t_cost() {
            return false;
        }
        if own.p_cost() < wanted.p_cost() || own.hash_len() < wanted.hash_len() {
            return false;
        }
        own.keyid() == wanted.keyid() && own.data() == wanted.data()
    }

    // The settings of a PHC text, given its parameters.
    #[tactic(auto, using(crate::proofs::params_lemmas::Named::not_found))]
    pub(crate) fn with_params(hash: &PasswordHash, params: Params) -> Result<Settings>
        requires { asked_of (phc_of hash.now) ≡ Ok (parameters_of params) }
        ensures { outcome_of settings_value result ≡ shown_settings (phc_of hash.now) }
    {
        let algorithm = Algorithm::try_from(hash.algorithm.as_str())?;
        let version = match hash.version {
            Some(number) => Version::try_from(number)?,
            None => Version::V0x10,
        };
        Ok(Settings {
            algorithm,
            version,
            params,
        })
    }
}

/// Reads the settings of a PHC text, which may have no salt and no hash. Allocates nothing.
///
/// # Errors
/// The first of these that holds:
/// - [`Error::ParamInvalid`] and [`Error::ParamsInvalid`], as of reading the parameters.
/// - [`Error::Algorithm`]: no algorithm has the identifier.
/// - [`Error::Version`]: no version has the number.
impl TryFrom<&PasswordHash> for Settings {
    ghost use Rattle.argon2.specs.StoredTexts.{settings_value, shown_settings};

    type Error = Error;

    ghost try_from_gives = { λ hash r.
        outcome_of settings_value r ≡ shown_settings (phc_of hash.now) };

    fn try_from(hash: &PasswordHash) -> Result<Settings> {
        let params = Params::try_from(hash)?;
        Settings::with_params(hash, params)
    }
}

/// What a stored hash is verified by.
#[derive(Clone, Copy, Debug, PartialEq, Eq)]
pub struct Stored<'hash> {
    /// The settings, whose output length is the length of the hash.
    pub settings: Settings,
    /// The salt.
    pub salt: &'hash Salt,
    /// The hash.
    pub hash: &'hash Output,
    ghost sized: { (parameters_of settings.params).output_len ≡ Some (length hash.now) },
    ghost fits: { length hash.now ≤ 64 },
}

impl<'hash> Stored<'hash> {
    ghost use Rattle.argon2.specs.StoredTexts.{settings_value, shown_settings, stored_of, stored_value};

    // What a PHC text is verified by, given the settings that it shows.
    pub(crate) fn with_settings(
        hash: &'hash PasswordHash,
        settings: Result<Settings>,
    ) -> Result<Stored<'hash>>
        requires { outcome_of settings_value settings ≡ shown_settings (phc_of hash.now) }
        ensures { outcome_of stored_value result ≡ stored_of (phc_of hash.now) }
    {
        let (Some(salt), Some(expected)) = (&hash.salt, &hash.hash) else {
            return Err(Error::PasswordInvalid);
        };
        Ok(Stored {
            settings: settings?,
            salt,
            hash: expected,
        })
    }
}

/// Reads what a PHC text is verified by. Allocates nothing.
///
/// # Errors
/// [`Error::PasswordInvalid`] if there is no salt or no hash, else those of reading its
/// [`Settings`].
impl<'hash> TryFrom<&'hash PasswordHash> for Stored<'hash> {
    ghost use Rattle.argon2.specs.StoredTexts.{stored_of, stored_value};

    type Error = Error;

    ghost try_from_gives = { λ hash r. outcome_of stored_value r ≡ stored_of (phc_of hash.now) };

    fn try_from(hash: &'hash PasswordHash) -> Result<Stored<'hash>> {
        Stored::with_settings(hash, Settings::try_from(hash))
    }
}
