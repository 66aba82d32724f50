//! What a stored text shows, and whether it is below the limits.

ghost use Rattle.argon2_audit.specs.Finding.{IsEntryAnswer};

use crate::limits::Limits;
use argon2::PasswordHash;
use argon2::password_hash::{Result, Settings};
use argon2::phc::Salt;

/// What an audit takes from a stored text: its settings, its salt, and the length of its hash.
#[derive(Drop)]
pub struct Entry {
    pub settings: Settings,
    pub salt: Option<Salt>,
    /// The length of the hash, if the text has a hash.
    pub hash_len: Option<u32>,
}

impl Entry {
    ghost use Rattle.std.specs.Prelude.{◌≡◌, [], length, unwrap_or};
    ghost use Rattle.argon2_audit.specs.Finding.{has_other_key, is_below_limits};

    /// The length of the salt, 0 if the text has no salt.
    pub fn salt_len(&self) -> u32
        ensures { result ≡ length (unwrap_or self.now.salt []) }
    {
        self.salt.as_ref().map_or(0, |salt| salt.len() as u32)
    }

    /// Whether something of the text is below the limits. A missing salt or hash counts as 0 bytes.
    pub fn is_below(&self, limits: &Limits) -> bool
        ensures { result ≡ is_below_limits limits.now self.now }
    {
        let settings = &self.settings;
        settings.params.m_cost() < limits.m_cost
            || settings.params.t_cost() < limits.t_cost
            || settings.params.p_cost() < limits.p_cost
            || self.salt_len() < limits.salt_len
            || self.hash_len.unwrap_or(0) < limits.hash_len
            || u32::from(settings.version) < limits.version
            || limits
                .algorithm
                .is_some_and(|required| required != settings.algorithm)
            || self.has_other_key(limits)
    }

    /// Whether the text's key identifier differs from the required one. A missing key identifier counts as 0 bytes.
    pub fn has_other_key(&self, limits: &Limits) -> bool
        ensures { result ≡ has_other_key limits.now self.now }
    {
        match &limits.keyid {
            Some(required) => required.as_bytes() != self.settings.params.keyid(),
            None => false,
        }
    }
}

/// What a text shows.
///
/// # Errors
/// `EncodingInvalid` if the text is outside the grammar. Then the first fault of its parameters, its algorithm and its
/// version, with the error that verifying returns.
pub fn read_entry(text: &str) -> Result<Entry>
    ensures { IsEntryAnswer text.now result }
{
    let hash = PasswordHash::new(text)?;
    let settings = Settings::try_from(&hash)?;
    let hash_len = match &hash.hash {
        Some(output) => Some(output.len() as u32),
        None => None,
    };
    Ok(Entry {
        settings,
        salt: hash.salt,
        hash_len,
    })
}
