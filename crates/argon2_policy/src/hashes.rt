//! The hashes that a call asks for.

ghost use Rattle.std.specs.Prelude.{◌≡◌, ◌<◌, ◌≤◌, ◌∷◌, ◌++◌, [], List, Ok, length};
ghost use Rattle.argon2_base.specs.PhcText.{Phc};
ghost use Rattle.argon2.specs.Argon2.{secret_of, settings_of};
ghost use Rattle.argon2.specs.StoredTexts.{IsVerifyAnswer, settings_value, stored_of, stored_value};
ghost use Rattle.argon2.specs.TextHashing.{tag_length};
ghost use Rattle.argon2_policy.specs.Hashes.{HashValue, hash_of, hashes_of};

use argon2::password_hash::{Error, Result, Settings, Stored};
use argon2::{Argon2, PasswordHasher};
use std::alloc::Global;
use std::marker::Model;

/// A hash that was asked for: the settings that it is made under, and how many bytes its password has.
#[derive(Clone, Copy)]
struct Hash {
    settings: Settings,
    password_len: usize,
}

/// The settings that an `Argon2` hashes under.
pub(crate) fn settings_of(argon2: &Argon2<'_>) -> Settings
    ensures { settings_value result ≡ settings_of argon2.now }
{
    Settings {
        algorithm: argon2.algorithm(),
        version: argon2.version(),
        params: *argon2.params(),
    }
}

/// The hashes that a call has asked for, at most two, in order. Only the methods that hash add to them.
#[derive(Drop)]
pub(crate) struct Hashes {
    first: Option<Hash>,
    second: Option<Hash>,
}

impl Model for Hashes {
    ghost Value = { List HashValue };

    ghost view = { λ hashes. hashes_of hashes.first hashes.second };
}

impl Hashes {
    /// No hash yet.
    pub(crate) fn new() -> Hashes
        ensures { result ≡ [] }
    {
        Hashes {
            first: None,
            second: None,
        }
    }

    /// Verifies a password by what a text shows, as [`Argon2::verify_stored`].
    pub(crate) fn verify(
        &mut self,
        argon2: &Argon2<'_>,
        alloc: Global,
        password: &[u8],
        stored: &Stored<'_>,
    ) -> Result<()>
        requires { length self.old < 2 }
        ensures answer { (v : Phc) → stored_of v ≡ Ok (stored_value stored.now)
            → IsVerifyAnswer (secret_of argon2.now) password.now v result }
        ensures noted { self.new ≡ self.old ++ hash_of (settings_value stored.now.settings) password.now ∷ [] }
    {
        self.note(stored.settings, password);
        argon2.verify_stored(alloc, password, stored)
    }

    /// Hashes a password under an `Argon2`, and drops the hash.
    pub(crate) fn make(&mut self, argon2: &Argon2<'_>, alloc: Global, password: &[u8])
        requires room { length self.old < 2 }
        requires fits { tag_length (settings_of argon2.now) ≤ 64 }
        ensures { self.new ≡ self.old ++ hash_of (settings_of argon2.now) password.now ∷ [] }
    {
        let settings = settings_of(argon2);
        match argon2.hash_password_with_salt(alloc, password, &[0; 16]) {
            // (these are refused without a hash)
            Err(Error::SaltInvalid | Error::OutputSize) => {}
            _ => self.note(settings, password),
        }
    }

    // Adds a hash.
    fn note(&mut self, settings: Settings, password: &[u8])
        requires { length self.old < 2 }
        ensures { self.new ≡ self.old ++ hash_of (settings_value settings) password.now ∷ [] }
    {
        let hash = Hash {
            settings,
            password_len: password.len(),
        };
        if self.first.is_none() {
            self.first = Some(hash);
            self.second = None;
        } else {
            self.second = Some(hash);
        }
    }
}
