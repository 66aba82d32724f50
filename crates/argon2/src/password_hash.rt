//! Hashing passwords to PHC texts, and verifying passwords against them.

ghost use Rattle.std.specs.Prelude.{◌≡◌, ◌⊎◌, ℕ, List, length, Option, option_copied, MatchResult, IfOk, Result as Outcome};
ghost use Rattle.argon2_base.specs.declared.error.password_hash.Error.{Error};
ghost use Rattle.argon2_base.specs.declared.error.password_hash.Error.TheVariants.{OutOfMemory};
ghost use Rattle.argon2.specs.TextHashing.{after_salt, drawn_salt};

pub use argon2_base::error::password_hash::{Error, Result};
pub use argon2_base::phc;
use rand_core::Rng;
use std::alloc::Global;

mod hashing;
mod stored;
mod verifying;

pub use stored::{Settings, Stored};

/// Hashes passwords.
pub trait PasswordHasher<H> {
    // What hashing a password with a salt may return, error by error. Most callers need only `accepts`.
    ghost hash_gives: { Self → List ℕ → List ℕ → Outcome H Error → Type 0 };

    // The hash is accepted with the password.
    ghost accepts: { Self → List ℕ → H → Type 0 };

    // The hash shows what it was made under.
    ghost shows: { Self → H → Type 0 };

    /// The hash of a password and a salt of 8 to 48 bytes. The memory for this is requested from
    /// `alloc` in one request, and freed before the call returns.
    ///
    /// # Errors
    /// The first of these that holds:
    /// - [`Error::SaltInvalid`]: the salt has fewer than 8 or more than 48 bytes.
    /// - [`Error::OutputSize`]: the output length is above 64.
    /// - [`Error::OutOfMemory`]: the request was refused.
    /// - [`Error::PasswordInvalid`]: the password is longer than 4294967295 bytes.
    fn hash_password_with_salt(&self, alloc: Global, password: &[u8], salt: &[u8]) -> Result<H>
        ensures accepted { IfOk result (accepts self.now password.now) }
        ensures shown { IfOk result (shows self.now) }
        ensures answer { hash_gives self.now password.now salt.now result };

    /// The same with a salt of 16 bytes, drawn from `rng` by one `fill_bytes`. They are drawn even
    /// if the call is refused.
    ///
    /// # Errors
    /// As [`hash_password_with_salt`](PasswordHasher::hash_password_with_salt), but for the salt.
    fn hash_password<R: Rng>(&self, alloc: Global, rng: &mut R, password: &[u8]) -> Result<H>
        ensures accepted { IfOk result (accepts self.now password.now) }
        ensures shown { IfOk result (shows self.now) }
        ensures answer { hash_gives self.now password.now (drawn_salt (R.stream rng.old))
            result }
        ensures drawn { R.stream rng.new ≡ after_salt (R.stream rng.old) }
        ensures salt { length (drawn_salt (R.stream rng.old)) ≡ 16 };
}

/// Hashes passwords under an algorithm, a version and parameters of the caller's.
pub trait CustomizedPasswordHasher<H> {
    /// Parameters of a hash.
    type Params;

    // What hashing a password with a salt may return, under an algorithm of this name, a version of
    // this number and these parameters.
    ghost customized_gives: { Self → Option (List ℕ) → Option ℕ → Self.Params → List ℕ → List ℕ
        → Outcome H Error → Type 0 };

    // The hash is accepted with the password.
    ghost accepts: { Self → List ℕ → H → Type 0 };

    /// The hash of a password and a salt of 8 to 48 bytes, as
    /// [`hash_password_with_salt`](PasswordHasher::hash_password_with_salt) makes it, but under the
    /// algorithm, the version and the parameters that are given.
    ///
    /// # Errors
    /// The first of these that holds:
    /// - [`Error::Algorithm`]: no algorithm has the name `alg_id`.
    /// - [`Error::Version`]: no version has the number `version`.
    /// - the errors of [`hash_password_with_salt`](PasswordHasher::hash_password_with_salt).
    fn hash_password_customized(
        &self,
        alloc: Global,
        password: &[u8],
        salt: &[u8],
        alg_id: Option<&str>,
        version: Option<u32>,
        params: Self::Params,
    ) -> Result<H>
        ensures accepted { IfOk result (accepts self.now password.now) }
        ensures answer { customized_gives self.now (option_copied alg_id.entry) version params
            password.now salt.now result };
}

/// Verifies passwords.
pub trait PasswordVerifier<H> {
    // What verifying a password against a hash may return, error by error. Most callers need only `accepts`.
    ghost verify_gives: { Self → List ℕ → H → Outcome (Unit {0}) Error → Type 0 };

    // The hash accepts the password.
    ghost accepts: { Self → List ℕ → H → Type 0 };

    /// Ok if the hash accepts the password. The memory for this is requested from `alloc` in one
    /// request, and freed before the call returns.
    ///
    /// # Errors
    /// The first of these that holds:
    /// - [`Error::EncodingInvalid`]: a text is outside the grammar.
    /// - [`Error::PasswordInvalid`]: there is no salt, or no hash.
    /// - [`Error::ParamInvalid`] and [`Error::ParamsInvalid`], as of reading the parameters.
    /// - [`Error::Algorithm`]: no algorithm has the identifier.
    /// - [`Error::Version`]: no version has the number.
    /// - [`Error::OutOfMemory`]: the request was refused.
    /// - [`Error::PasswordInvalid`]: the password is longer than 4294967295 bytes, or has another
    ///   hash.
    fn verify_password(&self, alloc: Global, password: &[u8], hash: H) -> Result<()>
        ensures accepted { MatchResult result (λ _. accepts self.now password.now hash)
            (λ e. (e ≡ OutOfMemory) ⊎ (accepts self.now password.now hash → ⊥)) }
        ensures answer { verify_gives self.now password.now hash result };
}
