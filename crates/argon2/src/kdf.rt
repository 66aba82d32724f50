//! Key derivation.

ghost use Rattle.std.specs.Prelude.{◌≡◌, ℕ, List, None, OnErr, OnOk, length};
ghost use Rattle.argon2.specs.Argon2.{context_of, own_parameters};
ghost use Rattle.argon2.specs.Refusals.{length_refusal};
ghost use Rattle.argon2.specs.Rfc9106.{tag_of};

use crate::context::Argon2;
pub use argon2_base::error::kdf::{Error, Result};
use std::alloc::Global;

/// Derives keys from passwords and salts.
pub trait Kdf {
    // The lengths of a password, of a salt and of a key that are taken.
    ghost takes: { Self → ℕ → ℕ → ℕ → Type 0 };

    // The key that is made of a password and a salt, by its length.
    ghost key_of: { Self → List ℕ → List ℕ → ℕ → List ℕ };

    /// Writes the key of a password and a salt into `out`, as many bytes as it has. The memory for
    /// this is requested from `alloc` in one request, and freed before the call returns.
    ///
    /// # Errors
    /// [`Error`] if a length is not taken, or a request for memory was refused; `out` is then
    /// as before.
    fn derive_key(&self, alloc: Global, password: &[u8], salt: &[u8], out: &mut [u8]) -> Result<()>
        ensures taken { OnOk result (takes self.now (length password.now) (length salt.now)
            (length out.old)) }
        ensures key { OnOk result (out.new
            ≡ key_of self.now password.now salt.now (length out.old)) }
        ensures same { OnErr result (out.new ≡ out.old) };
}

/// Marks key derivation that is made for passwords: it is slow enough to make guessing expensive.
pub trait Pbkdf: Kdf {}

/// The key is the tag. Lengths and memory are as for
/// [`hash_password_into`](Argon2::hash_password_into).
impl Kdf for Argon2<'_> {
    ghost takes = { λ argon2 password salt key.
        length_refusal (own_parameters argon2).output_len key password salt ≡ None };

    ghost key_of = { λ argon2. tag_of (context_of argon2) };

    fn derive_key(
        &self,
        alloc: Global,
        password: &[u8],
        salt: &[u8],
        out: &mut [u8],
    ) -> Result<()> {
        Ok(self.hash_password_into(alloc, password, salt, out)?)
    }
}

impl Pbkdf for Argon2<'_> {}
