//! What needs no file: a password is hashed, and then verified.

use argon2::{Argon2, PasswordHasher, PasswordVerifier};
use rand_chacha::ChaCha20Rng;
use rand_core::SeedableRng;
use std::random::RandomSource;

/// Hashes a password under the default settings, and verifies it. It prints the length of the text to store, and then
/// that the password is accepted.
pub fn hash_and_verify(rt: &HostRuntime) -> anyhow::Result<()> {
    let mut seed = [0; 32];
    rt.fill_bytes(&mut seed)?;
    let mut rng = ChaCha20Rng::from_seed(seed);

    let argon2 = Argon2::default();
    let hash = argon2.hash_password(rt.alloc(), &mut rng, b"correct horse")?;
    let text = hash.text();
    println!(rt; "{} bytes to store", text.len())?;

    argon2.verify_password(rt.alloc(), b"correct horse", text.as_str())?;
    println!(rt; "accepted")?;
    Ok(())
}
