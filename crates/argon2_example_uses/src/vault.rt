//! A vault that is opened by a passphrase, under a secret that is kept apart from the vault.
//!
//! A passphrase and the salt of the vault's header give 64 bytes. The first half of them is the key,
//! which is stored nowhere; the other half is the tag in the header.

ghost use Rattle.std.specs.Prelude.{◌≡◌, IfOk, MatchOption, take, drop};
ghost use Rattle.argon2.specs.Argon2.{IsKeyed, context_of};
ghost use Rattle.argon2.specs.Rfc9106.{tag_of};
ghost use Rattle.argon2_example_uses.specs.Vault.{IsDerived, Opens, key_of, recommended};

use argon2::phc::{Output, Salt};
use argon2::{Algorithm, Argon2, Params, Result, Version};
use std::alloc::Global;

/// What a vault shows.
#[derive(Drop)]
pub struct Header {
    /// The salt.
    pub salt: Salt,
    /// The tag that a passphrase is recognized by.
    pub tag: Output,
}

/// What vaults are sealed under: a secret, and the second of the options that RFC 9106, section 4,
/// recommends, which takes 64 MiB.
///
/// # Errors
/// [`Error::SecretTooLong`](argon2::error::Error::SecretTooLong) if the secret has more than 4294967295 bytes.
pub fn lock(secret: &[u8]) -> Result<Argon2<'_>>
    ensures { IsKeyed recommended secret.now result }
{
    let params = Params::new(65536, 3, 4, None)?;
    Ok(Argon2::new_with_secret(secret, Algorithm::Argon2id, Version::V0x13, params)?)
}

/// The header and the key of a new vault.
pub fn seal(
    argon2: &Argon2<'_>,
    alloc: Global,
    passphrase: &[u8],
    salt: Salt,
) -> Result<(Header, [u8; 32])>
    ensures salt { IfOk result (λ sealed. sealed.0.salt ≡ salt) }
    ensures answer { IsDerived argon2.now passphrase.now salt result }
    ensures opens { IfOk result (λ sealed. Opens (context_of argon2.now) passphrase.now sealed.0) }
    ensures key { IfOk result (λ sealed.
        sealed.1 ≡ key_of (context_of argon2.now) passphrase.now salt) }
{
    let (key, tag) = derived(argon2, alloc, passphrase, &salt)?;
    Ok((Header { salt, tag }, key))
}

/// The key of a vault, if the header's tag is the passphrase's.
pub fn open(
    argon2: &Argon2<'_>,
    alloc: Global,
    passphrase: &[u8],
    header: &Header,
) -> Result<Option<[u8; 32]>>
    ensures answer { IsDerived argon2.now passphrase.now header.now.salt result }
    ensures opened { let context = context_of argon2.now in IfOk result (λ opened. MatchOption opened
        (Opens context passphrase.now header.now → ⊥)
        (λ key. Opens context passphrase.now header.now
        × (key ≡ key_of context passphrase.now header.now.salt))) }
{
    let (key, tag) = derived(argon2, alloc, passphrase, &header.salt)?;
    if tag != header.tag {
        return Ok(None);
    }
    Ok(Some(key))
}

// The key and the tag that a passphrase and a salt give.
fn derived(
    argon2: &Argon2<'_>,
    alloc: Global,
    passphrase: &[u8],
    salt: &Salt,
) -> Result<([u8; 32], Output)>
    ensures answer { IsDerived argon2.now passphrase.now salt.now result }
    ensures made { let both = tag_of (context_of argon2.now) passphrase.now salt.now 64 in
        IfOk result (λ made. (made.0 ≡ take 32 both) × (made.1 ≡ drop 32 both)) }
{
    let mut both = [0; 64];
    argon2.hash_password_into(alloc, passphrase, salt.as_bytes(), &mut both)?;
    let (key, tag) = both.split_at(32);
    let (Ok(key), Ok(tag)) = (key.try_into(), Output::new(tag)) else {
        unreachable!();
    };
    Ok((key, tag))
}
