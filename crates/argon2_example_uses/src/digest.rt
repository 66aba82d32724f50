//! A digest of a message that comes in two pieces.

ghost use Rattle.std.specs.Prelude.{◌≡◌, ◌++◌};
ghost use Rattle.argon2.specs.Blake2b.{blake2b};

use argon2::blake2b::Blake2b;

/// The BLAKE2b digest of a header with its body.
pub fn digest(header: &[u8], body: &[u8]) -> [u8; 32]
    ensures { result ≡ blake2b 32 (header.now ++ body.now) }
{
    let mut hasher = Blake2b::new(32);
    hasher.update(header);
    hasher.update(body);
    let mut digest = [0; 32];
    hasher.finalize_into(&mut digest);
    digest
}
