//! The variable-length hash function H' (RFC 9106, section 3.3).

ghost use Rattle.std.specs.Prelude.{◌≡◌, ℕ, ◌+◌, ◌^◌, ◌<◌, ◌≤◌, ◌++◌, List, length, min, take, OnOk, OnErr};
ghost use Rattle.std.specs.Int.{w32, to_le_bytes};
ghost use Rattle.argon2_base.specs.Blake2b.{blake2b};
ghost use Rattle.argon2_base.specs.Hasher.{Holds};
ghost use Rattle.argon2_base.specs.LongHash.{chain, pieces, long_hash, long_answer, joined};

use crate::blake2b::Blake2b;
use crate::error::{Error, Result};

/// Writes the hash of the inputs, joined in their order, into `out`: as many bytes as it has, from 1
/// to 4294967295. The inputs have at most 2^128 - 5 bytes in all.
///
/// # Errors
/// [`Error::OutputTooShort`] if `out` is empty, [`Error::OutputTooLong`] if it has more bytes than
/// that; `out` is unchanged then.
#[tactic(auto, unfolding(crate::specs::LongHash::chain, crate::specs::LongHash::long_hash))]
pub fn blake2b_long(inputs: &[&[u8]], out: &mut [u8]) -> Result<()>
    requires { length (joined inputs.now) + 4 < 2 ^ 128 }
    ensures answer { result ≡ long_answer (length out.old) }
    ensures written { OnOk result (out.new ≡ long_hash (length out.old) (joined inputs.now)) }
    ensures unchanged { OnErr result (out.new ≡ out.old) }
{
    if out.is_empty() {
        return Err(Error::OutputTooShort);
    }
    let Ok(len) = u32::try_from(out.len()) else {
        return Err(Error::OutputTooLong);
    };
    let hasher = hasher_of(len, inputs);
    if out.len() <= 64 {
        hasher.finalize_into(out);
    } else {
        let mut first = [0u8; 64];
        hasher.finalize_into(&mut first);
        write_pieces(&first, out);
    }
    Ok(())
}

// The hasher of an output's length and the inputs, whose digest has as many bytes as the output, but at
// most 64.
#[tactic(auto, using(crate::proofs::blake2b_lemmas::Pieces::input_fits))]
fn hasher_of(len: u32, inputs: &[&[u8]]) -> Blake2b
    requires some { 1 ≤ len }
    requires in_range { length (joined inputs.now) + 4 < 2 ^ 128 }
    ensures digest_len { result.digest_len ≡ min len 64 }
    ensures holds { Holds result (to_le_bytes w32 len ++ joined inputs.now) }
{
    let mut hasher = Blake2b::new(len.min(64) as usize);
    hasher.update(&len.to_le_bytes());
    'inputs: for input in inputs {
        hasher.update(input);
    }
    hasher
}

// Writes an output of more than 64 bytes, whose V(1) is `start`.
#[tactic(auto, using(crate::proofs::blake2b_lemmas::Pieces::piece_steps))]
fn write_pieces(start: &[u8; 64], out: &mut [u8])
    requires { 64 < length out.old }
    ensures { (first : List ℕ) → start.now ≡ chain first 1
        → out.new ≡ pieces (length out.old) first }
{
    let half_count = out.len().div_ceil(32) - 2;
    let mut current = *start;
    out[0..32].copy_from_slice(first_half(&current));
    'pieces: for i in 1..half_count {
        let before = current;
        write_digest(&before, &mut current);
        out[32 * i..32 * i + 32].copy_from_slice(first_half(&current));
    }
    write_digest(&current, &mut out[32 * half_count..]);
}

// Writes the digest of `message`, of as many bytes as `out` has.
fn write_digest(message: &[u8; 64], out: &mut [u8])
    requires low { 1 ≤ length out.old }
    requires high { length out.old ≤ 64 }
    ensures { out.new ≡ blake2b (length out.old) message.now }
{
    let mut hasher = Blake2b::new(out.len());
    hasher.update(message);
    hasher.finalize_into(out);
}

// The first half of V(i).
fn first_half(digest: &[u8; 64]) -> &[u8]
    ensures value { result.now ≡ take 32 digest.now }
    ensures len { length result.now ≡ 32 }
{
    &digest[..32]
}
