//! Reading and writing eight words of a block as a vector.

ghost use Rattle.std.specs.Prelude.{◌≡◌, ℕ, ◌+◌, ◌<◌, ◌≤◌, length, slice_index, bit_xor};

use std::simd::u64x8;

// The eight words from a place on.
#[inline(always)]
pub(super) fn load(words: &[u64], at: usize) -> u64x8
    requires { at + 8 ≤ length words.now }
    ensures { (k : ℕ) → k < 8 → slice_index result k ≡ slice_index words.now (at + k) }
{
    u64x8::from_slice(&words[at..])
}

// Writes the exclusive or of two vectors from a place on.
#[inline(always)]
#[tactic(auto, using(crate::proofs::block_lemmas::LaneLemmas::lane_steps))]
pub(super) fn store_xor(words: &mut [u64], at: usize, v: u64x8, r: u64x8)
    requires { at + 8 ≤ length words.old }
    ensures here { (k : ℕ) → k < 8 → slice_index words.new (at + k)
        ≡ bit_xor (slice_index v k) (slice_index r k) }
    ensures below { (k : ℕ) → k < at → slice_index words.new k ≡ slice_index words.old k }
    ensures above { (k : ℕ) → at + 8 ≤ k → slice_index words.new k ≡ slice_index words.old k }
{
    (v ^ r).copy_to_slice(&mut words[at..]);
}
