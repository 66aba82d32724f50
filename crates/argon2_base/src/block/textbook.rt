//! The mixing of two blocks in the textbook's form: the steps of RFC 9106, sections 3.5 and 3.6, in their
//! order. It works on sixteen vectors of eight words: lane i of vector k is word k of row i, and then word k
//! of column i, so P goes on eight rows at once, and then on eight columns.
#![tactic(auto, using(crate::proofs::block_lemmas::LaneLemmas::lane_steps))]

ghost use Rattle.std.specs.Prelude.{◌≡◌, ℕ, ◌+◌, ◌*◌, ◌/◌, ◌%◌, ◌<◌, ◌≤◌, length, slice_index, bit_xor, ◌==◌, if◌then◌else◌};
ghost use Rattle.argon2_base.specs.Block.{add_mul, gb, mixed, perm, row, xor_blocks, xor_rotate};
ghost use Rattle.argon2_base.specs.Lanes.{exchanged_left, exchanged_right, lane, lane_word, words_in_eights};

use super::lanes::{load, store_xor};
use std::simd::u64x8;

// u + v + 2 * low32(u) * low32(v) in each lane.
#[inline(always)]
#[tactic(auto, using(crate::proofs::block_lemmas::LaneLemmas::lane_steps), unfolding(crate::specs::Block::add_mul))]
fn add_mul(a: u64x8, b: u64x8) -> u64x8
    ensures { (j : ℕ) → j < 8 → slice_index result j
        ≡ add_mul (slice_index a j) (slice_index b j) }
{
    let low = u64x8::splat(0xffff_ffff);
    let product = (a & low) * (b & low);
    a + b + (product + product)
}

// (a xor b) >>> k in each lane.
#[inline(always)]
#[tactic(auto, using(crate::proofs::block_lemmas::LaneLemmas::lane_steps), unfolding(crate::specs::Block::xor_rotate))]
fn xor_rotate(a: u64x8, b: u64x8, k: u64) -> u64x8
    requires { (0 < k) × (k < 64) }
    ensures { (j : ℕ) → j < 8 → slice_index result j
        ≡ xor_rotate (slice_index a j) (slice_index b j) k }
{
    let x = a ^ b;
    (x >> u64x8::splat(k)) | (x << u64x8::splat(64 - k))
}

// GB in each lane of four vectors.
#[inline(always)]
#[tactic(auto, unfolding(crate::specs::Block::gb))]
fn gb(a: u64x8, b: u64x8, c: u64x8, d: u64x8) -> [u64x8; 4]
    ensures { (j : ℕ) → j < 8
        → (
          lane_word result 0 j,
          lane_word result 1 j,
          lane_word result 2 j,
          lane_word result 3 j,
        )
        ≡ gb (slice_index a j) (slice_index b j) (slice_index c j) (slice_index d j) }
{
    let a = add_mul(a, b);
    let d = xor_rotate(d, a, 32);
    let c = add_mul(c, d);
    let b = xor_rotate(b, c, 24);
    let a = add_mul(a, b);
    let d = xor_rotate(d, a, 16);
    let c = add_mul(c, d);
    let b = xor_rotate(b, c, 63);
    [a, b, c, d]
}

// P in each lane.
#[inline(always)]
#[tactic(auto, unfolding(crate::specs::Block::perm, crate::specs::Block::mix_columns, crate::specs::Block::mix_diagonals))]
fn perm(v: [u64x8; 16]) -> [u64x8; 16]
    ensures { (n : ℕ) → n < 8 → lane n result ≡ perm (lane n v) }
{
    let [
        v0,
        v1,
        v2,
        v3,
        v4,
        v5,
        v6,
        v7,
        v8,
        v9,
        v10,
        v11,
        v12,
        v13,
        v14,
        v15,
    ] = v;
    let [v0, v4, v8, v12] = gb(v0, v4, v8, v12);
    let [v1, v5, v9, v13] = gb(v1, v5, v9, v13);
    let [v2, v6, v10, v14] = gb(v2, v6, v10, v14);
    let [v3, v7, v11, v15] = gb(v3, v7, v11, v15);
    let [v0, v5, v10, v15] = gb(v0, v5, v10, v15);
    let [v1, v6, v11, v12] = gb(v1, v6, v11, v12);
    let [v2, v7, v8, v13] = gb(v2, v7, v8, v13);
    let [v3, v4, v9, v14] = gb(v3, v4, v9, v14);
    [
        v0, v1, v2, v3, v4, v5, v6, v7, v8, v9, v10, v11, v12, v13, v14, v15,
    ]
}

// The lanes of two vectors in turn.
#[inline(always)]
fn interleave(a: u64x8, b: u64x8) -> (u64x8, u64x8)
    ensures left { (j : ℕ) → j < 8 → slice_index result.0 j
        ≡ slice_index (if j % 2 == 0 then a else b) (j / 2) }
    ensures right { (j : ℕ) → j < 8 → slice_index result.1 j
        ≡ slice_index (if j % 2 == 0 then a else b) (4 + j / 2) }
{
    a.interleave(b)
}

// The odd lanes of a and the even lanes of b change places.
#[inline(always)]
fn exchange_ones(a: u64x8, b: u64x8) -> (u64x8, u64x8)
    ensures left { result.0 ≡ exchanged_left 8 1 a b }
    ensures right { result.1 ≡ exchanged_right 8 1 a b }
{
    let left = a.shuffle(b, [0, 8, 2, 10, 4, 12, 6, 14]);
    let right = a.shuffle(b, [1, 9, 3, 11, 5, 13, 7, 15]);
    (left, right)
}

// The second pair of each half of a and the first pair of each half of b change places.
#[inline(always)]
fn exchange_twos(a: u64x8, b: u64x8) -> (u64x8, u64x8)
    ensures left { result.0 ≡ exchanged_left 8 2 a b }
    ensures right { result.1 ≡ exchanged_right 8 2 a b }
{
    let left = a.shuffle(b, [0, 1, 8, 9, 4, 5, 12, 13]);
    let right = a.shuffle(b, [2, 3, 10, 11, 6, 7, 14, 15]);
    (left, right)
}

// The second half of a and the first half of b change places.
#[inline(always)]
fn exchange_fours(a: u64x8, b: u64x8) -> (u64x8, u64x8)
    ensures left { result.0 ≡ exchanged_left 8 4 a b }
    ensures right { result.1 ≡ exchanged_right 8 4 a b }
{
    let left = a.shuffle(b, [0, 1, 2, 3, 8, 9, 10, 11]);
    let right = a.shuffle(b, [4, 5, 6, 7, 12, 13, 14, 15]);
    (left, right)
}

// Lane i of vector k goes to lane k of vector i.
#[inline(always)]
fn transpose(x: [u64x8; 8]) -> [u64x8; 8]
    ensures { (i k : ℕ) → i < 8 → k < 8 → lane_word result i k ≡ lane_word x k i }
{
    let [x0, x1, x2, x3, x4, x5, x6, x7] = x;
    let (a0, a1) = exchange_ones(x0, x1);
    let (a2, a3) = exchange_ones(x2, x3);
    let (a4, a5) = exchange_ones(x4, x5);
    let (a6, a7) = exchange_ones(x6, x7);
    let (b0, b2) = exchange_twos(a0, a2);
    let (b1, b3) = exchange_twos(a1, a3);
    let (b4, b6) = exchange_twos(a4, a6);
    let (b5, b7) = exchange_twos(a5, a7);
    let (c0, c4) = exchange_fours(b0, b4);
    let (c1, c5) = exchange_fours(b1, b5);
    let (c2, c6) = exchange_fours(b2, b6);
    let (c3, c7) = exchange_fours(b3, b7);
    [c0, c1, c2, c3, c4, c5, c6, c7]
}

// Eight words of the exclusive or of two blocks, from a place on.
#[inline(always)]
#[tactic(auto, using(crate::proofs::block_lemmas::LaneLemmas::lane_steps), unfolding(crate::specs::Block::xor_blocks))]
fn load_xor(x: &[u64; 128], y: &[u64; 128], at: usize) -> u64x8
    requires { at + 8 ≤ 128 }
    ensures { (k : ℕ) → k < 8 → slice_index result k
        ≡ slice_index (xor_blocks x.now y.now) (at + k) }
{
    load(x, at) ^ load(y, at)
}

// The exclusive or of two blocks, eight words a vector.
#[inline(always)]
fn exclusive_or(x: &[u64; 128], y: &[u64; 128]) -> [u64x8; 16]
    ensures { words_in_eights result ≡ xor_blocks x.now y.now }
{
    [
        load_xor(x, y, 0),
        load_xor(x, y, 8),
        load_xor(x, y, 16),
        load_xor(x, y, 24),
        load_xor(x, y, 32),
        load_xor(x, y, 40),
        load_xor(x, y, 48),
        load_xor(x, y, 56),
        load_xor(x, y, 64),
        load_xor(x, y, 72),
        load_xor(x, y, 80),
        load_xor(x, y, 88),
        load_xor(x, y, 96),
        load_xor(x, y, 104),
        load_xor(x, y, 112),
        load_xor(x, y, 120),
    ]
}

// From words in eights to words of rows: lane i of vector k is word k of row i.
#[inline(always)]
fn rows(r: &[u64x8; 16]) -> [u64x8; 16]
    ensures { (i : ℕ) → i < 8 → lane i result ≡ row i (words_in_eights r.now) }
{
    let [a0, a1, a2, a3, a4, a5, a6, a7] = transpose([
        r[0], r[2], r[4], r[6], r[8], r[10], r[12], r[14],
    ]);
    let [b0, b1, b2, b3, b4, b5, b6, b7] = transpose([
        r[1], r[3], r[5], r[7], r[9], r[11], r[13], r[15],
    ]);
    [
        a0, a1, a2, a3, a4, a5, a6, a7, b0, b1, b2, b3, b4, b5, b6, b7,
    ]
}

// From words of rows to words of columns: word 2 * i + e of column j is word 2 * j + e of row i.
#[inline(always)]
fn columns(x: [u64x8; 16]) -> [u64x8; 16]
    ensures { (i j e : ℕ) → i < 8 → j < 8 → e < 2 → lane_word result (2 * i + e) j
        ≡ lane_word x (2 * j + e) i }
{
    let [a0, a1, a2, a3, a4, a5, a6, a7] = transpose([
        x[0], x[2], x[4], x[6], x[8], x[10], x[12], x[14],
    ]);
    let [b0, b1, b2, b3, b4, b5, b6, b7] = transpose([
        x[1], x[3], x[5], x[7], x[9], x[11], x[13], x[15],
    ]);
    [
        a0, b0, a1, b1, a2, b2, a3, b3, a4, b4, a5, b5, a6, b6, a7, b7,
    ]
}

// Writes row i: the mixed words, xored with the vectors `left` and `right`, which hold the inputs.
#[inline(always)]
fn store_row(out: &mut [u64], i: usize, even: u64x8, odd: u64x8, left: u64x8, right: u64x8)
    requires { (i < 8) × (length out.old ≡ 128) }
    ensures left { (k : ℕ) → k < 8 → slice_index out.new (16 * i + k)
        ≡ bit_xor (slice_index (if k % 2 == 0 then even else odd) (k / 2)) (slice_index left k) }
    ensures right { (k : ℕ) → k < 8 → slice_index out.new (16 * i + 8 + k)
        ≡ bit_xor (slice_index (if k % 2 == 0 then even else odd) (4 + k / 2))
        (slice_index right k) }
    ensures below { (k : ℕ) → k < 16 * i → slice_index out.new k ≡ slice_index out.old k }
{
    let (low, high) = interleave(even, odd);
    store_xor(out, 16 * i, low, left);
    store_xor(out, 16 * i + 8, high, right);
}

// The words of the columns in their places, each xored with the word of r there.
#[inline(always)]
fn words(columns: &[u64x8; 16], r: &[u64x8; 16]) -> [u64; 128]
    ensures { (w : ℕ) → w < 128 → slice_index result w
        ≡ bit_xor (lane_word columns.now (2 * (w / 16) + w % 2) (w % 16 / 2))
        (slice_index (words_in_eights r.now) w) }
{
    let mut out = [0; 128];
    'rows: for i in 0..8 {
        let (even, odd) = (columns[2 * i], columns[2 * i + 1]);
        store_row(&mut out, i, even, odd, r[2 * i], r[2 * i + 1]);
    }
    out
}

/// G of two blocks.
pub fn mix(x: &[u64; 128], y: &[u64; 128]) -> [u64; 128]
    ensures { result ≡ mixed x.now y.now }
{
    let r = exclusive_or(x, y);
    let across = perm(rows(&r));
    let down = perm(columns(across));
    words(&down, &r)
}
