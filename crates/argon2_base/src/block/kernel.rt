//! The fast mixing of two blocks, which fills memory. It works on eight vectors of sixteen words, each a
//! row. P goes on four rows or four columns at once, over four vectors, so the four computations of GB do
//! not wait for each other.

ghost use Rattle.std.specs.Prelude.{◌≡◌, ℕ, ◌+◌, ◌-◌, ◌*◌, ◌/◌, ◌%◌, ◌<◌, ◌≤◌, List, length, slice_index, bit_xor, if◌then◌else◌};
ghost use Rattle.argon2_base.specs.Block.{add_mul, gb, mixed, perm, xor_blocks, xor_rotate};
ghost use Rattle.argon2_base.specs.Lanes.{column_lanes, exchanged_left, exchanged_right, row_in_fours, half_word, lane_word, column_in_pairs, vector_words, written};

use super::lanes;
use std::simd::{u64x8, u64x16};

// u + v + 2 * low32(u) * low32(v) in each lane.
#[inline(always)]
#[tactic(auto, using(crate::proofs::block_lemmas::LaneLemmas::lane_steps), unfolding(crate::specs::Block::add_mul))]
fn add_mul(a: u64x16, b: u64x16) -> u64x16
    ensures { (j : ℕ) → j < 16 → slice_index result j
        ≡ add_mul (slice_index a j) (slice_index b j) }
{
    let low = u64x16::splat(0xffff_ffff);
    let product = (a & low) * (b & low);
    a + b + (product + product)
}

// (a xor b) >>> k in each lane.
#[inline(always)]
#[tactic(auto, using(crate::proofs::block_lemmas::LaneLemmas::lane_steps), unfolding(crate::specs::Block::xor_rotate))]
fn xor_rotate(a: u64x16, b: u64x16, k: u64) -> u64x16
    requires { (0 < k) × (k < 64) }
    ensures { (j : ℕ) → j < 16 → slice_index result j
        ≡ xor_rotate (slice_index a j) (slice_index b j) k }
{
    let x = a ^ b;
    (x >> u64x16::splat(k)) | (x << u64x16::splat(64 - k))
}

// GB in each lane of four vectors.
#[inline(always)]
#[tactic(auto, unfolding(crate::specs::Block::gb))]
fn gb(v: [u64x16; 4]) -> [u64x16; 4]
    ensures { (j : ℕ) → j < 16
        → (
          lane_word result 0 j,
          lane_word result 1 j,
          lane_word result 2 j,
          lane_word result 3 j,
        )
        ≡ gb (lane_word v 0 j) (lane_word v 1 j) (lane_word v 2 j) (lane_word v 3 j) }
{
    let [a, b, c, d] = v;
    let a1 = add_mul(a, b);
    let d1 = xor_rotate(d, a1, 32);
    let c1 = add_mul(c, d1);
    let b1 = xor_rotate(b, c1, 24);
    let a2 = add_mul(a1, b1);
    let d2 = xor_rotate(d1, a2, 16);
    let c2 = add_mul(c1, d2);
    let b2 = xor_rotate(b1, c2, 63);
    [a2, b2, c2, d2]
}

// Each group of four lanes turned by one.
#[inline(always)]
fn fours_by_one(x: u64x16) -> u64x16
    ensures { (i : ℕ) → i < 4 → (k : ℕ) → k < 4
        → slice_index result (4 * i + k) ≡ slice_index x (4 * i + (k + 1) % 4) }
{
    x.swizzle([1, 2, 3, 0, 5, 6, 7, 4, 9, 10, 11, 8, 13, 14, 15, 12])
}

// Each group of four lanes turned by two.
#[inline(always)]
fn fours_by_two(x: u64x16) -> u64x16
    ensures { (i : ℕ) → i < 4 → (k : ℕ) → k < 4
        → slice_index result (4 * i + k) ≡ slice_index x (4 * i + (k + 2) % 4) }
{
    x.swizzle([2, 3, 0, 1, 6, 7, 4, 5, 10, 11, 8, 9, 14, 15, 12, 13])
}

// Each group of four lanes turned by three.
#[inline(always)]
fn fours_by_three(x: u64x16) -> u64x16
    ensures { (i : ℕ) → i < 4 → (k : ℕ) → k < 4
        → slice_index result (4 * i + k) ≡ slice_index x (4 * i + (k + 3) % 4) }
{
    x.swizzle([3, 0, 1, 2, 7, 4, 5, 6, 11, 8, 9, 10, 15, 12, 13, 14])
}

// P on each of four rows: word 4 * q + k of row i is lane 4 * i + k of vector q.
#[inline(always)]
fn perm_fours(v: [u64x16; 4]) -> [u64x16; 4]
    ensures { (i : ℕ) → i < 4 → row_in_fours i result ≡ perm (row_in_fours i v) }
{
    let [a, b, c, d] = gb(v);
    let [a, b, c, d] = gb([fours_by_three(a), b, fours_by_one(c), fours_by_two(d)]);
    [fours_by_one(a), b, fours_by_three(c), fours_by_two(d)]
}

// Each group of two pairs, one in each half, turned by one lane.
#[inline(always)]
fn pairs_by_one(x: u64x16) -> u64x16
    ensures { (j : ℕ) → j < 4 → (k : ℕ) → k < 4
        → slice_index result (8 * (k / 2) + 2 * j + k % 2)
        ≡ slice_index x (8 * ((k + 1) % 4 / 2) + 2 * j + (k + 1) % 4 % 2) }
{
    x.swizzle([1, 8, 3, 10, 5, 12, 7, 14, 9, 0, 11, 2, 13, 4, 15, 6])
}

// Each group of two pairs turned by two lanes: the halves change places.
#[inline(always)]
fn pairs_by_two(x: u64x16) -> u64x16
    ensures { (j : ℕ) → j < 4 → (k : ℕ) → k < 4
        → slice_index result (8 * (k / 2) + 2 * j + k % 2)
        ≡ slice_index x (8 * ((k + 2) % 4 / 2) + 2 * j + (k + 2) % 4 % 2) }
{
    x.swizzle([8, 9, 10, 11, 12, 13, 14, 15, 0, 1, 2, 3, 4, 5, 6, 7])
}

// Each group of two pairs turned by three lanes.
#[inline(always)]
fn pairs_by_three(x: u64x16) -> u64x16
    ensures { (j : ℕ) → j < 4 → (k : ℕ) → k < 4
        → slice_index result (8 * (k / 2) + 2 * j + k % 2)
        ≡ slice_index x (8 * ((k + 3) % 4 / 2) + 2 * j + (k + 3) % 4 % 2) }
{
    x.swizzle([9, 0, 11, 2, 13, 4, 15, 6, 1, 8, 3, 10, 5, 12, 7, 14])
}

// P on each of four columns: word 4 * q + k of column j is lane 8 * (k / 2) + 2 * j + k % 2 of vector q.
#[inline(always)]
fn perm_pairs(v: [u64x16; 4]) -> [u64x16; 4]
    ensures { (j : ℕ) → j < 4 → column_in_pairs j result ≡ perm (column_in_pairs j v) }
{
    let [a, b, c, d] = gb(v);
    let [a, b, c, d] = gb([pairs_by_three(a), b, pairs_by_one(c), pairs_by_two(d)]);
    [pairs_by_one(a), b, pairs_by_three(c), pairs_by_two(d)]
}

// The second four lanes of each half of a and the first four of each half of b change places.
#[inline(always)]
fn exchange_fours(a: u64x16, b: u64x16) -> (u64x16, u64x16)
    ensures left { result.0 ≡ exchanged_left 16 4 a b }
    ensures right { result.1 ≡ exchanged_right 16 4 a b }
{
    let left = a.shuffle(
        b,
        [0, 1, 2, 3, 16, 17, 18, 19, 8, 9, 10, 11, 24, 25, 26, 27],
    );
    let right = a.shuffle(
        b,
        [4, 5, 6, 7, 20, 21, 22, 23, 12, 13, 14, 15, 28, 29, 30, 31],
    );
    (left, right)
}

// The second half of a and the first half of b change places.
#[inline(always)]
fn exchange_halves(a: u64x16, b: u64x16) -> (u64x16, u64x16)
    ensures left { result.0 ≡ exchanged_left 16 8 a b }
    ensures right { result.1 ≡ exchanged_right 16 8 a b }
{
    let left = a.shuffle(b, [0, 1, 2, 3, 4, 5, 6, 7, 16, 17, 18, 19, 20, 21, 22, 23]);
    let right = a.shuffle(
        b,
        [8, 9, 10, 11, 12, 13, 14, 15, 24, 25, 26, 27, 28, 29, 30, 31],
    );
    (left, right)
}

// Group i of vector q goes to group q of vector i.
#[inline(always)]
fn transpose(x: [u64x16; 4]) -> [u64x16; 4]
    ensures to_fours { (i : ℕ) → i < 4 → row_in_fours i result ≡ vector_words i x }
    ensures to_vectors { (i : ℕ) → i < 4 → vector_words i result ≡ row_in_fours i x }
{
    let [x0, x1, x2, x3] = x;
    let (a0, a1) = exchange_fours(x0, x1);
    let (a2, a3) = exchange_fours(x2, x3);
    let (b0, b2) = exchange_halves(a0, a2);
    let (b1, b3) = exchange_halves(a1, a3);
    [b0, b1, b2, b3]
}

// P on four rows.
#[inline(always)]
fn four_rows(x: [u64x16; 4]) -> [u64x16; 4]
    ensures { (i : ℕ) → i < 4 → vector_words i result ≡ perm (vector_words i x) }
{
    transpose(perm_fours(transpose(x)))
}

// P on each row.
#[inline(always)]
fn rows(r: [u64x16; 8]) -> [u64x16; 8]
    ensures { (i : ℕ) → i < 8 → vector_words i result ≡ perm (vector_words i r) }
{
    let [r0, r1, r2, r3, r4, r5, r6, r7] = r;
    let [r0, r1, r2, r3] = four_rows([r0, r1, r2, r3]);
    let [r4, r5, r6, r7] = four_rows([r4, r5, r6, r7]);
    [r0, r1, r2, r3, r4, r5, r6, r7]
}

// P on the columns of the left halves of the rows.
#[inline(always)]
fn left_columns(r: &[u64x16; 8]) -> [u64x16; 4]
    ensures { (j : ℕ) → j < 4 → column_in_pairs j result ≡ perm (column_lanes (0 + j) r.now) }
{
    let (a, _) = exchange_halves(r[0], r[1]);
    let (b, _) = exchange_halves(r[2], r[3]);
    let (c, _) = exchange_halves(r[4], r[5]);
    let (d, _) = exchange_halves(r[6], r[7]);
    perm_pairs([a, b, c, d])
}

// P on the columns of the right halves of the rows.
#[inline(always)]
fn right_columns(r: &[u64x16; 8]) -> [u64x16; 4]
    ensures { (j : ℕ) → j < 4 → column_in_pairs j result ≡ perm (column_lanes (4 + j) r.now) }
{
    let (_, a) = exchange_halves(r[0], r[1]);
    let (_, b) = exchange_halves(r[2], r[3]);
    let (_, c) = exchange_halves(r[4], r[5]);
    let (_, d) = exchange_halves(r[6], r[7]);
    perm_pairs([a, b, c, d])
}

// The row of sixteen words from a place on.
#[inline(always)]
fn load_row(words: &[u64], at: usize) -> u64x16
    requires { at + 16 ≤ length words.now }
    ensures { (k : ℕ) → k < 16 → slice_index result k ≡ slice_index words.now (at + k) }
{
    u64x16::from_slice(&words[at..])
}

// The rows of a block.
#[inline(always)]
fn rows_of(r: &[u64; 128]) -> [u64x16; 8]
    ensures { (i : ℕ) → i < 8 → (k : ℕ) → k < 16
        → lane_word result i k ≡ slice_index r.now (16 * i + k) }
{
    [
        load_row(r, 0),
        load_row(r, 16),
        load_row(r, 32),
        load_row(r, 48),
        load_row(r, 64),
        load_row(r, 80),
        load_row(r, 96),
        load_row(r, 112),
    ]
}

// The first eight lanes of a vector.
#[inline(always)]
fn left_half(x: u64x16) -> u64x8
    ensures { (k : ℕ) → k < 8 → slice_index result k ≡ slice_index x (0 + k) }
{
    x.extract::<0, 8>()
}

// The last eight lanes of a vector.
#[inline(always)]
fn right_half(x: u64x16) -> u64x8
    ensures { (k : ℕ) → k < 8 → slice_index result k ≡ slice_index x (8 + k) }
{
    x.extract::<8, 8>()
}

// Writes eight words from a place on, each xored with the word of r there, and if `xors` with the word
// that it replaces.
#[inline(always)]
#[tactic(auto, using(crate::proofs::block_lemmas::LaneLemmas::lane_steps))]
fn put(out: &mut [u64], at: usize, v: u64x8, r: &[u64; 128], xors: bool)
    requires { (at + 8 ≤ 128) × (length out.old ≡ 128) }
    ensures size { length out.new ≡ 128 }
    ensures here { (k : ℕ) → k < 8 → slice_index out.new (at + k)
        ≡ written xors (slice_index out.old (at + k))
        (bit_xor (slice_index v k) (slice_index r.now (at + k))) }
    ensures below { (k : ℕ) → k < at → slice_index out.new k ≡ slice_index out.old k }
    ensures above { (k : ℕ) → at + 8 ≤ k → slice_index out.new k ≡ slice_index out.old k }
{
    let r = lanes::load(r, at);
    if xors {
        let old = lanes::load(out, at);
        lanes::store_xor(out, at, old, v ^ r);
    } else {
        lanes::store_xor(out, at, v, r);
    }
}

// Writes the words of the columns of half h of the rows, each xored with the word of r in its place, and
// if `xors` with the word that it replaces.
#[inline(always)]
fn put_columns(out: &mut [u64], h: usize, v: [u64x16; 4], r: &[u64; 128], xors: bool)
    requires { (h < 2) × (length out.old ≡ 128) }
    ensures size { length out.new ≡ 128 }
    ensures here { (w : ℕ) → w < 128 → w % 16 / 8 ≡ h → slice_index out.new w
        ≡ written xors (slice_index out.old w) (bit_xor (half_word v w) (slice_index r.now w)) }
    ensures others { (w : ℕ) → w % 16 / 8 ≡ 1 - h → slice_index out.new w ≡ slice_index out.old w }
{
    'vectors: for i in 0..4 {
        put(out, 32 * i + 8 * h, left_half(v[i]), r, xors);
        put(out, 32 * i + 8 * h + 16, right_half(v[i]), r, xors);
    }
}

/// G of the two blocks whose exclusive or is `r`. It replaces the words of `out`, or is xored with them if
/// `xors`.
pub fn mix(out: &mut [u64; 128], r: &[u64; 128], xors: bool)
    ensures { (x y : List ℕ) → r.now ≡ xor_blocks x y
        → out.new ≡ (if xors then xor_blocks out.old (mixed x y) else mixed x y) }
{
    let across = rows(rows_of(r));
    put_columns(out, 0, left_columns(&across), r, xors);
    put_columns(out, 1, right_columns(&across), r, xors);
}
