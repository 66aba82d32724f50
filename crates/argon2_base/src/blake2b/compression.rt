//! The compression function of BLAKE2b (RFC 7693, section 3.2).

ghost use Rattle.std.specs.Prelude.{◌≡◌, ℕ, List, ◌+◌, ◌<◌, length};
ghost use Rattle.argon2_base.specs.Blake2b.{mix, mix_at, round, rounds, words, working_vector, xor_halves, compress};

pub(crate) const IV: [u64; 8] = [
    0x6a09_e667_f3bc_c908,
    0xbb67_ae85_84ca_a73b,
    0x3c6e_f372_fe94_f82b,
    0xa54f_f53a_5f1d_36f1,
    0x510e_527f_ade6_82d1,
    0x9b05_688c_2b3e_6c1f,
    0x1f83_d9ab_fb41_bd6b,
    0x5be0_cd19_137e_2179,
];

// Takes the block into h; t counts the message's bytes up to the block's end: the function F.
pub(crate) fn compress(h: &mut [u64; 8], block: &[u8], t: u128, last: bool)
    requires { length block.now ≡ 128 }
    ensures { h.new ≡ compress h.old block.now t last }
{
    let m = words(block);
    let v = working_vector(h, t, last);
    let v = rounds_0_to_3(v, &m);
    let v = rounds_4_to_7(v, &m);
    let v = rounds_8_to_11(v, &m);
    *h = xor_halves(h, &v);
}

// The words of a block, low byte first.
#[inline(always)]
#[tactic(auto, using(std::proofs::lemmas::List::take_all), unfolding(crate::specs::Blake2b::words))]
fn words(block: &[u8]) -> [u64; 16]
    requires { length block.now ≡ 128 }
    ensures { result ≡ words block.now }
{
    let (pieces, _) = block.as_chunks::<8>();
    let mut words = [0; 16];
    'words: for k in 0..16 {
        words[k] = u64::from_le_bytes(pieces[k]);
    }
    words
}

// The working vector at the start.
#[inline(always)]
fn working_vector(h: &[u64; 8], t: u128, last: bool) -> [u64; 16]
    ensures { result ≡ working_vector h.now t last }
{
    let [iv0, iv1, iv2, iv3, iv4, iv5, iv6, iv7] = IV;
    let v12 = iv4 ^ (t % (1 << 64)) as u64;
    let v13 = iv5 ^ (t / (1 << 64)) as u64;
    let v14 = iv6 ^ if last { u64::MAX } else { 0 };
    let [h0, h1, h2, h3, h4, h5, h6, h7] = *h;
    [
        h0, h1, h2, h3, h4, h5, h6, h7, iv0, iv1, iv2, iv3, v12, v13, v14, iv7,
    ]
}

// In each round the words of the block stand in the order of its row of SIGMA. Places that are literals make the
// rounds faster than a table would, and their proof shorter.

// Rounds 0 to 3.
#[rattlefmt::skip]
#[inline(always)]
#[tactic(auto, unfolding(crate::specs::Blake2b::rounds))]
fn rounds_0_to_3(v: [u64; 16], m: &[u64; 16]) -> [u64; 16]
    ensures { (start : List ℕ) → v ≡ rounds start m.now 0 → result ≡ rounds start m.now 4 }
{
    let [m0, m1, m2, m3, m4, m5, m6, m7, m8, m9, m10, m11, m12, m13, m14, m15] = *m;
    let v = round(v, [m0, m1, m2, m3, m4, m5, m6, m7, m8, m9, m10, m11, m12, m13, m14, m15]);
    let v = round(v, [m14, m10, m4, m8, m9, m15, m13, m6, m1, m12, m0, m2, m11, m7, m5, m3]);
    let v = round(v, [m11, m8, m12, m0, m5, m2, m15, m13, m10, m14, m3, m6, m7, m1, m9, m4]);
    round(v, [m7, m9, m3, m1, m13, m12, m11, m14, m2, m6, m5, m10, m4, m0, m15, m8])
}

// Rounds 4 to 7.
#[rattlefmt::skip]
#[inline(always)]
fn rounds_4_to_7(v: [u64; 16], m: &[u64; 16]) -> [u64; 16]
    ensures { (start : List ℕ) → v ≡ rounds start m.now 4 → result ≡ rounds start m.now 8 }
{
    let [m0, m1, m2, m3, m4, m5, m6, m7, m8, m9, m10, m11, m12, m13, m14, m15] = *m;
    let v = round(v, [m9, m0, m5, m7, m2, m4, m10, m15, m14, m1, m11, m12, m6, m8, m3, m13]);
    let v = round(v, [m2, m12, m6, m10, m0, m11, m8, m3, m4, m13, m7, m5, m15, m14, m1, m9]);
    let v = round(v, [m12, m5, m1, m15, m14, m13, m4, m10, m0, m7, m6, m3, m9, m2, m8, m11]);
    round(v, [m13, m11, m7, m14, m12, m1, m3, m9, m5, m0, m15, m4, m8, m6, m2, m10])
}

// Rounds 8 to 11.
#[rattlefmt::skip]
#[inline(always)]
fn rounds_8_to_11(v: [u64; 16], m: &[u64; 16]) -> [u64; 16]
    ensures { (start : List ℕ) → v ≡ rounds start m.now 8 → result ≡ rounds start m.now 12 }
{
    let [m0, m1, m2, m3, m4, m5, m6, m7, m8, m9, m10, m11, m12, m13, m14, m15] = *m;
    let v = round(v, [m6, m15, m14, m9, m11, m3, m0, m8, m12, m2, m13, m7, m1, m4, m10, m5]);
    let v = round(v, [m10, m2, m8, m4, m7, m6, m1, m5, m15, m11, m9, m14, m3, m12, m13, m0]);
    let v = round(v, [m0, m1, m2, m3, m4, m5, m6, m7, m8, m9, m10, m11, m12, m13, m14, m15]);
    round(v, [m14, m10, m4, m8, m9, m15, m13, m6, m1, m12, m0, m2, m11, m7, m5, m3])
}

// One round on v, with the message words x in their order: the columns, and then the diagonals.
#[inline(always)]
#[tactic(auto, unfolding(crate::specs::Blake2b::round))]
fn round(mut v: [u64; 16], x: [u64; 16]) -> [u64; 16]
    ensures { result ≡ round v x }
{
    mix_at(&mut v, 0, 4, 8, 12, x[0], x[1]);
    mix_at(&mut v, 1, 5, 9, 13, x[2], x[3]);
    mix_at(&mut v, 2, 6, 10, 14, x[4], x[5]);
    mix_at(&mut v, 3, 7, 11, 15, x[6], x[7]);
    mix_at(&mut v, 0, 5, 10, 15, x[8], x[9]);
    mix_at(&mut v, 1, 6, 11, 12, x[10], x[11]);
    mix_at(&mut v, 2, 7, 8, 13, x[12], x[13]);
    mix_at(&mut v, 3, 4, 9, 14, x[14], x[15]);
    v
}

// The function G on the words at four places, with the message words x and y.
#[inline(always)]
fn mix_at(v: &mut [u64; 16], i: usize, j: usize, k: usize, l: usize, x: u64, y: u64)
    requires { (i < 16) × (j < 16) × (k < 16) × (l < 16) }
    ensures { v.new ≡ mix_at v.old i j k l x y }
{
    [v[i], v[j], v[k], v[l]] = mix(v[i], v[j], v[k], v[l], x, y);
}

// The function G on four words, with the message words x and y.
#[inline(always)]
#[tactic(auto, unfolding(crate::specs::Blake2b::mix))]
fn mix(a: u64, b: u64, c: u64, d: u64, x: u64, y: u64) -> [u64; 4]
    ensures { result ≡ mix a b c d x y }
{
    let a1 = a.wrapping_add(b).wrapping_add(x);
    let d1 = (d ^ a1).rotate_right(32);
    let c1 = c.wrapping_add(d1);
    let b1 = (b ^ c1).rotate_right(24);
    let a2 = a1.wrapping_add(b1).wrapping_add(y);
    let d2 = (d1 ^ a2).rotate_right(16);
    let c2 = c1.wrapping_add(d2);
    let b2 = (b1 ^ c2).rotate_right(63);
    [a2, b2, c2, d2]
}

// Each word of h with the two of v at its place in a half.
#[inline(always)]
#[tactic(auto, using(std::proofs::lemmas::Grind::same_number_lists))]
fn xor_halves(h: &[u64; 8], v: &[u64; 16]) -> [u64; 8]
    ensures { result ≡ xor_halves h.now v.now }
{
    let mut out = [0; 8];
    'words: for i in 0..8 {
        out[i] = h[i] ^ v[i] ^ v[i + 8];
    }
    out
}
