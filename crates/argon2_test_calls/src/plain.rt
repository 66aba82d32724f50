//! The mixing of two blocks word by word, over rows and then columns. No contract says what it answers, so that it
//! stands apart from the definition: the tests hold the vectors against it, and `bench/mix` times it beside them.

ghost use Rattle.std.specs.Prelude.{◌<◌};

// The four words of each step of a permutation of 16.
static STEPS: [[usize; 4]; 8] = [
    [0, 4, 8, 12],
    [1, 5, 9, 13],
    [2, 6, 10, 14],
    [3, 7, 11, 15],
    [0, 5, 10, 15],
    [1, 6, 11, 12],
    [2, 7, 8, 13],
    [3, 4, 9, 14],
];

fn add_mul(u: u64, v: u64) -> u64 {
    let product = (u & 0xffff_ffff).wrapping_mul(v & 0xffff_ffff);
    u.wrapping_add(v).wrapping_add(product.wrapping_mul(2))
}

// The place of a word of the 16 that a permutation takes: two together, and the next two a stride further.
fn place(first: usize, stride: usize, k: usize) -> usize
    ensures { result < 128 }
{
    first
        .wrapping_add(stride.wrapping_mul(k / 2))
        .wrapping_add(k % 2)
        % 128
}

// Half of a step on four words, with its two rotations.
fn half(v: [u64; 4], one: u32, other: u32) -> [u64; 4] {
    let [a, b, c, d] = v;
    let a = add_mul(a, b);
    let d = (d ^ a).rotate_right(one);
    let c = add_mul(c, d);
    let b = (b ^ c).rotate_right(other);
    [a, b, c, d]
}

fn permute(z: &mut [u64; 128], first: usize, stride: usize) {
    for step in &STEPS {
        let [a, b, c, d] = *step;
        let (a, b) = (place(first, stride, a), place(first, stride, b));
        let (c, d) = (place(first, stride, c), place(first, stride, d));
        let words = half([z[a], z[b], z[c], z[d]], 32, 24);
        [z[a], z[b], z[c], z[d]] = half(words, 16, 63);
    }
}

/// G of two blocks.
pub fn mix(x: &[u64; 128], y: &[u64; 128]) -> [u64; 128] {
    let mut r = *x;
    for i in 0..128usize {
        r[i] ^= y[i];
    }
    let mut z = r;
    for i in 0..8usize {
        permute(&mut z, i.wrapping_mul(16), 2);
    }
    for j in 0..8usize {
        permute(&mut z, j.wrapping_mul(2), 16);
    }
    for i in 0..128usize {
        z[i] ^= r[i];
    }
    z
}
