//! The block of 1024 bytes that the memory of Argon2 is made of, and the mixing of two blocks.

ghost use Rattle.std.specs.Prelude.{◌≡◌, ℕ, ◌+◌, ◌-◌, ◌<◌, ◌^◌, List, length, ⊤, if◌then◌else◌};
ghost use Rattle.std.specs.Borrow.{sem};
ghost use Rattle.argon2_base.specs.Block.{bytes_of, mixed, words_of, xor_blocks, zero_block};

use std::alloc::AllocError;
use std::convert::AsSlice;
use std::marker::Model;
use std::ops::{BitXor, BitXorAssign};

mod kernel;
mod lanes;
mod textbook;

/// The words of a block, as a C caller has them.
pub type Words = [u64; 128];

/// A block: 128 words of 64 bits (RFC 9106, section 3.2).
///
/// `Block` is `Block<u64>`. The parameter is there so that callers of
/// [`as_mut_slice`](Block::as_mut_slice) know what the block is after they wrote to it.
#[derive(Debug)]
pub struct Block<T = u64> {
    words: [T; 128],
}

impl<T> Model for Block<T> {
    ghost Value = { List T };

    ghost view = { λ b. b.words };

    ghost inverse = { λ words. record { words = words } };
}

impl<T> Block<T> {
    ghost use Rattle.argon2_base.specs.Lending.{LendsWords};

    /// The 128 words, for writing: the block is then what was written.
    pub fn as_mut_slice(&mut self) -> &mut [T]
        ensures* writes_back { sem 𝓛 (LendsWords T.row self.entry result) }
        ensures value { result.now ≡ self.old }
        ensures long { length result.now ≡ 128 }
    {
        let words = &mut self.words;
        &mut words[..]
    }
}

impl Block {
    /// The size of a block in bytes.
    pub const SIZE: usize = 1024;

    /// The words, for [`put_mixed_words`] and [`xor_words`].
    pub fn as_words(&self) -> &Words
        ensures { result.now ≡ self.now }
    {
        &self.words
    }

    /// The block of zeros.
    #[tactic(auto, unfolding(crate::specs::Block::zero_block))]
    pub const fn new() -> Self
        ensures { result ≡ zero_block }
    {
        Block { words: [0; 128] }
    }

    /// Takes the words from 1024 bytes, the low byte of each word first.
    pub fn load(&mut self, input: &[u8; Block::SIZE])
        ensures { self.new ≡ words_of input.now }
    {
        let (pieces, _) = input.as_chunks::<8>();
        'words: for k in 0..128 {
            self.words[k] = u64::from_le_bytes(pieces[k]);
        }
    }

    /// The 1024 bytes of the words, the low byte of each word first.
    pub fn to_bytes(&self) -> [u8; Block::SIZE]
        ensures { result ≡ bytes_of self.now }
    {
        let mut out = [0; Block::SIZE];
        let mut at = 0;
        'words: for word in &self.words {
            out[at..at + 8].copy_from_slice(&word.to_le_bytes());
            at += 8;
        }
        out
    }

    /// Sets each word to zero.
    pub fn zeroize(&mut self)
        ensures { self.new ≡ zero_block }
    {
        *self = Block::new();
    }

    /// Mixes two blocks into a new one by the function G (RFC 9106, section 3.5), and counts one
    /// mixing in `work`, whose count must be below the greatest `u128`.
    pub fn mix(x: &Block, y: &Block, work: &mut Work) -> Block
        requires { work.old < 2 ^ 128 - 1 }
        ensures block { result ≡ mixed x.now y.now }
        ensures counted { work.new ≡ work.old + 1 }
    {
        work.mixes += 1;
        Block::from(textbook::mix(&x.words, &y.words))
    }

    /// Mixes the two blocks whose exclusive or is `xor`, as [`mix`](Block::mix) does, but by other code,
    /// which is faster on processors with AVX2 and fills memory. The result replaces this block,
    /// or is xored with it if `xors`. Counts one mixing in `work`, whose count must be below the
    /// greatest `u128`.
    pub fn put_mixed(&mut self, xor: &Block, xors: bool, work: &mut Work)
        requires { work.old < 2 ^ 128 - 1 }
        ensures block { (x y : List ℕ) → xor.now ≡ xor_blocks x y
            → self.new ≡ (if xors then xor_blocks self.old (mixed x y) else mixed x y) }
        ensures counted { work.new ≡ work.old + 1 }
    {
        put_mixed_words(&mut self.words, &xor.words, xors, work);
    }
}

impl Default for Block {
    ghost is_default = { λ b. b ≡ zero_block };

    fn default() -> Self {
        Block::new()
    }
}

impl From<Words> for Block {
    ghost from_gives = { λ words b. b ≡ words };

    /// The block of these words.
    fn from(words: Words) -> Self {
        Block { words }
    }
}

impl AsSlice<u64> for Block {
    ghost items = { λ b. b };

    /// The 128 words.
    fn as_slice(&self) -> &[u64]
        ensures items { result.now ≡ self.now }
        ensures long { length result.now ≡ 128 }
    {
        &self.words
    }
}

impl<T: Copy> Clone for Block<T> {
    ghost is_clone = { λ x y. y ≡ x };

    ghost is_infallible = { λ _. ⊤ };

    fn clone(&self) -> Result<Self, AllocError> {
        Ok(*self)
    }
}

impl<T: Copy> Copy for Block<T> {}

impl BitXor<&Block> for Block {
    type Output = Block;

    ghost bitxor_gives = { λ x y z. z ≡ xor_blocks x y.now };

    /// The exclusive or, word by word.
    fn bitxor(mut self, rhs: &Block) -> Block {
        self ^= rhs;
        self
    }
}

impl BitXorAssign<&Block> for Block {
    ghost bitxor_assign_gives = { λ old rhs new. new ≡ xor_blocks old rhs.now };

    /// The exclusive or with `rhs`, word by word.
    fn bitxor_assign(&mut self, rhs: &Block) {
        xor_words(&mut self.words, &rhs.words);
    }
}

/// A count of mixings. Only a mixing of two blocks adds to it, and it cannot be copied.
#[derive(Debug, Drop)]
pub struct Work {
    mixes: u128,
}

impl Model for Work {
    ghost Value = { ℕ };

    ghost view = { λ w. w.mixes };
}

impl Work {
    /// No mixing yet.
    pub fn new() -> Self
        ensures { result ≡ 0 }
    {
        Work { mixes: 0 }
    }

    /// How many mixings were counted.
    pub fn mixes(&self) -> u128
        ensures { result ≡ self.now }
    {
        self.mixes
    }
}

/// The same as [`Block::put_mixed`], on the words of blocks.
pub fn put_mixed_words(out: &mut Words, xor: &Words, xors: bool, work: &mut Work)
    requires { work.old < 2 ^ 128 - 1 }
    ensures words { (x y : List ℕ) → xor.now ≡ xor_blocks x y
        → out.new ≡ (if xors then xor_blocks out.old (mixed x y) else mixed x y) }
    ensures counted { work.new ≡ work.old + 1 }
{
    work.mixes += 1;
    kernel::mix(out, xor, xors);
}

/// The exclusive or with the words of a block.
#[inline(always)]
#[tactic(auto, using(crate::proofs::block_lemmas::MixingLemmas::block_steps))]
pub fn xor_words(x: &mut Words, y: &Words)
    ensures { x.new ≡ xor_blocks x.old y.now }
{
    'words: for w in 0..128 {
        x[w] ^= y[w];
    }
}
