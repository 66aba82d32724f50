//! The blocks that the memory of a hash consists of: each a `Block`, or the words of one.

ghost use Rattle.std.specs.Prelude.{◌≡◌, ℕ, ◌+◌, ◌-◌, ◌<◌, ◌^◌, List, slice_index, if◌then◌else◌};
ghost use Rattle.argon2_base.specs.Block.{mixed, xor_blocks};

use crate::{Block, Work};
use argon2_base::block::{Words, put_mixed_words, xor_words};
use std::convert::AsSlice;

/// A block of the memory.
pub(super) trait MemoryBlock: Copy {
    ghost words: { Self → List ℕ };

    /// It has a block's words.
    fn of(block: Block) -> Self
        ensures { words result ≡ block };

    /// The block that has its words.
    fn block(&self) -> Block
        ensures { result ≡ words self.now };

    /// Its first word.
    fn first_word(&self) -> u64
        ensures { result ≡ slice_index (words self.now) 0 };

    /// Mixes the two blocks whose exclusive or is `xor`, and counts one mixing. The result replaces this
    /// block, or is xored with it if `xors`.
    fn put_mixed(&mut self, xor: &Self, xors: bool, work: &mut Work)
        requires { work.old < 2 ^ 128 - 1 }
        ensures block { (x y : List ℕ) → words xor.now ≡ xor_blocks x y
            → words self.new ≡ (if xors then xor_blocks (words self.old) (mixed x y) else mixed x y) }
        ensures counted { work.new ≡ work.old + 1 };

    /// The exclusive or with another block.
    fn xor(&mut self, other: &Self)
        ensures { words self.new ≡ xor_blocks (words self.old) (words other.now) };
}

impl MemoryBlock for Block {
    ghost words = { λ block. block };

    fn of(block: Block) -> Block {
        block
    }

    fn block(&self) -> Block {
        *self
    }

    fn first_word(&self) -> u64 {
        self.as_slice()[0]
    }

    fn put_mixed(&mut self, xor: &Block, xors: bool, work: &mut Work) {
        self.put_mixed(xor, xors, work);
    }

    fn xor(&mut self, other: &Block) {
        *self ^= other;
    }
}

impl MemoryBlock for Words {
    ghost words = { λ words. words };

    fn of(block: Block) -> Words {
        *block.as_words()
    }

    fn block(&self) -> Block {
        Block::from(*self)
    }

    fn first_word(&self) -> u64 {
        self[0]
    }

    fn put_mixed(&mut self, xor: &Words, xors: bool, work: &mut Work) {
        put_mixed_words(self, xor, xors, work);
    }

    fn xor(&mut self, other: &Words) {
        xor_words(self, other);
    }
}

/// The exclusive or of two blocks.
#[inline(always)]
pub(super) fn xor_of<B: MemoryBlock>(x: &B, y: &B) -> B
    ensures { B.words result ≡ xor_blocks (B.words x.now) (B.words y.now) }
{
    let mut xor = *x;
    xor.xor(y);
    xor
}
