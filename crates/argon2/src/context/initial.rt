//! The first two columns, which are made of the inputs (RFC 9106, section 3.2, steps 1 to 4).

ghost use Rattle.std.specs.Prelude.{◌≡◌, ◌+◌, ◌*◌, ◌<◌, ◌≤◌, ◌^◌, length, map};
ghost use Rattle.argon2_base.specs.Hasher.{Appends};
ghost use Rattle.argon2.specs.Rfc9106.{AreShort, block_after, first_block, initial_hash, lane_length, number, with_length};
ghost use Rattle.argon2.specs.Segments.{BeginsLanes};

use super::inputs::Context;
use super::memory_block::MemoryBlock;
use argon2_base::blake2b::Blake2b;
use argon2_base::blake2b_long::blake2b_long;
use argon2_base::block::Block;

// Adds a number in four bytes.
fn update_number(hasher: &mut Blake2b, n: u32)
    requires { hasher.old.message_len + 4 < 2 ^ 128 }
    ensures { Appends (number n) hasher.old hasher.new }
{
    hasher.update(&n.to_le_bytes());
}

// Adds an input after its length.
fn update_input(hasher: &mut Blake2b, input: &[u8])
    requires short { length input.now < 2 ^ 32 }
    requires room { hasher.old.message_len + length input.now + 4 < 2 ^ 128 }
    ensures { Appends (with_length input.now) hasher.old hasher.new }
{
    update_number(hasher, input.len() as u32);
    hasher.update(input);
}

/// The block of a lane and a column that an initial hash makes.
#[tactic(auto, unfolding(crate::specs::Rfc9106::block_after))]
pub(super) fn block_after(hash: &[u8; 64], lane: u32, column: u32) -> Block
    ensures { result ≡ block_after hash.now lane column }
{
    let mut bytes = [0; Block::SIZE];
    blake2b_long(
        &[hash, &column.to_le_bytes(), &lane.to_le_bytes()],
        &mut bytes,
    )
    .unwrap();
    let mut block = Block::new();
    block.load(&bytes);
    block
}

impl Context<'_> {
    /// The initial hash for an output of `out_len` bytes.
    pub(super) fn initial_hash(&self, pwd: &[u8], salt: &[u8], out_len: u32) -> [u8; 64]
        requires { AreShort pwd.now salt.now }
        ensures { result ≡ initial_hash self.now pwd.now salt.now out_len }
    {
        let mut hasher = Blake2b::new(64);
        update_number(&mut hasher, self.lanes());
        update_number(&mut hasher, out_len);
        update_number(&mut hasher, self.m_cost);
        update_number(&mut hasher, self.passes());
        update_number(&mut hasher, u32::from(self.version));
        update_number(&mut hasher, self.algorithm_number());
        update_input(&mut hasher, pwd);
        update_input(&mut hasher, salt);
        update_input(&mut hasher, self.secret);
        update_input(&mut hasher, self.associated);
        let mut hash = [0u8; 64];
        hasher.finalize_into(&mut hash);
        hash
    }

    /// Writes columns 0 and 1 of each lane for an output of `out_len` bytes, and no other block. Each lane
    /// has `width` blocks, the first of its columns.
    #[tactic(auto, using(crate::proofs::context_lemmas::InMemory::lane_fits))]
    pub(super) fn begin<B: MemoryBlock>(
        &self,
        pwd: &[u8],
        salt: &[u8],
        out_len: u32,
        width: u32,
        blocks: &mut [B],
    )
        requires inputs { AreShort pwd.now salt.now }
        requires two { 2 ≤ width }
        requires most { width ≤ lane_length self.now }
        requires size { length blocks.old ≡ self.now.p_cost * width }
        ensures { BeginsLanes self.now width (first_block self.now pwd.now salt.now out_len)
            (map B.words blocks.old) (map B.words blocks.new) }
    {
        let hash = self.initial_hash(pwd, salt, out_len);
        for lane in 0..self.lanes() {
            let first = (lane * width) as usize;
            blocks[first] = B::of(block_after(&hash, lane, 0));
            blocks[first + 1] = B::of(block_after(&hash, lane, 1));
        }
    }
}
