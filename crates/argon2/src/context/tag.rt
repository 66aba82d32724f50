//! The tag, which is made of the last column (RFC 9106, section 3.2, steps 7 and 8).

ghost use Rattle.std.specs.Prelude.{◌≡◌, ◌+◌, ◌-◌, ◌*◌, ◌<◌, ◌≤◌, ◌^◌, [], length, map, slice_index_or};
ghost use Rattle.argon2_base.specs.Block.{bytes_of};
ghost use Rattle.argon2_base.specs.LongHash.{long_hash};
ghost use Rattle.argon2.specs.Rfc9106.{lane_length, xor_lanes};

use super::inputs::Context;
use super::memory_block::MemoryBlock;
use argon2_base::blake2b_long::blake2b_long;
use argon2_base::block::Block;

impl Context<'_> {
    /// Fills `out` with H' of the exclusive or of the last column's blocks. Each lane has `width` blocks,
    /// the last of its columns.
    #[tactic(auto, using(crate::proofs::context_lemmas::InMemory::lane_fits))]
    pub(super) fn write_tag<B: MemoryBlock>(&self, width: u32, blocks: &[B], out: &mut [u8])
        requires one { 1 ≤ width }
        requires most { width ≤ lane_length self.now }
        requires size { length blocks.now ≡ self.now.p_cost * width }
        requires some { 1 ≤ length out.old }
        requires few { length out.old < 2 ^ 32 }
        ensures { let blocks = map B.words blocks.now in
            let last = xor_lanes self.now (λ lane.
            slice_index_or blocks (lane * width + (width - 1)) []) in
            out.new ≡ long_hash (length out.old) (bytes_of last) }
    {
        let mut all = B::of(Block::new());
        for lane in 0..self.lanes() {
            let place = lane * width + (width - 1);
            all.xor(&blocks[place as usize]);
        }
        blake2b_long(&[&all.block().to_bytes()], out).unwrap();
    }
}
