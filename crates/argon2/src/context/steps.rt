//! Filling by single steps, whose order the caller chooses.

use super::Argon2;
use crate::{Block, Work};
use argon2_base::error::Result;

impl Argon2<'_> {
    ghost use Rattle.std.specs.Prelude.{◌≡◌, ◌<◌, ◌≤◌, IsNone, OnOk, OnErr, length};
    ghost use Rattle.argon2_base.specs.Block.{bytes_of};
    ghost use Rattle.argon2_base.specs.LongHash.{long_hash};
    ghost use Rattle.argon2.specs.Argon2.{context_of};
    ghost use Rattle.argon2.specs.Rfc9106.{block_count};
    ghost use Rattle.argon2.specs.Hashing.{blocks_of, output_refusal, refusal_of, IsBegun, IsStepped};
    ghost use Rattle.argon2.specs.Refusals.{answer_unless};
    ghost use Rattle.argon2.specs.Steps.{last_column, IsStep};

    /// Writes columns 0 and 1 of each lane, and no other block, for a tag of `out_len` bytes
    /// (RFC 9106, section 3.2, steps 3 and 4). Lane by lane, the first
    /// [`block_count`](crate::Params::block_count) blocks of `memory` are the lanes' columns.
    ///
    /// # Errors
    /// Those of [`hash_password_into_with_memory`](Argon2::hash_password_into_with_memory) for an
    /// output of `out_len` bytes, in their order; the memory is then as before.
    pub fn begin_fill(
        &self,
        pwd: &[u8],
        salt: &[u8],
        out_len: usize,
        memory: &mut [Block],
    ) -> Result<()>
        ensures answer { result ≡ answer_unless (refusal_of self.now out_len pwd.now salt.now
            (length memory.old)) tt }
        ensures begun { OnOk result (IsBegun self.now pwd.now salt.now out_len memory.old
            memory.new) }
        ensures same { OnErr result (memory.new ≡ memory.old) }
    {
        self.check(out_len, pwd, salt, memory.len())?;
        let context = self.context();
        let blocks = &mut memory[..context.block_count()];
        context.begin(pwd, salt, out_len as u32, context.lane_length(), blocks);
        Ok(())
    }

    /// Writes the block of a pass, a lane and a column, and no other (RFC 9106, section 3.2, steps
    /// 5 and 6). Returns the place of the block that it refers to: if a lane has q columns, the block
    /// of a lane and a column is at place lane * q + column.
    ///
    /// The pass is below [`t_cost`](crate::Params::t_cost), the lane below
    /// [`p_cost`](crate::Params::p_cost), the column below
    /// [`lane_length`](crate::Params::lane_length), and in pass 0 from 2 on. `memory` has at least
    /// [`block_count`](crate::Params::block_count) blocks.
    ///
    /// The lanes of a slice may take their turns in any order, and the tag is the same: see
    /// [`slice_interleaving`](crate::laws::slice_interleaving).
    pub fn step_block(&self, memory: &mut [Block], pass: u32, lane: u32, column: u32) -> u32
        requires in_passes { pass < (context_of self.now).t_cost }
        requires step { IsStep (context_of self.now) pass lane column }
        requires room { block_count (context_of self.now) ≤ length memory.old }
        ensures { IsStepped (context_of self.now) pass lane column memory.old memory.new result }
    {
        let context = self.context();
        let blocks = &mut memory[..context.block_count()];
        let mut work = Work::new();
        let at = context.step_of(pass, lane, column);
        let addresses = context.addresses(at, &mut work);
        context.step(blocks, &addresses, at, &mut work)
    }

    /// Fills `out` with H' of the exclusive or of the last column's blocks, whatever the memory holds
    /// (RFC 9106, section 3.2, steps 7 and 8). That is the tag once all steps are done, if `out` has
    /// the length that the filling began for.
    ///
    /// `memory` has at least [`block_count`](crate::Params::block_count) blocks. If the parameters
    /// set an output length, `out` has exactly that many bytes; else it has 4 to 4294967295.
    pub fn finish_fill(&self, memory: &[Block], out: &mut [u8])
        requires room { block_count (context_of self.now) ≤ length memory.now }
        requires output { IsNone (output_refusal self.now (length out.old)) }
        ensures { let context = context_of self.now in out.new
            ≡ long_hash (length out.old) (bytes_of (last_column context (blocks_of context memory.now))) }
    {
        let context = self.context();
        let blocks = &memory[..context.block_count()];
        context.write_tag(context.lane_length(), blocks, out);
    }
}
