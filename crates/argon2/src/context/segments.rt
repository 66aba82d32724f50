//! Filling with each segment lent apart, so that the lanes of a slice can be filled side by side.
//!
//! The memory is laid out slice by slice, in each slice lane by lane: if a segment has S columns and
//! there are p lanes, the block of a lane and a column is at ((column / S) * p + lane) * S + column % S.
//! A segment is filled on three parts of it: the slices before, the segment, and the slices after it.

ghost use Rattle.std.specs.Prelude.{◌≡◌, ℕ, ◌*◌, ◌+◌, ◌-◌, ◌/◌, ◌<◌, ◌≤◌, ◌^◌, [], length, slice_index_or};
ghost use Rattle.argon2_base.specs.Block.{bytes_of};
ghost use Rattle.argon2_base.specs.LongHash.{long_hash};
ghost use Rattle.argon2.specs.Rfc9106.{AreShort, block_count, first_block, lane_length, segment_length};
ghost use Rattle.argon2.specs.Layout.{Memory, addresses_at};
ghost use Rattle.argon2.specs.Segments.{AreLengths, AreParts, BeginsSlices, FillsSegment, IsPlaceFor, last_of_slice, slice_length};
ghost use Rattle.argon2.specs.SegmentSteps.{IsStepAt, column_of};
ghost use Rattle.argon2.specs.Steps.{step};
ghost use Rattle.argon2.specs.Argon2.{context_of, context_under};
ghost use Rattle.argon2.specs.Refusals.{max_len};

use super::Argon2;
use super::fill::Step;
use super::inputs::Context;
use super::memory_block::xor_of;
use crate::params::SLICES;
use crate::{Block, Work};
use argon2_base::block::{Words, put_mixed_words};

/// A segment: the columns of a lane in a slice, as they are filled in a pass (RFC 9106, section 3.4).
#[derive(Clone, Copy, Debug)]
pub struct Segment {
    /// The pass.
    pub pass: u32,
    /// The slice, 0 to 3.
    pub slice: u32,
    /// The lane.
    pub lane: u32,
}

impl Argon2<'_> {
    /// Writes columns 0 and 1 of each lane into the first slice, and no other block, for a tag of
    /// `out_len` bytes and under this associated data in place of the parameters' (RFC 9106,
    /// section 3.2, steps 3 and 4). The data, the password and the salt have at most 4294967295 bytes.
    pub fn begin_slices(
        &self,
        associated: &[u8],
        pwd: &[u8],
        salt: &[u8],
        out_len: u32,
        first: &mut [Words],
    )
        requires associated { length associated.now ≤ max_len }
        requires inputs { AreShort pwd.now salt.now }
        requires slice { length first.old ≡ slice_length (context_of self.now) }
        ensures { let context = context_under self.now associated.now in
            BeginsSlices context (first_block context pwd.now salt.now out_len) first.old first.new }
    {
        let context = Context::new(self, associated);
        context.begin(pwd, salt, out_len, context.segment_length(), first);
    }

    /// Writes the blocks of a segment into `own`, under this associated data in place of the
    /// parameters' (RFC 9106, section 3.2, steps 5 and 6). `before` has the slices before it, and
    /// `after` has the slices after it. The data has at most 4294967295 bytes.
    pub fn fill_segment(
        &self,
        associated: &[u8],
        before: &[Words],
        own: &mut [Words],
        after: &[Words],
        at: Segment,
    )
        requires associated { length associated.now ≤ max_len }
        requires parts { AreLengths (context_of self.now) at.slice at.lane (length before.now)
            (length own.old) (length after.now) }
        ensures { FillsSegment (context_under self.now associated.now) at.pass at.slice at.lane
            before.now own.old own.new after.now }
    {
        let context = Context::new(self, associated);
        context.fill_own(before, own, after, at);
    }

    /// Fills `out`, 1 to 4294967295 bytes, with H' of the exclusive or of the last column's blocks. `last` is the last
    /// slice (RFC 9106, section 3.2, steps 7 and 8).
    pub fn finish_slices(&self, last: &[Words], out: &mut [u8])
        requires slice { length last.now ≡ slice_length (context_of self.now) }
        requires some { 1 ≤ length out.old }
        requires few { length out.old < 2 ^ 32 }
        ensures { out.new
            ≡ long_hash (length out.old) (bytes_of (last_of_slice (context_of self.now) last.now)) }
    {
        let context = self.context();
        context.write_tag(context.segment_length(), last, out);
    }
}

impl<'a> Context<'a> {
    /// Makes the steps of a lane in a slice. `own` is its segment, `before` has the slices before it,
    /// and `after` has the slices after it.
    #[tactic(auto, using(crate::proofs::context_lemmas::SegmentColumns::steps))]
    fn fill_own(&self, before: &[Words], own: &mut [Words], after: &[Words], at: Segment)
        requires { AreLengths self.now at.slice at.lane (length before.now) (length own.old)
            (length after.now) }
        ensures { FillsSegment self.now at.pass at.slice at.lane before.now own.old own.new
            after.now }
    {
        let segment = self.segment_length();
        let start = self.first_index(at.pass, at.slice);
        let first = Step {
            pass: at.pass,
            lane: at.lane,
            slice: at.slice,
            index: 0,
        };
        let mut addresses = self.addresses(first, &mut Work::new());
        for index in start..segment {
            let step = Step { index, ..first };
            self.renew(&mut addresses, step, &mut Work::new());
            self.step_own(before, own, after, &addresses, step);
        }
    }

    /// Writes the block of a step into its segment.
    #[tactic(auto, using(crate::proofs::context_lemmas::SegmentParts::readable))]
    fn step_own(
        &self,
        before: &[Words],
        own: &mut [Words],
        after: &[Words],
        addresses: &Option<Block>,
        at: Step,
    )
        requires parts { AreLengths self.now at.slice at.lane (length before.now) (length own.old)
            (length after.now) }
        requires step { IsStepAt self.now at }
        requires addresses { addresses.now
            ≡ addresses_at self.now at.pass at.lane at.slice at.index }
        ensures size { length own.new ≡ length own.old }
        ensures step { let column = column_of self.now at in
            (memory : Memory) → length memory ≡ block_count self.now
            → AreParts self.now at.slice at.lane memory before.now own.old after.now
            → AreParts self.now at.slice at.lane (step self.now memory at.pass at.lane column)
            before.now own.new after.now }
    {
        let x = self.block(before, own, after, at, at.lane, self.previous_column(at));
        let word = self.word(x[0], addresses, at);
        let (lane, column) = self.reference(at, word);
        let y = self.block(before, own, after, at, lane, column);
        let xor = &xor_of(x, y);
        let block = &mut own[at.index as usize];
        put_mixed_words(block, xor, self.xors(at.pass), &mut Work::new());
    }

    /// A block that a step may read.
    #[tactic(auto, using(crate::proofs::context_lemmas::SegmentColumns::in_its_slice))]
    fn block<'m>(
        &self,
        before: &'m [Words],
        own: &'m [Words],
        after: &'m [Words],
        at: Step,
        lane: u32,
        column: u32,
    ) -> &'m Words
        requires parts { AreLengths self.now at.slice at.lane (length before.now) (length own.now)
            (length after.now) }
        requires in_segment { at.index < segment_length self.now }
        requires place { IsPlaceFor self.now at.lane (column_of self.now at) lane column }
        ensures { (memory : Memory)
            → AreParts self.now at.slice at.lane memory before.now own.now after.now
            → result.now ≡ slice_index_or memory (lane * lane_length self.now + column) [] }
    {
        let slice = self.slice_of(column);
        let index = column - slice * self.segment_length();
        if slice == at.slice {
            &own[index as usize]
        } else if slice < at.slice {
            &before[self.place_in_slices(slice, lane, index) as usize]
        } else {
            &after[self.place_in_slices(slice - (at.slice + 1), lane, index) as usize]
        }
    }

    /// The slice of a column, without a division.
    fn slice_of(&self, column: u32) -> u32
        requires { column < lane_length self.now }
        ensures { result ≡ column / segment_length self.now }
    {
        let segment = self.segment_length();
        let half = if column < 2 * segment { 0 } else { 2 };
        if column < (half + 1) * segment {
            half
        } else {
            half + 1
        }
    }

    /// The place of a block in some slices, one after the other.
    fn place_in_slices(&self, slice: u32, lane: u32, index: u32) -> u32
        requires in_slices { slice < SLICES }
        requires in_lanes { lane < self.now.p_cost }
        requires in_segment { index < segment_length self.now }
        ensures value { result
            ≡ (slice * self.now.p_cost + lane) * segment_length self.now + index }
        ensures within { (slices : ℕ) → slice < slices → result < slices * slice_length self.now }
    {
        (slice * self.lanes() + lane) * self.segment_length() + index
    }
}
