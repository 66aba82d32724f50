//! From the inputs of a hash to its matrix, step by step (RFC 9106, section 3.2, steps 1 to 6).

ghost use Rattle.std.specs.Prelude.{◌≡◌, ◌+◌, ◌-◌, ◌*◌, ◌^◌, ◌<◌, ◌≤◌, ◌==◌, if◌then◌else◌, length, map};
ghost use Rattle.argon2.specs.Rfc9106.{AreShort, block_count, lane_length, segment_length};
ghost use Rattle.argon2.specs.Layout.{addresses_at};
ghost use Rattle.argon2.specs.Hashing.{FillsFront};
ghost use Rattle.argon2.specs.WatchedFilling.{Fills, Watches, columns_before, in_order, mixing_calls, position_index, segment_calls};
ghost use Rattle.argon2.specs.SegmentSteps.{column_of, IsStepAt};
ghost use Rattle.argon2.specs.Steps.{reference_place, step, turn_count, IsStep};

use super::inputs::Context;
use super::memory_block::{MemoryBlock, xor_of};
use super::watch::Watch;
use crate::params::SLICES;
use crate::{Block, Work};

/// The block that a step writes, by its index in a segment (RFC 9106, section 3.4).
#[derive(Clone, Copy)]
pub(super) struct Step {
    pub(super) pass: u32,
    pub(super) lane: u32,
    pub(super) slice: u32,
    pub(super) index: u32,
}

impl<'a> Context<'a> {
    /// Makes the matrix for an output of `out_len` bytes in the first blocks of the memory.
    #[tactic(auto, unfolding(crate::specs::WatchedFilling::slices_calls, crate::proofs::context_lemmas::Counts::passes_calls))]
    pub(super) fn fill_blocks<B: MemoryBlock>(
        &self,
        pwd: &[u8],
        salt: &[u8],
        out_len: u32,
        memory: &mut [B],
        watch: &mut Watch,
    )
        requires inputs { AreShort pwd.now salt.now }
        requires room { block_count self.now ≤ length memory.old }
        requires count { watch.old.work < 2 ^ 126 }
        ensures filled { FillsFront self.now pwd.now salt.now out_len (map B.words memory.old)
            (map B.words memory.new) watch.old.positions.now watch.new.positions.now }
        ensures watched { Watches (mixing_calls self.now) watch.old watch.new }
    {
        let blocks = &mut memory[..self.block_count()];
        self.begin(pwd, salt, out_len, self.lane_length(), blocks);
        for pass in 0..self.passes() {
            for slice in 0..SLICES {
                for lane in 0..self.lanes() {
                    self.fill_columns(blocks, pass, slice, lane, watch);
                }
            }
        }
    }

    /// The steps of a lane in a slice.
    #[tactic(auto, using(crate::proofs::context_lemmas::SegmentColumns::steps))]
    fn fill_columns<B: MemoryBlock>(
        &self,
        memory: &mut [B],
        pass: u32,
        slice: u32,
        lane: u32,
        watch: &mut Watch,
    )
        requires in_passes { pass < self.now.t_cost }
        requires in_slices { slice < SLICES }
        requires in_lanes { lane < self.now.p_cost }
        requires room { block_count self.now ≤ length memory.old }
        requires count { watch.old.work < 2 ^ 127 }
        ensures filled { Fills self.now pass
            (in_order self.now pass slice lane (columns_before self.now pass slice))
            (in_order self.now pass slice lane ((slice + 1) * segment_length self.now))
            (map B.words memory.old) (map B.words memory.new)
            watch.old.positions.now watch.new.positions.now }
        ensures watched { Watches (segment_calls self.now pass slice) watch.old watch.new }
    {
        let segment = self.segment_length();
        let start = self.first_index(pass, slice);
        let first = Step {
            pass,
            lane,
            slice,
            index: 0,
        };
        let mut addresses = self.addresses(first, &mut watch.work);
        for index in start..segment {
            let at = Step { index, ..first };
            self.renew(&mut addresses, at, &mut watch.work);
            let reference = self.step(memory, &addresses, at, &mut watch.work);
            watch.put(self.position(at), reference);
        }
    }

    /// The index of the first step in a segment: 2 in slice 0 of pass 0, otherwise 0.
    pub(super) fn first_index(&self, pass: u32, slice: u32) -> u32
        requires { 2 ≤ segment_length self.now }
        ensures turns { result + turn_count self.now pass slice ≡ segment_length self.now }
        ensures few { result ≤ 2 }
        ensures later { pass ≡ 0 → 2 ≤ slice * segment_length self.now + result }
    {
        if pass == 0 && slice == 0 { 2 } else { 0 }
    }

    /// The step of a column.
    pub(super) fn step_of(&self, pass: u32, lane: u32, column: u32) -> Step
        requires { IsStep self.now pass lane column }
        ensures pass { result.pass ≡ pass }
        ensures lane { result.lane ≡ lane }
        ensures column { column_of self.now result ≡ column }
        ensures step { IsStepAt self.now result }
    {
        let segment = self.segment_length();
        Step {
            pass,
            lane,
            slice: column / segment,
            index: column % segment,
        }
    }

    /// The column of a step.
    pub(super) fn column(&self, at: Step) -> u32
        requires { IsStepAt self.now at }
        ensures value { result ≡ column_of self.now at }
        ensures within { result < lane_length self.now }
    {
        at.slice * self.segment_length() + at.index
    }

    /// The index of a step's reference in the list of a watch.
    fn position(&self, at: Step) -> usize
        requires { IsStepAt self.now at }
        ensures { result ≡ position_index self.now at.pass at.lane (column_of self.now at) }
    {
        let place = self.place(at.lane, self.column(at)) as usize;
        at.pass as usize * self.block_count() + place
    }

    /// Writes the block of a step, and returns the place of its reference.
    #[tactic(auto, using(crate::proofs::context_lemmas::InMemory::first_word_read, crate::proofs::context_lemmas::InMemory::place_by_word))]
    pub(super) fn step<B: MemoryBlock>(
        &self,
        memory: &mut [B],
        addresses: &Option<Block>,
        at: Step,
        work: &mut Work,
    ) -> u32
        requires step { IsStepAt self.now at }
        requires room { block_count self.now ≤ length memory.old }
        requires addresses { addresses.now
            ≡ addresses_at self.now at.pass at.lane at.slice at.index }
        requires count { work.old < 2 ^ 128 - 1 }
        ensures step { map B.words memory.new
            ≡ step self.now (map B.words memory.old) at.pass at.lane (column_of self.now at) }
        ensures place { let column = column_of self.now at in
            result ≡ reference_place self.now (map B.words memory.old) at.pass at.lane column }
        ensures work { work.new ≡ work.old + 1 }
    {
        let previous = self.place(at.lane, self.previous_column(at)) as usize;
        let word = self.word(memory[previous].first_word(), addresses, at);
        let (lane, column) = self.reference(at, word);
        let reference = self.place(lane, column);
        let place = self.place(at.lane, self.column(at)) as usize;
        let xor = &xor_of(&memory[previous], &memory[reference as usize]);
        memory[place].put_mixed(xor, self.xors(at.pass), work);
        reference
    }

    /// The column of the previous block, which before column 0 is the last.
    pub(super) fn previous_column(&self, at: Step) -> u32
        requires { IsStepAt self.now at }
        ensures value { let column = column_of self.now at in
            result ≡ (if column == 0 then lane_length self.now - 1 else column - 1) }
        ensures within { result < lane_length self.now }
    {
        let column = self.column(at);
        if column == 0 {
            self.lane_length() - 1
        } else {
            column - 1
        }
    }
}
