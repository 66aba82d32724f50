//! The block that a block refers to (RFC 9106, sections 3.4.1 and 3.4.2). A word decides on it: the first
//! word of the previous block, or a word of an address block, which depends on no other block.

ghost use Rattle.std.specs.Prelude.{◌≡◌, ℕ, ◌+◌, ◌-◌, ◌^◌, ◌<◌, ◌≤◌, ◌++◌, length, replicate, slice_index, slice_index_or, if◌then◌else◌};
ghost use Rattle.argon2.specs.Rfc9106.{Blocks, address_block, is_independent, lane_length, permitted, previous, reference, reference_index, reference_lane, reference_word, segment_length};
ghost use Rattle.argon2.specs.Layout.{MayReferTo, addresses_at};
ghost use Rattle.argon2.specs.SegmentSteps.{column_of, IsStepAt};
ghost use Rattle.argon2.specs.WatchedFilling.{address_mixings};

use super::fill::Step;
use super::inputs::Context;
use super::memory_block::MemoryBlock;
use crate::params::SLICES;
use crate::{Algorithm, Block, Work};
use std::convert::AsSlice;

/// The columns of a segment that one address block serves.
const ADDRESS_COLUMNS: u32 = 128;

/// Some words, and zeros after them.
fn block_of_words(words: &[u64]) -> Block
    requires { length words.now ≤ 128 }
    ensures { result ≡ words.now ++ replicate (128 - length words.now) 0 }
{
    let mut all = [0; 128];
    all[..words.len()].copy_from_slice(words);
    all.block()
}

/// The index of the block that a word chooses among `count` blocks.
#[tactic(auto, unfolding(crate::specs::Rfc9106::reference_index))]
fn reference_index(count: u32, word: u64) -> u32
    requires some { 0 < count }
    ensures value { result ≡ reference_index count word }
    ensures within { result < count }
{
    let count = count as u64;
    let low = word & u64::from(u32::MAX);
    let x = (low * low) >> 32;
    (count - 1 - ((count * x) >> 32)) as u32
}

impl<'a> Context<'a> {
    /// The word of a step: a word of its address block, or else `first`, the first word of the previous
    /// block.
    #[tactic(auto, using(crate::proofs::context_lemmas::SegmentColumns::references), unfolding(crate::specs::Layout::addresses_at, crate::specs::Rfc9106::address_word, crate::specs::Rfc9106::reference_word))]
    pub(super) fn word(&self, first: u64, addresses: &Option<Block>, at: Step) -> u64
        requires in_segment { at.index < segment_length self.now }
        requires addresses { addresses.now
            ≡ addresses_at self.now at.pass at.lane at.slice at.index }
        ensures { let column = column_of self.now at in
            (blocks : Blocks) → first ≡ slice_index (previous self.now blocks at.pass at.lane column) 0
            → result ≡ reference_word self.now blocks at.pass at.lane column }
    {
        match addresses {
            Some(block) => block.as_slice()[(at.index % ADDRESS_COLUMNS) as usize],
            None => first,
        }
    }

    /// Replaces the address block by the next one, if the step is the first that needs it.
    #[tactic(auto, using(crate::proofs::context_lemmas::SegmentColumns::served))]
    pub(super) fn renew(&self, addresses: &mut Option<Block>, at: Step, work: &mut Work)
        requires before { addresses.old
            ≡ addresses_at self.now at.pass at.lane at.slice (at.index - 1) }
        requires count { work.old + 2 < 2 ^ 128 }
        ensures block { addresses.new
            ≡ addresses_at self.now at.pass at.lane at.slice at.index }
        ensures work { let mixings = address_mixings self.now at.pass at.slice in
            work.new + mixings (at.index - 1) ≡ work.old + mixings at.index }
    {
        if at.index > 0 && at.index % ADDRESS_COLUMNS == 0 {
            *addresses = self.addresses(at, work);
        }
    }

    /// The address block that has the word of a step, in a slice that has address blocks.
    #[inline(always)]
    #[tactic(auto, unfolding(crate::specs::Layout::addresses_at))]
    pub(super) fn addresses(&self, at: Step, work: &mut Work) -> Option<Block>
        requires { work.old + 2 < 2 ^ 128 }
        ensures block { result ≡ addresses_at self.now at.pass at.lane at.slice at.index }
        ensures work { work.new
            ≡ work.old + (if is_independent self.now at.pass at.slice then 2 else 0) }
    {
        if self.is_independent(at.pass, at.slice) {
            let counter = at.index / ADDRESS_COLUMNS + 1;
            Some(self.address_block(at.pass, at.lane, at.slice, counter, work))
        } else {
            None
        }
    }

    /// The address block of a counter (RFC 9106, section 3.4.1.2).
    fn address_block(
        &self,
        pass: u32,
        lane: u32,
        slice: u32,
        counter: u32,
        work: &mut Work,
    ) -> Block
        requires { work.old + 2 < 2 ^ 128 }
        ensures block { result ≡ address_block self.now pass lane slice counter }
        ensures work { work.new ≡ work.old + 2 }
    {
        let input = block_of_words(&[
            pass as u64,
            lane as u64,
            slice as u64,
            self.block_count() as u64,
            self.passes() as u64,
            self.algorithm_number() as u64,
            counter as u64,
        ]);
        let zero = Block::new();
        let inner = Block::mix(&zero, &input, work);
        Block::mix(&zero, &inner, work)
    }

    /// Whether a slice's references do not depend on blocks.
    #[tactic(auto, unfolding(crate::specs::Rfc9106::is_independent))]
    fn is_independent(&self, pass: u32, slice: u32) -> bool
        ensures { result ≡ is_independent self.now pass slice }
    {
        match self.algorithm() {
            Algorithm::Argon2d => false,
            Algorithm::Argon2i => true,
            Algorithm::Argon2id => pass == 0 && slice < 2,
        }
    }

    /// The lane and the column of the block that a word chooses for a step.
    #[tactic(auto, unfolding(crate::specs::Rfc9106::reference))]
    pub(super) fn reference(&self, at: Step, word: u64) -> (u32, u32)
        requires { IsStepAt self.now at }
        ensures lane { let column = column_of self.now at in
            result.0 ≡ (reference self.now at.pass at.lane column word).lane }
        ensures column { let column = column_of self.now at in
            result.1 ≡ (reference self.now at.pass at.lane column word).column }
        ensures in_lanes { result.0 < self.now.p_cost }
        ensures in_columns { result.1 < lane_length self.now }
    {
        let lane = self.reference_lane(at, word);
        let count = self.permitted_count(at, lane);
        let index = reference_index(count, word);
        (lane, self.permitted_column(at, index))
    }

    /// The lane that a word chooses for a step.
    #[tactic(auto, using(crate::proofs::context_lemmas::SegmentColumns::references), unfolding(crate::specs::Rfc9106::reference_lane))]
    fn reference_lane(&self, at: Step, word: u64) -> u32
        requires { IsStepAt self.now at }
        ensures value { let column = column_of self.now at in
            result ≡ reference_lane self.now at.pass at.lane column word }
        ensures lane { MayReferTo self.now at.pass at.lane (column_of self.now at) result }
    {
        let lanes = self.lanes();
        if lanes == 1 || at.pass == 0 && at.slice == 0 {
            at.lane
        } else {
            (word >> 32) as u32 % lanes
        }
    }

    /// The number of blocks of a lane that a step may refer to.
    #[tactic(auto, using(crate::proofs::context_lemmas::SegmentColumns::references))]
    fn permitted_count(&self, at: Step, other: u32) -> u32
        requires step { IsStepAt self.now at }
        requires lane { MayReferTo self.now at.pass at.lane (column_of self.now at) other }
        ensures value { let column = column_of self.now at in
            result ≡ length (permitted self.now at.pass at.lane column other) }
        ensures some { 0 < result }
        ensures short { result < lane_length self.now }
    {
        let segment = self.segment_length();
        let finished = if at.pass == 0 {
            at.slice * segment
        } else {
            (SLICES - 1) * segment
        };
        if at.index == 0 {
            finished - 1
        } else if other == at.lane {
            finished + (at.index - 1)
        } else {
            finished
        }
    }

    /// The column of one of these blocks.
    #[tactic(auto, using(crate::proofs::context_lemmas::SegmentColumns::references))]
    fn permitted_column(&self, at: Step, index: u32) -> u32
        requires step { IsStepAt self.now at }
        requires few { index < lane_length self.now }
        ensures value { (other : ℕ)
            → let blocks = permitted self.now at.pass at.lane (column_of self.now at) other in
            index < length blocks → result ≡ (slice_index_or blocks index (0, 0)).1 }
        ensures within { result < lane_length self.now }
    {
        let segment = self.segment_length();
        let length = self.lane_length();
        let finished = (at.slice + 1) * segment;
        if at.pass == 0 {
            index
        } else if index < length - finished {
            finished + index
        } else {
            index - (length - finished)
        }
    }
}
