//! Calls on hashing. Their words are `CONTEXT PASSWORD SALT LENGTH`: the name of a context, two lists of bytes, and the length of
//! the output, whose bytes are ff before the call. They answer the tag, or `Ok` if they write none, or the error and whether the
//! output is the same.
//!
//! A call on lent memory answers also with the digest of the blocks that are filled, and whether the other blocks are the same.
//! Steps and watched calls answer with the digest of the places of references as 32-bit numbers, too. After an error the answer
//! says whether all blocks are the same.

ghost use Rattle.std.specs.Prelude.{◌≡◌, ◌*◌, IfSome};
ghost use Rattle.argon2.specs.Argon2.{context_of};
ghost use Rattle.argon2.specs.Rfc9106.{block_count, segment_length};
ghost use Rattle.argon2.specs.Segments.{slice_length};

use crate::answer::Answer;
use crate::blocks::{alike_pairs, digest_of, digest_of_places};
use crate::call::Call;
use crate::inputs;
use argon2::block::Words;
use argon2::{Argon2, Block, Error, Kdf, MAX_AD_LEN, MAX_PWD_LEN, MAX_SALT_LEN, Segment, laws};
use std::convert::AsSlice;

pub(crate) fn make(call: &Call<'_, '_>, answer: &Answer, memory: &mut Vec<Block>) -> bool {
    match call.name {
        "derive_key"
        | "hash_password_into"
        | "hash_password_into_with_data"
        | "hash_password_into_with_words" => hash(call, answer),
        "fill_segment" => fill_apart(call, answer),
        "memory" => *memory = lend(call, answer),
        // `COUNT`: how many pairs, each block with each of the last ones, are mixed alike.
        "mix_memory" => {
            let count = memory.len().saturating_sub(call.count(1) as usize);
            answer.display(alike_pairs(memory, memory.split_at(count).1));
        }
        "hash_password_into_with_memory" | "fill_memory" | "begin_fill" => {
            fill_lent(call, answer, memory.as_mut_slice());
        }
        "hash_password_into_watched" => watch(call, answer, memory.as_mut_slice()),
        "step_block" => step_all(call, answer, memory.as_mut_slice()),
        "laws" => {
            laws::mixing_symmetric();
            laws::mixing_with_itself();
            laws::key_identifier();
            laws::recurrence();
            laws::slice_interleaving();
            laws::segments_apart();
            laws::independent_positions();
            answer.display("Ok");
        }
        _ => return false,
    }
    true
}

// `.. DATA`: under other associated data. `.. DATA COUNT`: the same on COUNT blocks of ones, as their words.
fn hash(call: &Call<'_, '_>, answer: &Answer) {
    let (argon2, password, salt) = inputs(call);
    let (alloc, mut out) = (answer.alloc, answer.ones(call.count(4)));
    let tag = out.as_mut_slice();
    let done = match call.name {
        "derive_key" => {
            let done = argon2.derive_key(alloc, password, salt, tag);
            return answer.display_output(done, &out);
        }
        "hash_password_into" => argon2.hash_password_into(alloc, password, salt, tag),
        "hash_password_into_with_data" => {
            argon2.hash_password_into_with_data(alloc, call.bytes(5), password, salt, tag)
        }
        _ => hash_on_words(call, answer, tag),
    };
    answer.display_output(done, &out);
}

fn hash_on_words(call: &Call<'_, '_>, answer: &Answer, tag: &mut [u8]) -> Result<(), Error> {
    let (argon2, password, salt) = inputs(call);
    let (data, count) = (call.bytes(5), call.count(6) as usize);
    if data.len() > MAX_AD_LEN {
        return Err(Error::AdTooLong);
    }
    let mut words = answer.list_or_empty(Vec::from_elem(answer.alloc, [u64::MAX; 128], count));
    argon2.hash_password_into_with_words(data, password, salt, tag, words.as_mut_slice())
}

// ---- lent memory

// `memory COUNT CONTENT`: the memory that the next calls get, of zeros, of ones, or of blocks with a bit set: each has its next
// place, and those after have none.
fn lend(call: &Call<'_, '_>, answer: &Answer) -> Vec<Block> {
    let (count, content) = (call.count(1) as usize, call.word(2));
    let mut memory = answer.list_or_empty(Vec::from_elem(answer.alloc, Block::new(), count));
    let mut bit: usize = 0;
    for block in memory.as_mut_slice() {
        match content {
            "ones" => block.as_mut_slice().fill(u64::MAX),
            "bits" => {
                if let Some(word) = block.as_mut_slice().get_mut(bit / 64) {
                    *word = 1u64 << (bit % 64);
                }
            }
            "zeros" => {}
            _ => call.refuse(),
        }
        bit = bit.wrapping_add(1);
    }
    answer.display("Ok");
    memory
}

// The digests of the blocks that a context fills, and of those after.
fn digests(argon2: &Argon2<'_>, memory: &[Block]) -> ([u8; 8], [u8; 8]) {
    let (filled, rest) = memory.split_at(argon2.params().block_count().min(memory.len()));
    (digest_of(filled), digest_of(rest))
}

// Shows whether a call was done, its output, and what it made of the memory, if that had these digests before.
fn show_filling(
    answer: &Answer,
    done: Result<(), Error>,
    argon2: &Argon2<'_>,
    out: &[u8],
    old: ([u8; 8], [u8; 8]),
    memory: &[Block],
) {
    let (new, is_done) = (digests(argon2, memory), done.is_ok());
    answer.display_output(done, out);
    answer.display("blocks");
    if is_done {
        answer.display_hex(&new.0);
    } else {
        answer.display_same(new.0 == old.0);
    }
    answer.display("rest");
    answer.display_same(new.1 == old.1);
}

// A call that leaves nothing but the output and the memory.
fn fill_lent(call: &Call<'_, '_>, answer: &Answer, memory: &mut [Block]) {
    let (argon2, password, salt) = inputs(call);
    let (old, mut out) = (digests(argon2, memory), answer.ones(call.count(4)));
    let tag = out.as_mut_slice();
    let done = match call.name {
        "fill_memory" => argon2.fill_memory(password, salt, memory),
        "begin_fill" => argon2.begin_fill(password, salt, tag.len(), memory),
        _ => argon2.hash_password_into_with_memory(password, salt, tag, memory),
    };
    show_filling(answer, done, argon2, &out, old, memory);
}

// How many places there are for the references of all steps.
fn place_count(argon2: &Argon2<'_>) -> Option<usize>
    ensures { IfSome result (λ n.
        n ≡ (context_of argon2.now).t_cost * block_count (context_of argon2.now)) }
{
    let params = argon2.params();
    let count = params.block_count().checked_mul(params.t_cost() as usize)?;
    Some(count)
}

// `hash_password_into_watched .. PLACE..`, with the positions at these places.
fn watch(call: &Call<'_, '_>, answer: &Answer, memory: &mut [Block]) {
    let (argon2, password, salt) = inputs(call);
    let Some(count) = place_count(argon2) else {
        return call.refuse();
    };
    let Ok(mut positions) = Vec::from_elem(answer.alloc, u32::MAX, count) else {
        return answer.refuse();
    };
    let (old, mut out) = (digests(argon2, memory), answer.ones(call.count(4)));
    let (tag, places) = (out.as_mut_slice(), positions.as_mut_slice());
    let (done, mixes) = match argon2.hash_password_into_watched(
        password, salt, tag, memory, places,
    ) {
        Ok(work) => (Ok(()), work.mixes()),
        Err(e) => (Err(e), 0),
    };
    show_filling(answer, done, argon2, &out, old, memory);
    answer.display("mixes");
    answer.display(mixes);
    show_places(call, 5, answer, &positions);
}

// The digest of all positions, and those at the places that the values from a place on say.
fn show_places(call: &Call<'_, '_>, place: usize, answer: &Answer, positions: &[u32]) {
    answer.display("positions");
    answer.display_hex(&digest_of_places(positions));
    for place in place..call.len() {
        let place = call.word(place).parse::<usize>().unwrap_or(usize::MAX);
        answer.display_or_none(positions.get(place));
    }
}

// ---- single steps

// `step_block CONTEXT PASSWORD SALT LENGTH TURNS TURNS TURNS TURNS`: a filling by single steps. The words have the lanes'
// turns in slices 0 to 3 of each pass, a digit for a step. In slice 0 of pass 0 the first two of each lane are no steps.
fn step_all(call: &Call<'_, '_>, answer: &Answer, memory: &mut [Block]) {
    let (argon2, password, salt) = inputs(call);
    let turns = [call.word(5), call.word(6), call.word(7), call.word(8)];
    let count = place_count(argon2).unwrap_or(0);
    let mut positions = answer.list_or_empty(Vec::from_elem(answer.alloc, u32::MAX, count));
    let (old, mut out) = (digests(argon2, memory), answer.ones(call.count(4)));
    let done = argon2.begin_fill(password, salt, out.len(), memory);
    let is_begun = done.is_ok();
    if is_begun {
        let mut is_done = true;
        for pass in 0..argon2.params().t_cost() {
            is_done &= step_pass(argon2, memory, pass, turns, positions.as_mut_slice());
        }
        if !is_done || !finish(argon2, memory, out.as_mut_slice()) {
            call.refuse();
        }
    }
    show_filling(answer, done, argon2, &out, old, memory);
    if is_begun {
        show_places(call, 9, answer, &positions);
    }
}

// Makes the steps of a pass, and keeps the places of their references. Returns whether there are such steps.
fn step_pass(
    argon2: &Argon2<'_>,
    memory: &mut [Block],
    pass: u32,
    turns: [&str; 4],
    positions: &mut [u32],
) -> bool {
    let segment = argon2.params().segment_length();
    let mut is_done = true;
    for (slice, turns) in (0..4u32).zip(turns) {
        let mut columns = [segment.wrapping_mul(slice); 10];
        for turn in turns.as_bytes() {
            let lane = turn.wrapping_sub(b'0');
            match columns.get_mut(lane as usize) {
                Some(column) => {
                    is_done &= step(argon2, memory, [pass, lane as u32, *column], positions);
                    *column = column.wrapping_add(1);
                }
                None => is_done = false,
            }
        }
    }
    is_done
}

// Makes a step, if there is such a step, and keeps the place of its reference. Returns whether there is.
fn step(argon2: &Argon2<'_>, memory: &mut [Block], at: [u32; 3], positions: &mut [u32]) -> bool {
    let [pass, lane, column] = at;
    if pass == 0 && column < 2 {
        return true;
    }
    let params = argon2.params();
    let in_range = pass < params.t_cost()
        && lane < params.p_cost()
        && column < params.lane_length();
    if !in_range || memory.len() < params.block_count() {
        return false;
    }
    let row = pass.wrapping_mul(params.p_cost()).wrapping_add(lane);
    let place = row.wrapping_mul(params.lane_length()).wrapping_add(column);
    let reference = argon2.step_block(memory, pass, lane, column);
    match positions.get_mut(place as usize) {
        Some(position) => {
            *position = reference;
            true
        }
        None => false,
    }
}

// The end of a filling, if its conditions hold. Returns whether they do.
fn finish(argon2: &Argon2<'_>, memory: &[Block], out: &mut [u8]) -> bool {
    let params = argon2.params();
    let fits = params.output_len().is_none() && memory.len() >= params.block_count();
    let is_finished = fits && out.len() >= 4 && out.len() <= 4294967295;
    if is_finished {
        argon2.finish_fill(memory, out);
    }
    is_finished
}

// ---- segments, each lent apart

// `fill_segment CONTEXT PASSWORD SALT LENGTH LANES LANES LANES LANES`: a filling by segments, on blocks of ones. The words have
// the lanes of slices 0 to 3 in the order in which each pass fills them, a digit for a lane. The answer is the tag.
fn fill_apart(call: &Call<'_, '_>, answer: &Answer) {
    let (argon2, password, salt) = inputs(call);
    let lanes = [call.word(5), call.word(6), call.word(7), call.word(8)];
    let (count, mut out) = (argon2.params().block_count(), answer.ones(call.count(4)));
    let mut memory = answer.list_or_empty(Vec::from_elem(answer.alloc, [u64::MAX; 128], count));
    let mut is_done = begin(argon2, password, salt, out.len(), memory.as_mut_slice());
    for pass in 0..argon2.params().t_cost() {
        for (slice, lanes) in (0..4u32).zip(lanes) {
            for lane in lanes.as_bytes() {
                let lane = lane.wrapping_sub(b'0') as u32;
                is_done &= fill(argon2, memory.as_mut_slice(), Segment { pass, slice, lane });
            }
        }
    }
    if !is_done || !finish_apart(argon2, &memory, out.as_mut_slice()) {
        call.refuse();
    }
    answer.display_hex(&out);
}

// The lengths of a segment and of a slice.
fn lengths(argon2: &Argon2<'_>) -> Option<(usize, usize)>
    ensures { IfSome result (λ both. (both.0 ≡ segment_length (context_of argon2.now))
        × (both.1 ≡ slice_length (context_of argon2.now))) }
{
    let params = argon2.params();
    let segment = params.segment_length() as usize;
    let slice = (params.p_cost() as usize).checked_mul(segment)?;
    Some((segment, slice))
}

// Each of these makes its call, if its conditions hold, and returns whether they do.

fn begin(argon2: &Argon2<'_>, pwd: &[u8], salt: &[u8], len: usize, memory: &mut [Words]) -> bool {
    let (Some((_, slice)), Ok(len)) = (lengths(argon2), u32::try_from(len)) else {
        return false;
    };
    let fits = pwd.len() <= MAX_PWD_LEN && salt.len() <= MAX_SALT_LEN && slice <= memory.len();
    if fits {
        let first = memory.split_at_mut(slice).0;
        argon2.begin_slices(argon2.params().data(), pwd, salt, len, first);
    }
    fits
}

fn fill(argon2: &Argon2<'_>, memory: &mut [Words], at: Segment) -> bool {
    let Some((segment, width)) = lengths(argon2) else {
        return false;
    };
    if at.slice > 3 || at.lane >= argon2.params().p_cost() {
        return false;
    }
    let start = (at.slice as usize).checked_mul(width);
    let behind = ((3 - at.slice) as usize).checked_mul(width);
    let (before, lanes, after) = split_apart(memory, start.unwrap_or(0), width);
    let own = split_apart(lanes, segment.wrapping_mul(at.lane as usize), segment).1;
    let fits = start == Some(before.len()) && own.len() == segment && behind == Some(after.len());
    if fits {
        argon2.fill_segment(argon2.params().data(), before, own, after, at);
    }
    fits
}

// The blocks before `place`, the next `count` blocks, and the other blocks. The parts are shorter if the memory ends.
fn split_apart(
    memory: &mut [Words],
    place: usize,
    count: usize,
) -> (&[Words], &mut [Words], &[Words]) {
    let place = place.min(memory.len());
    let (before, rest) = memory.split_at_mut(place);
    let count = count.min(rest.len());
    let (own, after) = rest.split_at_mut(count);
    (before, own, after)
}

fn finish_apart(argon2: &Argon2<'_>, memory: &[Words], out: &mut [u8]) -> bool {
    let Some((_, slice)) = lengths(argon2) else {
        return false;
    };
    let last = memory.split_at(memory.len().saturating_sub(slice)).1;
    let fits = last.len() == slice && !out.is_empty() && out.len() <= MAX_PWD_LEN;
    if fits {
        argon2.finish_slices(last, out);
    }
    fits
}
