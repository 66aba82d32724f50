//! Another scheduler: in each slice the lanes take turns, one column each.
//!
//! Hashing fills one lane of a slice after the other. The law of
//! [`slice_interleaving`](argon2::laws::slice_interleaving) says that any other order gives the
//! same tag.

ghost use Rattle.std.specs.Prelude.{◌≡◌, ◌<◌, ◌≤◌, OnOk, OnErr, length};
ghost use Rattle.argon2.specs.Argon2.{context_of};
ghost use Rattle.argon2.specs.Rfc9106.{IsValid, block_count, tag_of};
ghost use Rattle.argon2.specs.Hashing.{KeepsRest, blocks_of, refusal_of};
ghost use Rattle.argon2.specs.Refusals.{answer_unless};
ghost use Rattle.argon2.specs.Steps.{run};
ghost use Rattle.argon2_example_uses.specs.Scheduler.{lanes_in_rounds};

use argon2::laws::slice_interleaving;
use argon2::{Argon2, Block, Result};

/// Writes the tag of a password and a salt into `out`, by single steps on the first blocks of `memory`; the
/// blocks after them stay.
///
/// # Errors
/// The errors of [`Argon2::hash_password_into_with_memory`]; output and memory are then as before.
pub fn hash_in_rounds(
    argon2: &Argon2<'_>,
    password: &[u8],
    salt: &[u8],
    out: &mut [u8],
    memory: &mut [Block],
) -> Result<()>
    ensures answer { result ≡ answer_unless (refusal_of argon2.now (length out.old) password.now
        salt.now (length memory.old)) tt }
    ensures tag { OnOk result (out.new
        ≡ tag_of (context_of argon2.now) password.now salt.now (length out.old)) }
    ensures rest { KeepsRest (context_of argon2.now) memory.old memory.new }
    ensures same_output { OnErr result (out.new ≡ out.old) }
    ensures same_memory { OnErr result (memory.new ≡ memory.old) }
{
    argon2.begin_fill(password, salt, out.len(), memory)?;
    for pass in 0..argon2.params().t_cost() {
        for slice in 0..4 {
            fill_slice(argon2, memory, pass, slice);
        }
    }
    slice_interleaving();
    argon2.finish_fill(memory, out);
    Ok(())
}

// Fills a slice in rounds.
fn fill_slice(argon2: &Argon2<'_>, memory: &mut [Block], pass: u32, slice: u32)
    requires valid { IsValid (context_of argon2.now) }
    requires in_passes { pass < (context_of argon2.now).t_cost }
    requires in_slices { slice < 4 }
    requires room { block_count (context_of argon2.now) ≤ length memory.old }
    ensures blocks { let context = context_of argon2.now in blocks_of context memory.new
        ≡ run context pass slice (lanes_in_rounds context pass slice) (blocks_of context memory.old) }
    ensures rest { KeepsRest (context_of argon2.now) memory.old memory.new }
{
    let params = argon2.params();
    let segment = params.segment_length();
    let first = if pass == 0 && slice == 0 { 2 } else { 0 };
    for index in first..segment {
        for lane in 0..params.p_cost() {
            argon2.step_block(memory, pass, lane, slice * segment + index);
        }
    }
}
