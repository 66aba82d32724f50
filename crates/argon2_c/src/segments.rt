//! Hashing on memory that the C lends, by a call for each segment, so that threads can share the lanes of a
//! slice.
//!
//! The memory is laid out slice by slice, in each slice lane by lane: with segments of S = m / (4 p)
//! blocks, the block of a lane and a column is at ((column / S) * p + lane) * S + column % S.

ghost use Rattle.std.specs.Prelude.{◌≡◌, ◌≢◌, ◌↔◌, ◌*◌, ◌<◌, ◌≤◌, ◌^◌, ℕ, List, [], length, IsTrue};
ghost use Rattle.argon2_base.specs.Block.{bytes_of};
ghost use Rattle.argon2_base.specs.LongHash.{long_hash};
ghost use Rattle.argon2.specs.Rfc9106.{first_block, segment_length};
ghost use Rattle.argon2.specs.Argon2.{context_of};
ghost use Rattle.argon2.specs.Refusals.{max_len};
ghost use Rattle.argon2.specs.Segments.{AreLengths, BeginsSlices, FillsSegment, last_of_slice, slice_length};
ghost use Rattle.argon2_c.specs.Requests.{request_context, IsFaultless};

use crate::code::{INCORRECT_PARAMETER, OK};
use crate::hash::hashing;
use crate::request::Request;
use argon2::{Argon2, MAX_PWD_LEN, MAX_SALT_LEN, MIN_SALT_LEN, Params, Segment};
use argon2_base::block::Words;

/// A segment, and the pass in which it is filled.
#[repr(C)]
#[derive(Clone, Copy)]
pub struct SegmentAt {
    /// The pass, from 0 on.
    pub pass: u32,
    /// The slice, from 0 to 3.
    pub slice: u32,
    /// The lane, from 0 on.
    pub lane: u32,
}

/// Writes columns 0 and 1 of each lane into the first slice, and returns 0. Returns -25 if the request has a
/// fault, null pointers, threads and callbacks aside, or if the length of `slice` is not the length of a slice; nothing
/// is then written. It allocates nothing.
#[unsafe(no_mangle)]
pub extern "C" fn argon2_c_begin(
    request: &Request,
    pwd: &[u8],
    salt: &[u8],
    secret: &[u8],
    associated: &[u8],
    output: usize,
    slice: &mut [Words],
) -> i32
    ensures taken { (result ≡ OK) ↔ IsFaultless request.now output (length pwd.now) (length salt.now)
        (length secret.now) (length associated.now)
        × (length slice.old ≡ slice_length (request_context request.now [] [])) }
    ensures begins { result ≡ OK → let context = request_context request.now secret.now associated.now in
        BeginsSlices context (first_block context pwd.now salt.now output) slice.old slice.new }
    ensures refused { result ≢ OK → (result ≡ INCORRECT_PARAMETER) × (slice.new ≡ slice.old) }
{
    let Some(argon2) = hashing(request, secret, associated.len()) else {
        return INCORRECT_PARAMETER;
    };
    if !are_lengths(output, pwd.len(), salt.len()) || slice.len() != slice_len(&argon2) {
        return INCORRECT_PARAMETER;
    }
    argon2.begin_slices(associated, pwd, salt, output as u32, slice);
    OK
}

/// Fills the segment `own` of a lane in a pass, and returns 0. `before` holds the slices before its slice, and `after`
/// the slices after it. Returns -25 if the request has a fault, null pointers, threads, callbacks and the lengths of
/// output, password and salt aside, or if the segment does not exist or a length of the three does not fit it;
/// nothing is then written. It allocates nothing.
#[unsafe(no_mangle)]
pub extern "C" fn argon2_c_segment(
    request: &Request,
    secret: &[u8],
    associated: &[u8],
    before: &[Words],
    own: &mut [Words],
    after: &[Words],
    at: &SegmentAt,
) -> i32
    ensures taken { (result ≡ OK) ↔ IsFaultless request.now 4 0 8 (length secret.now)
        (length associated.now)
        × AreLengths (request_context request.now [] []) at.now.slice at.now.lane (length before.now)
        (length own.old) (length after.now) }
    ensures fills { result ≡ OK → FillsSegment (request_context request.now secret.now associated.now)
        at.now.pass at.now.slice at.now.lane before.now own.old own.new after.now }
    ensures refused { result ≢ OK → (result ≡ INCORRECT_PARAMETER) × (own.new ≡ own.old) }
{
    let Some(argon2) = hashing(request, secret, associated.len()) else {
        return INCORRECT_PARAMETER;
    };
    if !fits(&argon2, before.len(), own.len(), after.len(), at) {
        return INCORRECT_PARAMETER;
    }
    let segment = Segment {
        pass: at.pass,
        slice: at.slice,
        lane: at.lane,
    };
    argon2.fill_segment(associated, before, own, after, segment);
    OK
}

/// Writes the tag into `out`, and returns 0. `last` is the last slice. Returns -25 if the request has a fault, null
/// pointers, threads, callbacks and the lengths of the inputs aside, or if the length of `last` is not the length
/// of a slice; nothing is then written. It allocates nothing.
#[unsafe(no_mangle)]
#[tactic(auto, unfolding(argon2::specs::Rfc9106::xor_lanes))]
pub extern "C" fn argon2_c_finish(request: &Request, last: &[Words], out: &mut [u8]) -> i32
    ensures taken { (result ≡ OK) ↔ IsFaultless request.now (length out.old) 0 8 0 0
        × (length last.now ≡ slice_length (request_context request.now [] [])) }
    ensures tag { (secret associated : List ℕ) → result ≡ OK → out.new ≡ long_hash
        (length out.old)
        (bytes_of (last_of_slice (request_context request.now secret associated) last.now)) }
    ensures refused { result ≢ OK → (result ≡ INCORRECT_PARAMETER) × (out.new ≡ out.old) }
{
    let Some(argon2) = hashing(request, &[], 0) else {
        return INCORRECT_PARAMETER;
    };
    if !are_lengths(out.len(), 0, MIN_SALT_LEN) || last.len() != slice_len(&argon2) {
        return INCORRECT_PARAMETER;
    }
    argon2.finish_slices(last, out);
    OK
}

// Whether an output, a password and a salt may have these lengths.
fn are_lengths(output: usize, pwd: usize, salt: usize) -> bool
    ensures { IsTrue result ↔ (4 ≤ output) × (output ≤ max_len) × (pwd ≤ max_len) × (8 ≤ salt)
        × (salt ≤ max_len) }
{
    Params::MIN_OUTPUT_LEN <= output
        && output <= Params::MAX_OUTPUT_LEN
        && pwd <= MAX_PWD_LEN
        && MIN_SALT_LEN <= salt
        && salt <= MAX_SALT_LEN
}

// The number of blocks of a segment.
fn segment_len(argon2: &Argon2<'_>) -> usize
    ensures value { result ≡ segment_length (context_of argon2.now) }
{
    argon2.params().lane_length() as usize / 4
}

// The number of blocks of a slice.
fn slice_len(argon2: &Argon2<'_>) -> usize
    ensures value { result ≡ slice_length (context_of argon2.now) }
    ensures small { 4 * result < 2 ^ 32 }
{
    argon2.params().block_count() / 4
}

// Whether the segment exists, and these are the lengths of the slices before its slice, of the segment, and of the slices after.
fn fits(argon2: &Argon2<'_>, before: usize, own: usize, after: usize, at: &SegmentAt) -> bool
    ensures { IsTrue result ↔ AreLengths (context_of argon2.now) at.now.slice at.now.lane before
        own after }
{
    let blocks = slice_len(argon2);
    at.slice < 4
        && at.lane < argon2.params().p_cost()
        && before == at.slice as usize * blocks
        && own == segment_len(argon2)
        && after == (3 - at.slice) as usize * blocks
}
