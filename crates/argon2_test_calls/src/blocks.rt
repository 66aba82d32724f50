//! Calls on BLAKE2b and blocks. A block is 1024 bytes; a digest is the BLAKE2b digest of 8 bytes.

ghost use Rattle.std.specs.Prelude.{◌≤◌, length};

use crate::answer::Answer;
use crate::call::Call;
use crate::plain;
use argon2::blake2b::Blake2b;
use argon2::blake2b_long::blake2b_long;
use argon2::block::Words;
use argon2::{Block, Work};
use std::convert::AsSlice;
use std::slice;

pub(crate) fn make(call: &Call<'_, '_>, answer: &Answer) -> bool {
    match call.name {
        "Blake2b" => digest(call, answer),
        "blake2b_long" => long_digest(call, answer),
        // `BLOCK BLOCK`: the digest of their mixing, and the count of mixings.
        "Block::mix" => {
            let mut work = Work::new();
            let mixed = Block::mix(&block(call, 1), &block(call, 2), &mut work);
            show_block(answer, &mixed);
            answer.display("mixes");
            answer.display(work.mixes());
        }
        // `BLOCK BLOCK`: the digests of their exclusive or, made in a copy of the first and in a new block.
        "Block::bitxor" => {
            let (x, y) = (block(call, 1), block(call, 2));
            let mut copy = x.clone().unwrap_or_default();
            copy ^= &y;
            show_block(answer, &copy);
            show_block(answer, &(x ^ &y));
        }
        // `BLOCK`: the digest of the block then.
        "Block::zeroize" => {
            let mut x = block(call, 1);
            x.zeroize();
            show_block(answer, &x);
        }
        // `BLOCK PLACE`: the word at the place.
        "Block::as_slice" => {
            answer.display_or_none(block(call, 1).as_slice().get(call.count(2) as usize));
        }
        "Block::fmt" => answer.debug(block(call, 1)),
        _ => return false,
    }
    true
}

// `LENGTH MESSAGE CUT`: the hash of a message in three pieces: the first CUT bytes, none, and the other bytes.
fn long_digest(call: &Call<'_, '_>, answer: &Answer) {
    let (message, cut) = (call.bytes(2), call.count(3) as usize);
    let mut out = answer.ones(call.count(1));
    let (first, second) = message.split_at(cut.min(message.len()));
    let done = blake2b_long(&[first, b"", second], out.as_mut_slice());
    answer.display_output(done, &out);
}

// `LENGTH MESSAGE PIECE`: the digest of a message in pieces of PIECE bytes, except for the last piece.
fn digest(call: &Call<'_, '_>, answer: &Answer) {
    let (mut buffer, len) = ([0; 64], call.count(1) as usize);
    if len == 0 || len > 64 {
        return call.refuse();
    }
    let out = &mut buffer[..len];
    write_digest(call.bytes(2), call.count(3) as usize, out);
    answer.display_hex(out);
}

fn write_digest(message: &[u8], piece: usize, out: &mut [u8])
    requires some { 1 ≤ length out.old }
    requires few { length out.old ≤ 64 }
{
    let mut hasher = Blake2b::new(out.len());
    let mut rest = message;
    for _ in 0..message.len() {
        let (first, others) = rest.split_at(piece.min(rest.len()));
        hasher.update(first);
        rest = others;
    }
    hasher.finalize_into(out);
}

// The digest of blocks.
pub(crate) fn digest_of(blocks: &[Block]) -> [u8; 8] {
    let mut out = [0; 8];
    let mut hasher = Blake2b::new(8);
    for block in blocks {
        hasher.update(&block.to_bytes());
    }
    hasher.finalize_into(&mut out);
    out
}

// The digest of numbers of four bytes.
pub(crate) fn digest_of_places(places: &[u32]) -> [u8; 8] {
    let mut out = [0; 8];
    let mut hasher = Blake2b::new(8);
    for place in places {
        hasher.update(&place.to_le_bytes());
    }
    hasher.finalize_into(&mut out);
    out
}

// The block of 1024 bytes.
fn block(call: &Call<'_, '_>, place: usize) -> Block {
    let mut block = Block::default();
    match call.bytes(place).as_chunks::<1024>() {
        ([bytes], []) => block.load(bytes),
        _ => call.refuse(),
    }
    block
}

fn show_block(answer: &Answer, block: &Block) {
    answer.display_hex(&digest_of(slice::from_ref(block)));
}

fn words(block: &Block) -> Words {
    let mut words = [0; 128];
    words.copy_from_slice(block.as_slice());
    words
}

// The block that `put_mixed` makes of two.
fn put_mixed(x: &Block, y: &Block) -> Block {
    let (mut xor, mut block) = (*x, Block::new());
    xor ^= y;
    block.put_mixed(&xor, false, &mut Work::new());
    block
}

// How many pairs of blocks, each with each of the others, both calls that mix and the plain body mix alike.
pub(crate) fn alike_pairs(blocks: &[Block], others: &[Block]) -> u32 {
    let mut count: u32 = 0;
    for x in blocks {
        for y in others {
            let mixed = words(&Block::mix(x, y, &mut Work::new()));
            let is_plain = mixed == plain::mix(&words(x), &words(y));
            let is_alike = is_plain && mixed == words(&put_mixed(x, y));
            count = count.wrapping_add(is_alike as u32);
        }
    }
    count
}
