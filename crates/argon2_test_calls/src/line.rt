//! A call as a line writes it: its words, the bytes that they say, and the answer that it must have.
//!
//! `COUNT*HEX` are bytes in hex, COUNT times. Several of these, joined by `+`, are their bytes one after another. Any other word
//! says the bytes of its text.

use argon2::phc::read_decimal;
use hex::FromHexError;
use std::alloc::{AllocError, Global};

/// A call, its answer if the line has one, and the bytes of the words that are in hex.
#[derive(Drop)]
pub struct Line<'a> {
    /// The call as it is written.
    pub call: &'a str,
    /// What stands after ` = `.
    pub answer: Option<&'a str>,
    // An entry for each word of the call.
    bytes: Vec<Option<Vec<u8>>>,
}

impl<'a> Line<'a> {
    /// How many words it has.
    pub fn len(&self) -> usize {
        self.bytes.len()
    }

    /// The word at a place, if there is one.
    pub fn word(&self, place: usize) -> Option<&'a str> {
        self.call.split(' ').nth(place)
    }

    /// The bytes of the word at a place, if it is in hex. That may stand after a name, as in `NAME=COUNT*HEX`.
    pub fn hex(&self, place: usize) -> Option<&[u8]> {
        match self.bytes.get(place) {
            Some(Some(bytes)) => Some(bytes),
            _ => None,
        }
    }
}

/// The lines of a text that have a call: those that are empty or begin with `#` have none.
///
/// # Errors
/// `AllocError`, if memory is refused.
pub fn lines_of(alloc: Global, text: &str) -> Result<Vec<Line<'_>>, AllocError> {
    let mut lines = Vec::new(alloc);
    for text in text.lines() {
        if !text.is_empty() && !text.starts_with('#') {
            lines.push(read_line(alloc, text)?)?;
        }
    }
    Ok(lines)
}

fn read_line(alloc: Global, text: &str) -> Result<Line<'_>, AllocError> {
    let (call, answer) = match text.split_once(" = ") {
        Some((call, answer)) => (call, Some(answer)),
        None => (text, None),
    };
    let bytes = bytes_of(alloc, call)?;
    Ok(Line {
        call,
        answer,
        bytes,
    })
}

fn bytes_of(alloc: Global, call: &str) -> Result<Vec<Option<Vec<u8>>>, AllocError> {
    let mut all = Vec::new(alloc);
    for word in call.split(' ') {
        all.push(decode(alloc, split_word(word).1)?)?;
    }
    Ok(all)
}

// What stands before and after the first `=`.
pub(crate) fn split_word(word: &str) -> (&str, &str) {
    match word.split_once('=') {
        Some((name, value)) => (name, value),
        None => ("", word),
    }
}

// The bytes of a word in hex.
fn decode(alloc: Global, word: &str) -> Result<Option<Vec<u8>>, AllocError> {
    let (mut bytes, mut is_hex) = (Vec::new(alloc), true);
    for piece in word.split('+') {
        is_hex &= read_piece(piece, &mut bytes)?;
    }
    Ok(if is_hex { Some(bytes) } else { None })
}

// Puts the bytes of a piece after others. Returns whether it is such a piece.
fn read_piece(piece: &str, bytes: &mut Vec<u8>) -> Result<bool, AllocError> {
    let Some((count, digits)) = piece.split_once('*') else {
        return Ok(false);
    };
    let Some(count) = read_decimal(count) else {
        return Ok(false);
    };
    match hex::decode(*bytes.allocator(), digits) {
        Ok(repeated) => {
            for _ in 0..count {
                bytes.extend_from_slice(&repeated)?;
            }
            Ok(true)
        }
        Err(FromHexError::OutOfMemory) => Err(AllocError),
        Err(_) => Ok(false),
    }
}
