//! The values of a call, by their places after its name, which has place 0.
//!
//! - A number is a decimal.
//! - Bytes are written as in a [`Line`]. A text is what its bytes spell.
//! - `none` is no number. No value has a space.
//!
//! A value that is written otherwise, or is not there, is read as some value all the same, and the call remembers that. So
//! what makes the call has no ways out for it.

use crate::context::Contexts;
use crate::drawn::Drawn;
use crate::line::{Line, split_word};
use argon2::Argon2;
use argon2::bound::Bound;
use std::cell::Cell;

/// A call: its name, and its values.
#[derive(Drop)]
pub struct Call<'c, 'a> {
    /// What is called.
    pub name: &'a str,
    line: &'a Line<'a>,
    contexts: &'c Contexts<'a>,
    // The last place that was read.
    last: Cell<usize>,
    is_unread: Cell<bool>,
}

impl<'c, 'a> Call<'c, 'a> {
    /// The call of a line, which may name these contexts.
    pub fn new(line: &'a Line<'a>, contexts: &'c Contexts<'a>) -> Call<'c, 'a> {
        Call {
            name: line.word(0).unwrap_or(""),
            line,
            contexts,
            last: Cell::new(0),
            is_unread: Cell::new(false),
        }
    }

    /// The call as it is written.
    pub(crate) fn text(&self) -> &'a str {
        self.line.call
    }

    /// The answer that it must have, if that is written.
    pub(crate) fn wanted(&self) -> Option<&'a str> {
        self.line.answer
    }

    /// Whether the line is no call, or has other values.
    pub(crate) fn is_unread(&self) -> bool {
        self.is_unread.get() || self.last.get().saturating_add(1) < self.line.len()
    }

    /// Remembers that the line is no call, or has other values.
    pub fn refuse(&self) {
        self.is_unread.set(true);
    }

    /// How many words there are.
    pub fn len(&self) -> usize {
        self.line.len()
    }

    /// The word at a place.
    pub fn word(&self, place: usize) -> &'a str {
        self.last.set(place.max(self.last.get()));
        let word = self.line.word(place);
        if word.is_none() {
            self.refuse();
        }
        word.unwrap_or("")
    }

    /// A number, or none.
    pub fn number(&self, place: usize) -> Option<usize> {
        let word = self.word(place);
        let number = word.parse::<usize>().ok();
        if number.is_none() && word != "none" {
            self.refuse();
        }
        number
    }

    /// A number below 2^32.
    pub fn count(&self, place: usize) -> u32 {
        match self.word(place).parse::<u32>() {
            Ok(count) => count,
            Err(_) => {
                self.refuse();
                0
            }
        }
    }

    /// Some bytes.
    pub fn bytes(&self, place: usize) -> &'a [u8] {
        let word = self.word(place);
        match self.line.hex(place) {
            Some(bytes) => bytes,
            None => word.as_bytes(),
        }
    }

    /// The name and the bytes of `NAME=BYTES`.
    pub(crate) fn option(&self, place: usize) -> (&'a str, &'a [u8]) {
        let (name, value) = split_word(self.word(place));
        match self.line.hex(place) {
            Some(bytes) => (name, bytes),
            None => (name, value.as_bytes()),
        }
    }

    /// A text.
    pub fn str(&self, place: usize) -> &'a str {
        match str::from_utf8(self.bytes(place)) {
            Ok(text) => text,
            Err(_) => {
                self.refuse();
                ""
            }
        }
    }

    /// A context by its name.
    pub fn context(&self, place: usize) -> &'c Argon2<'a> {
        let found = self.contexts.get(self.word(place));
        if found.is_none() {
            self.refuse();
        }
        found.unwrap_or(&self.contexts.default)
    }

    /// A generator: the first four bytes and what is added to each for the next four, as eight bytes.
    pub fn generator(&self, place: usize) -> Drawn {
        match self.bytes(place).as_chunks::<4>() {
            ([first, step], []) => Drawn::new(*first, *step),
            _ => {
                self.refuse();
                Drawn::new([0; 4], [0; 4])
            }
        }
    }

    /// The bound of three numbers.
    pub fn bound(&self, place: usize) -> Bound {
        Bound {
            m_cost: self.count(place),
            t_cost: self.count(place.saturating_add(1)),
            p_cost: self.count(place.saturating_add(2)),
        }
    }
}
