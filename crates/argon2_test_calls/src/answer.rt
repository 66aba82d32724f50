//! The answer of a call, word by word, and how many answers are as their lines have them.

use crate::call::Call;
use crate::drawn::Drawn;
use std::alloc::{AllocError, Global};
use std::cell::Cell;
use std::fmt::{Debug, Display};
use std::io::{self, Write};

/// What is answered. Calls add to it through a shared reference, so that a call of it is cheap to prove.
#[derive(Drop)]
pub struct Answer {
    /// What the calls allocate by.
    pub alloc: Global,
    text: Cell<String>,
    is_refused: Cell<bool>,
    right: Cell<u32>,
    wrong: Cell<u32>,
}

impl Answer {
    /// No answer yet.
    pub fn new(alloc: Global) -> Answer {
        Answer {
            alloc,
            text: Cell::new(String::new(alloc)),
            is_refused: Cell::new(false),
            right: Cell::new(0),
            wrong: Cell::new(0),
        }
    }

    /// Writes a call with its answer, unless its line has the same answer, and begins anew.
    ///
    /// # Errors
    /// The first failure of the writer.
    pub fn write<W: Write>(&self, call: &Call<'_, '_>, output: &mut W) -> io::Result<()> {
        let (text, answer) = (call.text(), self.text.replace(String::new(self.alloc)));
        let answer = if self.is_refused.replace(false) {
            "no memory"
        } else if call.is_unread() {
            "?"
        } else {
            answer.as_str().trim_start()
        };
        if call.wanted() == Some(answer) {
            self.right.set(self.right.get().saturating_add(1));
            return Ok(());
        }
        if call.wanted().is_some() {
            self.wrong.set(self.wrong.get().saturating_add(1));
        }
        writeln!(output, "{text} = {answer}")
    }

    /// Writes how many answers are as their lines have them, and how many are not, unless no line has one.
    ///
    /// # Errors
    /// The first failure of the writer.
    pub fn write_counts<W: Write>(&self, output: &mut W) -> io::Result<()> {
        let (right, wrong) = (self.right.get(), self.wrong.get());
        if right == 0 && wrong == 0 {
            return Ok(());
        }
        writeln!(output, "{right} right, {wrong} wrong")
    }

    /// Remembers that memory was refused for a value or for the answer.
    pub fn refuse(&self) {
        self.is_refused.set(true);
    }

    /// A list, which is empty if memory was refused for it.
    pub fn list_or_empty<T: Drop>(&self, list: Result<Vec<T>, AllocError>) -> Vec<T> {
        if list.is_err() {
            self.refuse();
        }
        list.unwrap_or(Vec::new(self.alloc))
    }

    /// As many bytes ff as a length says.
    pub fn ones(&self, len: u32) -> Vec<u8> {
        self.list_or_empty(Vec::from_elem(self.alloc, 0xff, len as usize))
    }

    /// A value.
    pub fn display<T: Display + Drop>(&self, value: T) {
        let mut text = self.text.replace(String::new(self.alloc));
        if write!(text, " {value}").is_err() {
            self.refuse();
        }
        self.text.set(text);
    }

    /// An error, or another value by its name.
    pub fn debug<T: Debug + Drop>(&self, value: T) {
        let mut text = self.text.replace(String::new(self.alloc));
        if write!(text, " {value:?}").is_err() {
            self.refuse();
        }
        self.text.set(text);
    }

    /// A value, or `none`.
    pub fn display_or_none<T: Display + Drop>(&self, value: Option<T>) {
        match value {
            Some(value) => self.display(value),
            None => self.display("none"),
        }
    }

    /// Bytes as hex digits.
    pub fn display_hex(&self, bytes: &[u8]) {
        match hex::encode(self.alloc, bytes) {
            Ok(digits) => self.display(digits.as_str()),
            Err(_) => self.refuse(),
        }
    }

    /// The value that a call returned, or its error.
    pub fn display_result<T: Display + Drop, E: Debug + Drop>(&self, done: Result<T, E>) {
        match done {
            Ok(value) => self.display(value),
            Err(e) => self.debug(e),
        }
    }

    /// The value that a call returned, by its name, or its error.
    pub fn debug_result<T: Debug + Drop, E: Debug + Drop>(&self, done: Result<T, E>) {
        match done {
            Ok(value) => self.debug(value),
            Err(e) => self.debug(e),
        }
    }

    /// `Ok`, or the error of a call.
    pub fn display_done<E: Debug + Drop>(&self, done: Result<(), E>) {
        match done {
            Ok(()) => self.display("Ok"),
            Err(e) => self.debug(e),
        }
    }

    /// The bytes that a call has written, or `Ok` if they are ff as before; or its error, and whether they are.
    pub fn display_output<E: Debug + Drop>(&self, done: Result<(), E>, out: &[u8]) {
        let is_same = out.iter().all(|byte| *byte == 0xff);
        match done {
            Ok(()) if is_same => self.display("Ok"),
            Ok(()) => self.display_hex(out),
            Err(e) => {
                self.debug(e);
                self.display_same(is_same);
            }
        }
    }

    /// Whether something is the same as before a call.
    pub fn display_same(&self, is_same: bool) {
        self.display(if is_same { "same" } else { "changed" });
    }

    /// The value that a call returned. If it returned an error, that is the answer.
    pub fn ok<T: Drop, E: Debug + Drop>(&self, done: Result<T, E>) -> Option<T> {
        match done {
            Ok(value) => Some(value),
            Err(e) => {
                self.debug(e);
                None
            }
        }
    }

    /// How many bytes a generator has drawn.
    pub fn display_drawn(&self, rng: &Drawn) {
        self.display("drawn");
        self.display(rng.count());
    }
}
