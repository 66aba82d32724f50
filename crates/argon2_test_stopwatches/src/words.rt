//! The words of a call, which are read from the first to the last.

/// The words that are still to be read.
#[derive(Drop)]
pub struct Words<'a> {
    rest: &'a str,
}

impl<'a> Words<'a> {
    /// The words of a text.
    pub fn new(text: &'a str) -> Words<'a> {
        Words { rest: text }
    }

    /// Whether each word was read.
    pub fn are_read(&self) -> bool {
        self.rest.is_empty()
    }

    /// The next word.
    pub fn word(&mut self) -> &'a str {
        let (word, rest) = self.split();
        self.rest = rest;
        word
    }

    /// Whether the next word is this one, which then is read.
    pub fn has(&mut self, name: &str) -> bool {
        let (word, rest) = self.split();
        let is_next = word == name;
        if is_next {
            self.rest = rest;
        }
        is_next
    }

    /// The number of the next word, `NAME=NUMBER`, which then is read, or none if it is another word.
    pub fn number(&mut self, name: &str) -> Option<u32> {
        let (word, rest) = self.split();
        let number = match word.split_once('=') {
            Some((found, number)) if found == name => number.parse::<u32>().ok(),
            _ => None,
        };
        if number.is_some() {
            self.rest = rest;
        }
        number
    }

    // The next word, and the words after it.
    fn split(&self) -> (&'a str, &'a str) {
        self.rest.split_once(' ').unwrap_or((self.rest, ""))
    }
}
