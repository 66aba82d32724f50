//! A stream in memory.

use std::alloc::{AllocError, Global};
use std::io::{self, ErrorKind, Write};

/// A stream that keeps what is written, and fails after some calls.
#[derive(Drop)]
pub struct Stream {
    bytes: Vec<u8>,
    // How many calls it still takes.
    calls: u32,
}

impl Stream {
    /// An empty stream that fails after this number of calls.
    pub fn new(alloc: Global, calls: u32) -> Stream {
        Stream {
            bytes: Vec::new(alloc),
            calls,
        }
    }

    /// What was written, with `\n` for each line feed.
    ///
    /// # Errors
    /// `AllocError`, if memory is refused.
    pub fn text(&self) -> Result<String, AllocError> {
        let text = str::from_utf8(self.bytes.as_slice()).unwrap_or("?");
        text.replace(*self.bytes.allocator(), '\n', "\\n")
    }

    fn call(&mut self) -> io::Result<()> {
        if self.calls == 0 {
            return Err(io::Error::from(ErrorKind::Other));
        }
        self.calls -= 1;
        Ok(())
    }
}

impl Write for Stream {
    fn write(&mut self, buf: &[u8]) -> io::Result<usize> {
        self.call()?;
        self.bytes.extend_from_slice(buf)?;
        Ok(buf.len())
    }

    fn flush(&mut self) -> io::Result<()> {
        self.call()
    }
}
