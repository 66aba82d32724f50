//! The input: files, one after another.

use argon2_audit::run::Named;
use std::fs::File;
use std::io::{Read, Stdin};
use std::{fs, io};

/// A file, or standard input.
#[derive(Drop)]
enum Input {
    Standard(Stdin),
    File(File),
}

/// The files of these names one after another, `-` for standard input, each opened once the one before has ended. If
/// one ends within a line, a line feed ends that line.
#[derive(Drop)]
pub struct Inputs<'a> {
    rt: &'a HostRuntime,
    names: &'a [&'a str],
    // The number of files that were opened. The last of them is read.
    opened: usize,
    input: Option<Input>,
    ends_line: bool,
}

impl<'a> Inputs<'a> {
    /// The files of these names.
    pub fn new(rt: &'a HostRuntime, names: &'a [&'a str]) -> Inputs<'a> {
        Inputs {
            rt,
            names,
            opened: 0,
            input: None,
            ends_line: true,
        }
    }

    // Opens the next file, and returns whether it exists in the list.
    fn open_next(&mut self) -> io::Result<bool> {
        let Some(name) = self.names.get(self.opened) else {
            return Ok(false);
        };
        self.opened = self.opened.saturating_add(1);
        self.input = Some(if *name == "-" {
            Input::Standard(self.rt.stdin())
        } else {
            Input::File(fs::open(self.rt, *name)?)
        });
        Ok(true)
    }
}

impl Named for Inputs<'_> {
    fn name(&self) -> &str {
        match self.names.get(self.opened.saturating_sub(1)) {
            Some(name) if *name != "-" => name,
            _ => "standard input",
        }
    }

    fn number(&self) -> usize {
        if self.names.len() > 1 { self.opened } else { 0 }
    }
}

impl Read for Inputs<'_> {
    fn read(&mut self, buf: &mut [u8]) -> io::Result<usize> {
        if buf.is_empty() {
            return Ok(0);
        }
        for _ in 0..u64::MAX {
            let count = match &mut self.input {
                Some(Input::Standard(input)) => input.read(buf)?,
                Some(Input::File(file)) => file.read(buf)?,
                None => 0,
            };
            if count > 0 {
                self.ends_line = buf[count - 1] == b'\n';
                return Ok(count);
            }
            self.input = None;
            if !self.ends_line {
                buf[0] = b'\n';
                self.ends_line = true;
                return Ok(1);
            }
            if !self.open_next()? {
                break;
            }
        }
        Ok(0)
    }
}
