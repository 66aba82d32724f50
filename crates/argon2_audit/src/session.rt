//! An audit of bytes, which it reads in pieces.

ghost use Rattle.std.specs.Prelude.{◌≡◌, ◌≤◌, IsTrue, vec_len};
ghost use Rattle.argon2_audit.specs.declared.session.TheConstants.{MAX_LINE_LEN};

use crate::field::Field;
use crate::finding::{Finding, finding_of};
use crate::options::Options;
use crate::report::{Location, Remarks, remark_on};
use crate::seen::Seen;
use crate::tally::Tally;
use argon2_io::Failure;
use memchr::memchr;
use std::alloc::{AllocError, Global};

/// The most bytes that a line may have, without its line feed.
pub const MAX_LINE_LEN: usize = 4096;

/// The beginning of a line, up to the most bytes that a line may have. `is_long` says that further bytes were dropped.
#[derive(Drop)]
pub struct Line {
    bytes: Vec<u8>,
    is_long: bool,
    ghost fits: { vec_len bytes ≤ MAX_LINE_LEN },
    ghost full: { IsTrue is_long → vec_len bytes ≡ MAX_LINE_LEN },
}

impl Line {
    ghost use Rattle.std.specs.Prelude.{◌≡◌, ◌↔◌, ℕ, List, [], ◌∷◌, ◌++◌, IsTrue, OnOk};
    ghost use Rattle.argon2_audit.specs.Audit.{IsRead};
    ghost use Rattle.argon2_audit.specs.Finding.{IsFinding};

    // Adds bytes to the line.
    fn extend(&mut self, bytes: &[u8]) -> Result<(), AllocError>
        ensures { OnOk result
            ((line : List ℕ) → IsRead self.old line → IsRead self.new (line ++ bytes.now)) }
    {
        let kept = bytes.len().min(MAX_LINE_LEN - self.bytes.len());
        self.bytes.extend_from_slice(&bytes[..kept])?;
        self.is_long |= kept < bytes.len();
        Ok(())
    }

    // What is found in the line, with the text in this field. Nothing of the next line is read yet.
    fn end(&mut self, field: Field) -> Finding
        ensures finding { (line : List ℕ) → IsRead self.old line → IsFinding field line result }
        ensures next { IsRead self.new [] }
    {
        let finding = if self.is_long {
            Finding::TooLong
        } else {
            finding_of(self.bytes.as_slice(), field)
        };
        self.bytes.clear();
        self.is_long = false;
        finding
    }
}

/// The audit of the lines so far, and the line that is being read.
#[derive(Drop)]
pub struct Session {
    pub options: Options,
    pub tally: Tally,
    pub seen: Seen,
    line: Line,
}

impl Session {
    ghost use Rattle.std.specs.Prelude.{◌≡◌, ◌<◌, ◌≤◌, ◌+◌, ◌^◌, ◌-◌, ℕ, List, [], ◌∷◌, length, OnOk};
    ghost use Rattle.argon2_audit.specs.Audit.{IsAt, IsBefore, IsTallied};

    /// An audit of no bytes.
    pub fn new(alloc: Global, options: Options) -> Session
        ensures lines { result.tally.lines ≡ 0 }
        ensures none { IsBefore options result [] [] }
    {
        Session {
            options,
            tally: Tally {
                lines: 0,
                counts: [0; 10],
                short_salts: 0,
                equal_salts: 0,
                other_keys: 0,
            },
            seen: Seen::new(alloc),
            line: Line {
                bytes: Vec::new(alloc),
                is_long: false,
            },
        }
    }

    /// Reads more bytes of a file, with remarks on the lines that end in them. `file` is the end of the files before.
    pub fn add<S: Remarks>(
        &mut self,
        bytes: &[u8],
        file: Location<'_>,
        remarks: &mut S,
    ) -> Result<(), Failure>
        requires { self.old.tally.lines + length bytes.now < 2 ^ 64 }
        ensures lines { OnOk result
            (self.new.tally.lines ≤ self.old.tally.lines + length bytes.now) }
        ensures taken { OnOk result ((options : Options) (all : List ℕ)
            → IsBefore options self.old all bytes.now → IsBefore options self.new all []) }
    {
        let mut rest = bytes;
        'lines: while let Some(end) = memchr(b'\n', rest) {
            self.line.extend(&rest[..end])?;
            self.end_line(file, remarks)?;
            rest = &rest[end + 1..];
        }
        self.line.extend(rest)?;
        Ok(())
    }

    /// Ends the last line if it has no line feed.
    pub fn finish<S: Remarks>(&mut self, file: Location<'_>, remarks: &mut S) -> Result<(), Failure>
        requires { self.old.tally.lines < 2 ^ 64 - 1 }
        ensures { OnOk result ((options : Options) (bytes : List ℕ)
            → IsBefore options self.old bytes [] → IsTallied options bytes self.new.tally) }
    {
        if self.line.bytes.is_empty() {
            return Ok(());
        }
        self.end_line(file, remarks)
    }

    // Ends a line, and counts it unless memory is refused.
    fn end_line<S: Remarks>(&mut self, file: Location<'_>, remarks: &mut S) -> Result<(), Failure>
        requires { self.old.tally.lines < 2 ^ 64 - 1 }
        ensures lines { OnOk result (self.new.tally.lines ≡ self.old.tally.lines + 1) }
        ensures ended { OnOk result ((options : Options) (lines : List (List ℕ)) (rest : List ℕ)
            → IsAt options self.old lines rest → IsAt options self.new (rest ∷ lines) []) }
    {
        let options = self.options;
        let limits = options.limits;
        let finding = self.line.end(options.field);
        let is_equal = self.seen.add(&finding)?;
        self.tally.add(
            finding.class(&limits),
            finding.has_short_salt(&limits),
            is_equal,
            finding.shows_other_key(&limits),
        );
        remark_on(
            remarks,
            file.at_line(self.tally.lines),
            &finding,
            &options,
            is_equal,
        )?;
        Ok(())
    }
}
