//! What is written: remarks on lines, and the table.

use crate::claim::Claim;
use crate::entry::Entry;
use crate::finding::{Class, Finding};
use crate::kind::Kind;
use crate::limits::Limits;
use crate::options::Options;
use crate::session::Session;
use argon2::Algorithm;
use argon2::password_hash::Error;
use argon2_io::Failure;
use argon2_schemes::Scheme;
use std::fmt::Display;
use std::io::Write;
use std::{fmt, io};

// The head of the table of kinds.
const KINDS: &str = "\nalgorithm  version           m           t         p       lines";

/// The file and the number of a line.
#[derive(Clone, Copy)]
pub struct Location<'a> {
    /// The name of the file, if several files are read. Lines show it so that a terminal acts on none of its characters: a
    /// control character as `\x` and the two digits of its code, and `\` twice.
    pub file: Option<&'a str>,
    /// The line's number in its file.
    pub line: u64,
}

impl Location<'_> {
    /// The location of the line with the number `line` among all lines. `self` is the end of the files before: its line is the
    /// number of their lines.
    pub fn at_line(self, line: u64) -> Self {
        Location {
            file: self.file,
            line: line.saturating_sub(self.line),
        }
    }
}

impl Display for Location<'_> {
    fn fmt<W: fmt::Write>(&self, f: &mut fmt::Formatter<W>) -> fmt::Result {
        let Some(file) = self.file else {
            return write!(f, "line {}", self.line);
        };
        for c in file.chars() {
            match c {
                '\\' => f.write_str("\\\\")?,
                c if c.is_control() => write!(f, "\\x{:02x}", u32::from(c))?,
                c => f.write_char(c)?,
            }
        }
        write!(f, ":{}", self.line)
    }
}

/// Why a line is not sound. A remark shows nothing of the name, the salt and the hash.
#[derive(Drop)]
pub enum Remark<'a> {
    /// A code, and what it means.
    Text(&'static str, &'static str),
    Refused(&'a Error),
    Other(Scheme),
    /// An algorithm, and the required algorithm.
    Algorithm(Algorithm, Algorithm),
    /// A code, the letter of a cost or of the version, its value, and the least value.
    Number(&'static str, char, u32, u32),
    /// A code, `salt` or `hash`, its length, and the least length.
    Length(&'static str, &'static str, u32, u32),
}

impl Remark<'_> {
    /// The code of the remark, which stays if its words change.
    pub fn code(&self) -> &'static str {
        match self {
            Remark::Text(code, _) => code,
            Remark::Refused(_) => "outside",
            Remark::Other(_) => "other",
            Remark::Algorithm(..) => "algorithm",
            Remark::Number(code, ..) => code,
            Remark::Length(code, ..) => code,
        }
    }
}

impl Display for Remark<'_> {
    fn fmt<W: fmt::Write>(&self, f: &mut fmt::Formatter<W>) -> fmt::Result {
        match self {
            Remark::Text(_, text) => f.write_str(text),
            Remark::Refused(error) => write!(f, "{error}"),
            Remark::Other(scheme) => write!(f, "{}, not Argon2", scheme.name()),
            Remark::Algorithm(has, required) => write!(f, "{has} is not {required}"),
            Remark::Number(_, name, has, least) => write!(f, "{name}={has} is below {least}"),
            Remark::Length(_, of, has, least) => write!(
                f,
                "a {of} of {has} bytes is below {least}"
            ),
        }
    }
}

/// Receives remarks on lines.
pub trait Remarks {
    /// Receives a remark on a line.
    fn add(&mut self, location: Location<'_>, remark: Remark<'_>) -> Result<(), Failure>;
}

/// Writes each remark as a line.
#[derive(Drop)]
pub struct Lines<'a, W: Write> {
    pub output: &'a mut W,
}

impl<W: Write> Remarks for Lines<'_, W> {
    fn add(&mut self, location: Location<'_>, remark: Remark<'_>) -> Result<(), Failure> {
        writeln!(self.output, "{location}: {remark}")?;
        Ok(())
    }
}

/// Adds the remarks on a line, if remarks are asked for: why the line does not count as sound.
pub fn remark_on<S: Remarks>(
    remarks: &mut S,
    location: Location<'_>,
    finding: &Finding,
    options: &Options,
    has_equal_salt: bool,
) -> Result<(), Failure> {
    if !options.has_remarks {
        return Ok(());
    }
    let limits = &options.limits;
    let remark = match finding {
        Finding::TooLong => Some(Remark::Text("too-long", "longer than 4096 bytes")),
        Finding::NotUtf8 => Some(Remark::Text("not-utf8", "not UTF-8")),
        Finding::Refused(error) => Some(Remark::Refused(error)),
        Finding::Claimed(claim) => remark_on_claim(*claim, limits),
        Finding::Shown(entry) => {
            add_remarks(remarks, location, entry, limits)?;
            None
        }
    };
    if let Some(remark) = remark {
        remarks.add(location, remark)?;
    }
    if has_equal_salt {
        remarks.add(
            location,
            Remark::Text("equal-salt", "salt of an earlier line"),
        )?;
    }
    Ok(())
}

// The remark on what a line claims to store, if that is no text of Argon2 and not allowed.
fn remark_on_claim(claim: Claim, limits: &Limits) -> Option<Remark<'static>> {
    match claim {
        Claim::Other(_) | Claim::Locked | Claim::Blank | Claim::Comment if limits.allows_other =>
            None,
        Claim::Argon2 => None,
        Claim::Other(scheme) => Some(Remark::Other(scheme)),
        Claim::Locked => Some(Remark::Text("locked", "locked")),
        Claim::Empty => Some(Remark::Text("empty", "empty hash")),
        Claim::Blank => Some(Remark::Text("blank", "blank line")),
        Claim::Comment => Some(Remark::Text("comment", "comment")),
        Claim::NoField => Some(Remark::Text("no-field", "no such field")),
        Claim::Unknown => Some(Remark::Text("unknown", "no known scheme")),
    }
}

// Adds a remark for each thing of a text that is below the limits.
fn add_remarks<S: Remarks>(
    remarks: &mut S,
    location: Location<'_>,
    entry: &Entry,
    limits: &Limits,
) -> Result<(), Failure> {
    let kind = Kind::of(&entry.settings);
    for (code, name, has, least) in [
        ("m-below", 'm', kind.m_cost, limits.m_cost),
        ("t-below", 't', kind.t_cost, limits.t_cost),
        ("p-below", 'p', kind.p_cost, limits.p_cost),
        ("v-below", 'v', u32::from(kind.version), limits.version),
    ] {
        if has < least {
            remarks.add(location, Remark::Number(code, name, has, least))?;
        }
    }
    if let Some(required) = limits.algorithm
        && required != kind.algorithm
    {
        remarks.add(location, Remark::Algorithm(kind.algorithm, required))?;
    }
    if entry.has_other_key(limits) {
        remarks.add(location, Remark::Text("key", "another key identifier"))?;
    }
    let (salt_len, least) = (entry.salt_len(), limits.salt_len);
    if salt_len < least {
        let remark = match entry.salt {
            Some(_) => Remark::Length("salt-below", "salt", salt_len, least),
            None => Remark::Text("no-salt", "no salt"),
        };
        remarks.add(location, remark)?;
    }
    match entry.hash_len {
        None => remarks.add(location, Remark::Text("no-hash", "no hash")),
        Some(has) if has < limits.hash_len => {
            let remark = Remark::Length("hash-below", "hash", has, limits.hash_len);
            remarks.add(location, remark)
        }
        Some(_) => Ok(()),
    }
}

/// Writes the counts, one to a line, and then the number of texts of Argon2 of each kind. The counts of lines that store
/// no text of Argon2 are written only if there are such lines.
pub fn write_table<W: Write>(output: &mut W, session: &Session) -> io::Result<()> {
    let tally = &session.tally;
    write_count(output, "lines", tally.lines)?;
    for (name, class, is_written) in [
        ("sound", Class::Sound, true),
        ("below the policy", Class::Below, true),
        ("no hash", Class::NoHash, true),
        ("outside the grammar", Class::Outside, true),
        ("locked", Class::Locked, false),
        ("empty", Class::Empty, false),
        ("blank lines", Class::Blank, false),
        ("comments", Class::Comment, false),
        ("unknown", Class::Unknown, false),
        ("other schemes", Class::Other, false),
    ] {
        let lines = tally.count(class);
        if is_written || lines > 0 {
            write_count(output, name, lines)?;
        }
    }
    for (scheme, lines) in session.seen.schemes.iter() {
        writeln!(output, "  {:<18}{lines:>12}", scheme.name())?;
    }
    write_count(output, "short salts", tally.short_salts)?;
    write_count(output, "equal salts", tally.equal_salts)?;
    if tally.other_keys > 0 {
        write_count(output, "other keys", tally.other_keys)?;
    }
    if !session.seen.kinds.is_empty() {
        writeln!(output, "{KINDS}")?;
    }
    for (kind, lines) in session.seen.kinds.iter() {
        let (algorithm, version) = (kind.algorithm.as_str(), u32::from(kind.version));
        let (m, t, p) = (kind.m_cost, kind.t_cost, kind.p_cost);
        writeln!(
            output,
            "{algorithm:<10}{version:>8}{m:>12}{t:>12}{p:>10}{lines:>12}"
        )?;
    }
    output.flush()
}

// Writes a count as a line.
fn write_count<W: Write>(output: &mut W, name: &str, lines: u64) -> io::Result<()> {
    writeln!(output, "{name:<20}{lines:>12}")
}
