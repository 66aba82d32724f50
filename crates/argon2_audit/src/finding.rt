//! What is found in a line.

ghost use Rattle.std.specs.Prelude.{◌≤◌, length};
ghost use Rattle.argon2_audit.specs.Finding.{IsFinding, IsTextFinding};

use crate::claim::{Claim, claim_of_text, is_blank, trim_line};
use crate::entry::{Entry, read_entry};
use crate::field::Field;
use crate::limits::Limits;
use argon2::password_hash::Error;
use argon2_schemes::{begins_any, without_prefix};

/// What is found in a line.
#[derive(Drop)]
pub enum Finding {
    /// The line has more bytes than any line may have.
    TooLong,
    /// The line claims to store something other than a text of Argon2.
    Claimed(Claim),
    /// The text claims to be Argon2's, and is not UTF-8.
    NotUtf8,
    /// The text claims to be Argon2's, and reading it fails with this error.
    Refused(Error),
    /// What the text shows.
    Shown(Entry),
}

/// What a line counts as.
#[derive(Clone, Copy)]
pub enum Class {
    /// It is too long, or its text claims to be Argon2's and is not.
    Outside,
    /// Its text has no hash.
    NoHash,
    /// Something of its text is below the limits.
    Below,
    /// Nothing of its text is below the limits.
    Sound,
    /// Its text is of another scheme.
    Other,
    /// It is locked.
    Locked,
    /// Its text is empty.
    Empty,
    /// It is blank.
    Blank,
    /// It is a comment.
    Comment,
    /// Its text is of no known scheme, or it lacks the field.
    Unknown,
}

/// What is found in a line that is not too long.
pub fn finding_of(line: &[u8], field: Field) -> Finding
    requires { length line.now ≤ 4096 }
    ensures { IsFinding field line.now result }
{
    let line = trim_line(line);
    if is_blank(line) {
        return Finding::Claimed(Claim::Blank);
    }
    if begins_any(line, &["#"]) {
        return Finding::Claimed(Claim::Comment);
    }
    let Some(text) = field.text(line) else {
        return Finding::Claimed(Claim::NoField);
    };
    let text = without_prefix(text);
    match claim_of_text(text) {
        Claim::Argon2 => finding_of_text(text),
        claim => Finding::Claimed(claim),
    }
}

// What is found in a text that claims to be Argon2's.
fn finding_of_text(text: &[u8]) -> Finding
    ensures { IsTextFinding text.now result }
{
    let Ok(text) = str::from_utf8(text) else {
        return Finding::NotUtf8;
    };
    match read_entry(text) {
        Ok(entry) => Finding::Shown(entry),
        Err(error) => Finding::Refused(error),
    }
}

impl Finding {
    ghost use Rattle.std.specs.Prelude.{◌≡◌};
    ghost use Rattle.argon2_audit.specs.Finding.{class_of, has_short_salt, shows_other_key};

    /// What a line of this finding counts as.
    pub fn class(&self, limits: &Limits) -> Class
        ensures { result ≡ class_of limits.now self.now }
    {
        match self {
            Finding::Claimed(Claim::Other(_)) => Class::Other,
            Finding::Claimed(Claim::Locked) => Class::Locked,
            Finding::Claimed(Claim::Empty) => Class::Empty,
            Finding::Claimed(Claim::Blank) => Class::Blank,
            Finding::Claimed(Claim::Comment) => Class::Comment,
            Finding::Claimed(Claim::NoField | Claim::Unknown) => Class::Unknown,
            Finding::Shown(entry) if entry.hash_len.is_none() => Class::NoHash,
            Finding::Shown(entry) if entry.is_below(limits) => Class::Below,
            Finding::Shown(_) => Class::Sound,
            _ => Class::Outside,
        }
    }

    /// Whether the line has a text whose salt is shorter than the limits ask for, or missing.
    pub fn has_short_salt(&self, limits: &Limits) -> bool
        ensures { result ≡ has_short_salt limits.now self.now }
    {
        matches!(self, Finding::Shown(entry) if entry.salt_len() < limits.salt_len)
    }

    /// Whether the line has a text with another key identifier than the limits ask for.
    pub fn shows_other_key(&self, limits: &Limits) -> bool
        ensures { result ≡ shows_other_key limits.now self.now }
    {
        matches!(self, Finding::Shown(entry) if entry.has_other_key(limits))
    }
}
