//! What a line claims to store, by how it begins.

ghost use Rattle.std.specs.Prelude.{◌≡◌};
ghost use Rattle.std.specs.List.{list_all};
ghost use Rattle.std.specs.Io.BufRead.{strip_last};
ghost use Rattle.argon2_audit.specs.Finding.{claim_of_text, is_space, trim_line};

use argon2_schemes::{Scheme, after_any, begins_any, scheme_of};

/// What a line claims to store.
#[derive(Clone, Copy)]
pub enum Claim {
    /// A text of Argon2.
    Argon2,
    /// A text of another scheme.
    Other(Scheme),
    /// A text that no password opens.
    Locked,
    /// A text with no bytes.
    Empty,
    /// No entry: the line has only spaces and tabs.
    Blank,
    /// No entry: the line begins with `#`.
    Comment,
    /// The line lacks the field that is asked for.
    NoField,
    /// A text of no scheme that is known here.
    Unknown,
}

/// What a text claims to be.
pub fn claim_of_text(text: &[u8]) -> Claim
    ensures { result ≡ claim_of_text text.now }
{
    if begins_any(text, &["$argon2"]) {
        Claim::Argon2
    } else if text.is_empty() {
        Claim::Empty
    } else if begins_any(text, &["!", "*"]) {
        Claim::Locked
    } else if let Some(scheme) = scheme_of(text) {
        Claim::Other(scheme)
    } else {
        Claim::Unknown
    }
}

/// Whether a line has only spaces and tabs.
pub fn is_blank(line: &[u8]) -> bool
    ensures { result ≡ list_all is_space line.now }
{
    line.iter().all(|byte| *byte == b' ' || *byte == b'\t')
}

/// The line without a byte order mark at its start and a carriage return at its end.
pub fn trim_line(line: &[u8]) -> &[u8]
    ensures { result.now ≡ trim_line line.now }
{
    without_last(after_any(line, &["\u{feff}"]), b'\r')
}

/// The bytes without the last byte, if that is `last`.
pub fn without_last(bytes: &[u8], last: u8) -> &[u8]
    ensures { result.now ≡ strip_last last bytes.now }
{
    if !bytes.is_empty() && bytes[bytes.len() - 1] == last {
        &bytes[..bytes.len() - 1]
    } else {
        bytes
    }
}
