//! Which field of a line is its text.

ghost use Rattle.std.specs.Prelude.{◌≡◌, ◌==◌, ◌≤◌, length};
ghost use Rattle.std.specs.Option.{option_copied};
ghost use Rattle.std.specs.List.{list_all, position_or_len};
ghost use Rattle.argon2_audit.specs.Finding.{field_end, field_numbered, has_numbers, is_number, is_werkzeug, quoted_end, strip_quotes};

use crate::claim::without_last;
use argon2_schemes::{after_any, begins_any};
use memchr::memchr;

/// Which of a line's fields is its text.
#[derive(Clone, Copy)]
pub struct Field {
    /// The number of fields before it. `None` stands for the second field, or for the whole line if the line has one field or
    /// is a text of Werkzeug.
    pub before: Option<u32>,
    /// The byte between two fields.
    pub separator: u8,
}

impl Field {
    ghost use Rattle.argon2_audit.specs.Finding.{field_in};

    /// The text in the field, if the line has it.
    pub fn text<'a>(self, line: &'a [u8]) -> Option<&'a [u8]>
        ensures { option_copied result ≡ field_in self line.now }
    {
        match self.before {
            None if is_werkzeug(line) => Some(line),
            None => Some(field_numbered(line, 1, self.separator).unwrap_or(strip_quotes(line))),
            Some(before) => field_numbered(line, before, self.separator),
        }
    }
}

// Whether a line is a text of Werkzeug. Such a text has colons, so the line has no name.
fn is_werkzeug(line: &[u8]) -> bool
    ensures { result ≡ is_werkzeug line.now }
{
    let before = [
        "scrypt:",
        "pbkdf2:sha1:",
        "pbkdf2:sha256:",
        "pbkdf2:sha512:",
    ];
    begins_any(line, &before) && has_numbers(after_any(line, &before))
}

// Whether a text begins with numbers, with colons between them, and then `$`.
fn has_numbers(text: &[u8]) -> bool
    ensures { result ≡ has_numbers text.now }
{
    let end = position_or_len(text, b'$');
    end < text.len() && text[0].is_ascii_digit() && are_numbers(&text[..end])
}

// Whether there are only digits and colons.
fn are_numbers(text: &[u8]) -> bool
    ensures { result ≡ list_all is_number text.now }
{
    text.iter()
        .all(|byte| byte.is_ascii_digit() || *byte == b':')
}

// The field that has `before` fields before it.
fn field_numbered(line: &[u8], before: u32, separator: u8) -> Option<&[u8]>
    ensures { option_copied result ≡ field_numbered before separator line.now }
{
    let end = field_end(line, separator);
    if before == 0 {
        return Some(strip_quotes(&line[..end]));
    }
    if end == line.len() {
        return None;
    }
    let (_, rest) = line.split_at(end + 1);
    field_numbered(rest, before - 1, separator)
}

// Where the first field ends. If it begins with a quote, a separator between two quotes is part of it.
fn field_end(line: &[u8], separator: u8) -> usize
    ensures value { result ≡ field_end separator line.now }
    ensures max { result ≤ length line.now }
{
    if begins_any(line, &["\""]) {
        quoted_end(line, separator, false)
    } else {
        position_or_len(line, separator)
    }
}

// Where a field with quotes ends.
fn quoted_end(line: &[u8], separator: u8, is_quoted: bool) -> usize
    ensures value { result ≡ quoted_end separator is_quoted line.now }
    ensures max { result ≤ length line.now }
{
    let Some((byte, rest)) = line.split_first() else {
        return 0;
    };
    if *byte == separator && !is_quoted {
        return 0;
    }
    let is_quoted = if *byte == b'"' { !is_quoted } else { is_quoted };
    1 + quoted_end(rest, separator, is_quoted)
}

// A field without the quotes around it.
fn strip_quotes(field: &[u8]) -> &[u8]
    ensures { result.now ≡ strip_quotes field.now }
{
    if begins_any(field, &["\""]) {
        without_last(after_any(field, &["\""]), b'"')
    } else {
        field
    }
}

// The index of the first separator, or the length if there is none.
fn position_or_len(bytes: &[u8], separator: u8) -> usize
    ensures value { result ≡ position_or_len (λ byte. byte == separator) bytes.now }
    ensures max { result ≤ length bytes.now }
{
    memchr(separator, bytes).unwrap_or(bytes.len())
}
