//! A line of an import: a name and its text.

ghost use Rattle.std.specs.Prelude.{◌≡◌, IfErr, IfOk, IfSome, MatchOption};
ghost use Rattle.argon2_passwd.specs.Lines.{MayNotBeAdded, MayBeAdded, has_control, has_field, has_scheme, name_flaw, parts_now, parts_of};
ghost use Rattle.argon2_passwd.specs.Failures.{status_of};
ghost use Rattle.argon2_rows.specs.Names.{text_in};

use crate::failure::{Failure, Flaw, of_reading};
use argon2::password_hash::Settings;
use argon2_rows::StoredText;
pub use argon2_rows::table::MAX_LEN;
use argon2_schemes::{after_lock, begins_any, scheme_of};
use argon2_store::View;
use std::alloc::Global;
use std::io::BufRead;
use std::str;

/// The byte order mark, which some programs write before the first line.
pub const BYTE_ORDER_MARK: &str = "\u{feff}";

/// Reads all bytes of the input.
pub fn read_all<R: BufRead>(alloc: Global, input: &mut R) -> Result<Vec<u8>, Failure>
    ensures ok { IfOk result (λ bytes. IfSome (R.remaining input.old)
        (λ known. bytes.items ≡ known)) }
    ensures err { IfErr result (λ failure. status_of failure ≡ 3) }
{
    let mut bytes = Vec::new(alloc);
    match input.read_to_end(&mut bytes) {
        Ok(_) => Ok(bytes),
        Err(e) => Err(of_reading(&e)),
    }
}

/// The text, if an import adds it: one of Argon2 with valid settings. With `any_text` an import also adds any text in the grammar
/// or of another scheme.
pub fn addable_text(text: &str, any_text: bool) -> Option<StoredText<'_>>
    ensures { MatchOption result (MayNotBeAdded any_text text.now)
        (λ it. (text_in it ≡ text.now) × MayBeAdded any_text text.now) }
{
    match StoredText::new(text) {
        Ok((text, hash)) if any_text || Settings::try_from(&hash).is_ok() => Some(text),
        Err(_) if any_text && has_scheme(text) => StoredText::of_line(text),
        _ => None,
    }
}

// Whether a text, locked or not, begins as a text of another scheme, and has no further field.
fn has_scheme(text: &str) -> bool
    ensures { result ≡ has_scheme text.now }
{
    let text = after_lock(text).unwrap_or(text).as_bytes();
    scheme_of(text).is_some() && !has_field(text)
}

// Whether a text has a colon, but is none of Werkzeug, whose texts have colons. Another program has written a further field
// there.
fn has_field(text: &[u8]) -> bool
    ensures { result ≡ has_field text.now }
{
    text.contains(&b':') && !begins_any(text, &["scrypt:", "pbkdf2:"])
}

/// Why a name may not be added, or `None` if it may.
pub fn name_flaw(name: &str) -> Option<Flaw>
    ensures { result ≡ name_flaw name.now }
{
    if name.is_empty() || name.len() > MAX_LEN {
        Some(Flaw::NameLength)
    } else if View::Export.breaks_line(name.as_bytes()) || has_control(name) {
        Some(Flaw::Character)
    } else if begins_any(name.as_bytes(), &[BYTE_ORDER_MARK]) {
        Some(Flaw::Mark)
    } else {
        None
    }
}

// Whether a name has a control character, which a terminal would act on.
fn has_control(name: &str) -> bool
    ensures { result ≡ has_control name.now }
{
    name.chars().any(|c| c.is_control())
}

/// The name before the first colon of a line, and the text after it. A line without a colon has no text, and a line that is not
/// UTF-8 has neither.
pub fn split_line(line: &[u8]) -> (&str, &str)
    ensures { parts_now result ≡ parts_of line.now }
{
    match str::from_utf8(line) {
        Ok(line) => line.split_once(':').unwrap_or((line, "")),
        Err(_) => ("", ""),
    }
}
