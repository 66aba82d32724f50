//! Reads the lines of an import.

ghost use Rattle.std.specs.Prelude.{◌≡◌, IfOk, map};
ghost use Rattle.argon2_passwd.specs.Lines.{AreSaid, IsEntryOrFlaw, entries_in, entry_or_flaw, flaws_from};
ghost use Rattle.argon2_rows.specs.Names.{entry_of};

use crate::entries::{BYTE_ORDER_MARK, MAX_LEN, addable_text, name_flaw, split_line};
use crate::failure::Flaw;
use crate::passwords::line_len;
use argon2_rows::StoredText;
use argon2_schemes::{after_any, str_without_prefix};
use std::alloc::{AllocError, Global};

/// A line that was read: a name and a text that may be added, or why the line may not be added.
pub type Line<'a> = Result<(&'a str, StoredText<'a>), Flaw>;

/// Reads the lines of an input, after a byte order mark if there is one.
///
/// # Errors
/// Memory may be refused.
pub fn read_lines<'a>(
    alloc: Global,
    input: &'a [u8],
    any_text: bool,
) -> Result<Vec<Line<'a>>, AllocError>
    ensures { IfOk result (λ found. AreSaid any_text input.now (map entry_or_flaw found.items)) }
{
    let mut found = Vec::new(alloc);
    let text = after_any(input, &[BYTE_ORDER_MARK]);
    for line in text.split_inclusive(|byte| *byte == b'\n') {
        found.push(read_line(&line[..line_len(line)], any_text))?;
    }
    Ok(found)
}

// Reads one line.
fn read_line(line: &[u8], any_text: bool) -> Line<'_>
    ensures { IsEntryOrFlaw any_text line.now (entry_or_flaw result) }
{
    let (name, text) = split_line(line);
    let text = str_without_prefix(text);
    if text.len() > MAX_LEN {
        return Err(Flaw::TextLength);
    }
    match (addable_text(text, any_text), name_flaw(name)) {
        (None, _) => Err(Flaw::NoText),
        (Some(_), Some(flaw)) => Err(flaw),
        (Some(text), None) => Ok((name, text)),
    }
}

/// Divides lines into the entries, and the numbers of the other lines with their flaws.
///
/// # Errors
/// Memory may be refused.
pub fn entries_and_flaws<'a>(
    alloc: Global,
    lines: &[Line<'a>],
) -> Result<(Vec<(&'a str, StoredText<'a>)>, Vec<(usize, Flaw)>), AllocError>
    ensures { IfOk result (λ found. let said = map entry_or_flaw lines.now in
        (map entry_of found.0.items ≡ entries_in said) × (found.1.items ≡ flaws_from 1 said)) }
{
    let mut entries = Vec::new(alloc);
    let mut flaws = Vec::new(alloc);
    for (k, line) in lines.iter().enumerate() {
        match line {
            Ok(entry) => entries.push(*entry)?,
            Err(flaw) => flaws.push((k + 1, *flaw))?,
        }
    }
    Ok((entries, flaws))
}
