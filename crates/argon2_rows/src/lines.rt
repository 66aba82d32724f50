//! Writing a line for each row.

ghost use Rattle.std.specs.Prelude.{◌≡◌, ◌<◌, ℕ, List, IsSomeAnd, IsUtf8, MatchResult, OnOk};
ghost use Rattle.argon2_rows.specs.Names.{Texts};
ghost use Rattle.argon2_rows.specs.Lines.{AreCut, AreWritten, IsLineOf, digit, line, shown, shown_char, Appends, AppendsPrefix};
ghost use Rattle.argon2_rows.specs.Rows.{AreTexts, row_of};
ghost use Rattle.argon2_rows.specs.declared.view.Written.TheVariants.{All, Failed};
ghost use Rattle.argon2_rows.specs.Table.{IsHonest, Sees, Writes, done_of, plain, Index};

use crate::rows::{ACCOUNTS, texts_in};
use crate::view::{View, Written};
use argon2_io::{write_bytes, write_parts};
use sqlite_trees::error::StoreError;
use sqlite_trees::store::{Direction, Store};
use sqlite_value::row::Row;
use std::io::{self, Write};

// The outcome of all lines, by the result of the last write.
fn outcome(done: io::Result<()>) -> Written
    ensures { MatchResult done (λ _. result ≡ All) (λ why. result ≡ Failed why) }
{
    match done {
        Ok(()) => Written::All,
        Err(error) => Written::Failed(error),
    }
}

// Writes the line of a row, unless the name breaks it. The result is `None` if the row has anything except two texts.
fn write_line<W: Write>(row: &Row, view: View, output: &mut W) -> Option<Written>
    ensures { (e : List ℕ × List ℕ) → IsUtf8 e.0 → row.now ≡ row_of e →
        IsSomeAnd result (IsLineOf view e (W.contents output.old) (W.contents output.new)) }
{
    let (name, text) = texts_in(row)?;
    if view.breaks_line(name) {
        return Some(Written::Breaks);
    }
    let name = str::from_utf8(name).ok()?;
    Some(outcome(write_texts(name, text, view, output)))
}

// Writes the line of a name with a text.
fn write_texts<W: Write>(name: &str, text: &[u8], view: View, output: &mut W) -> io::Result<()>
    ensures written { OnOk result
        (Appends (W.contents output.old) (W.contents output.new) (line view (name.now, text.now))) }
    ensures cut { AppendsPrefix (W.contents output.old) (W.contents output.new)
        (line view (name.now, text.now)) }
{
    if let View::Export = view {
        return write_parts(output, &[name.as_bytes(), b":", text, b"\n"]);
    }
    write_name(name, output)?;
    write_bytes(output, b"\n")
}

// Writes a name as a list of names shows it.
fn write_name<W: Write>(name: &str, output: &mut W) -> io::Result<()>
    ensures written { OnOk result
        (Appends (W.contents output.old) (W.contents output.new) (shown name.now)) }
    ensures cut { AppendsPrefix (W.contents output.old) (W.contents output.new) (shown name.now) }
{
    for c in name.chars() {
        write_char(c, output)?;
    }
    Ok(())
}

// Writes a character of a name as a list of names shows it.
fn write_char<W: Write>(c: char, output: &mut W) -> io::Result<()>
    ensures written { OnOk result
        (Appends (W.contents output.old) (W.contents output.new) (shown_char c)) }
    ensures cut { AppendsPrefix (W.contents output.old) (W.contents output.new) (shown_char c) }
{
    if c.is_control() {
        let code = c as u32 as u8;
        return write_bytes(output, &[b'\\', b'x', digit(code / 16), digit(code % 16)]);
    }
    if c == '\\' {
        return write_bytes(output, b"\\\\");
    }
    write_bytes(output, c.encode_utf8(&mut [0; 4]).as_bytes())
}

// The hexadecimal digit of a number.
fn digit(n: u8) -> u8
    requires { n < 16 }
    ensures { result ≡ digit n }
{
    if n < 10 { b'0' + n } else { b'a' - 10 + n }
}

/// Writes a line for each row, up to the first row whose name [breaks its line](View::breaks_line), and flushes `output`
/// after the last line. No clause promises the flush. `row` is memory for a row.
///
/// # Errors
/// The errors of the store. A prefix of these lines is then written.
pub fn write_lines<S: Store, W: Write>(
    store: &mut S,
    row: &mut Row,
    view: View,
    output: &mut W,
) -> Result<Written, StoreError>
    requires { IsHonest S.Store store.old → (S.Store.view store.old).shape 0 ≡ Index plain }
    ensures shows { (names : Texts) → AreTexts names → Sees (S.Store.view store.old) names →
        IsHonest S.Store store.new → MatchResult result
        (AreWritten view names (W.contents output.old) (W.contents output.new))
        (λ _. AreCut view names (W.contents output.old) (W.contents output.new)) }
    ensures reads { (names : Texts) → AreTexts names →
        (IsHonest S.Store store.old → Sees (S.Store.view store.old) names) →
        Writes S.Store store.old store.new names names ⊥ (done_of result) }
{
    row.clear();
    store.seek(0, ACCOUNTS, row, Direction::Forward)?;
    for _ in 0..u64::MAX {
        if !store.next(0, row)? {
            return Ok(outcome(output.flush()));
        }
        match write_line(row, view, output) {
            Some(Written::All) => {}
            Some(stopped) => return Ok(stopped),
            None => return Err(StoreError::Corrupt),
        }
    }
    // No file has that many rows.
    Err(StoreError::OutOfMemory)
}
