//! The row of a name with its text: filling it, finding it by the name, and checking all rows.

ghost use Rattle.std.specs.Prelude.{◌≡◌, ◌↔◌, [], ◌∷◌, ℕ, List, false, string_bytes, IsSomeAnd, IsTrue, IsUtf8, IfErr, IfOk, IfSome, MatchResult, OnOk};
ghost use Rattle.std.specs.Option.{option_map};
ghost use Rattle.sqlite_trees.specs.View.{IsFailure, KeepsSchema};
ghost use Rattle.sqlite_trees.specs.declared.error.StoreError.TheVariants.{OutOfMemory};
ghost use Rattle.argon2_rows.specs.Names.{Texts, get};
ghost use Rattle.argon2_rows.specs.Rows.{AreLines, AreTexts, IsAccount, IsFoundAs, row_of, rows_of, Text};
ghost use Rattle.argon2_rows.specs.Table.{HasRows, IsDue, IsUnwritten, IsHonest, IsOpen, Sees, StaysQuiet, Writes, done_of, plain, Index};

use sqlite_trees::error::StoreError;
use sqlite_trees::store::{Direction, Store};
use sqlite_value::order::is_same;
use sqlite_value::row::Row;
use sqlite_value::value::ValueRef;
use std::alloc::{AllocError, Global};
use std::mem;

// The tree of the accounts.
pub(crate) const ACCOUNTS: u32 = 0;

// The row of a name with its text.
pub(crate) fn fill_row(row: &mut Row, name: &str, text: &str) -> Result<(), AllocError>
    ensures { OnOk result (row.new ≡ row_of (name.now, text.now)) }
{
    row.clear();
    row.push(ValueRef::Text(name.as_bytes()))?;
    row.push(ValueRef::Text(text.as_bytes()))
}

// The two texts of a row that has only these.
pub(crate) fn texts_in(row: &Row) -> Option<(&[u8], &[u8])>
    ensures found { IfSome result (λ it. row.now ≡ Text it.0.now ∷ Text it.1.now ∷ []) }
    ensures only { (name text : List ℕ) → row.now ≡ Text name ∷ Text text ∷ [] →
        IsSomeAnd result (λ it. (it.0.now ≡ name) × (it.1.now ≡ text)) }
{
    if row.len() != 2 {
        return None;
    }
    match (row.get(0), row.get(1)) {
        (ValueRef::Text(name), ValueRef::Text(text)) => Some((name, text)),
        _ => None,
    }
}

// Whether a row has a name and a text of one line. After a line break a text would read as the line of another name.
fn is_account(row: &Row) -> bool
    ensures { IsTrue result ↔ IsAccount row.now }
{
    let Some((name, text)) = texts_in(row) else {
        return false;
    };
    if text.contains(&b'\n') {
        return false;
    }
    str::from_utf8(name).is_ok() && str::from_utf8(text).is_ok()
}

// What a seek by a name finds.
#[derive(Clone, Copy)]
pub(crate) enum Found {
    // The row of the name.
    Name,
    // The row of a later name: the name that was sought has no row.
    Later,
    // No row: neither this name nor a later name has one.
    End,
}

// Seeks the row of the name. If the tree has this row, it is then in `row`.
pub(crate) fn find<S: Store>(
    store: &mut S,
    row: &mut Row,
    key: &mut Row,
    name: &str,
) -> Result<Found, StoreError>
    requires { IsHonest S.Store store.old → (S.Store.view store.old).shape 0 ≡ Index plain }
    ensures found { (names : Texts) → IfOk result (λ found. IsHonest S.Store store.new →
        (S.Store.view store.old).trees 0 ≡ rows_of names → IsFoundAs names name.now found row.new) }
    ensures same { OnOk result (IsHonest S.Store store.new → S.Store.view store.new
        ≡ record (S.Store.view store.old) { cursors = (S.Store.view store.new).cursors }) }
    ensures sound { OnOk result (IsHonest S.Store store.new →
        (S.Store.view store.old).is_broken ≡ false) }
    ensures err { IsHonest S.Store store.new → IfErr result
        (IsFailure (S.Store.view store.old) (S.Store.view store.new)) }
    ensures cause { IsHonest S.Store store.new →
        IfErr result (IsDue S.Store store.old store.new ⊥) }
    ensures schema { KeepsSchema (S.Store.view store.old) (S.Store.view store.new) }
    ensures quiet { StaysQuiet S.Store store.old store.new }
{
    key.clear();
    key.push(ValueRef::Text(name.as_bytes()))?;
    store.seek(1, ACCOUNTS, key, Direction::Forward)?;
    if !store.next(1, row)? {
        return Ok(Found::End);
    }
    if is_same(row.get(0), key.get(0)) {
        Ok(Found::Name)
    } else {
        Ok(Found::Later)
    }
}

// The text of a row.
fn copy_text(alloc: Global, row: &Row) -> Result<String, StoreError>
    ensures { (e : List ℕ × List ℕ) → IsUtf8 e.1 → row.now ≡ row_of e → MatchResult result
        (λ text. string_bytes text ≡ e.1) (λ why. why ≡ OutOfMemory) }
{
    match texts_in(row) {
        Some((_, text)) => match str::from_utf8(text) {
            Ok(text) => Ok(String::from_str(alloc, text)?),
            Err(_) => Err(StoreError::Corrupt),
        },
        None => Err(StoreError::Corrupt),
    }
}

/// The text of a name, if the tree has a row for the name. `row` and `key` are memory for rows.
///
/// # Errors
/// The errors of the store, and out of memory.
pub fn look_up<S: Store>(
    alloc: Global,
    store: &mut S,
    row: &mut Row,
    key: &mut Row,
    name: &str,
) -> Result<Option<String>, StoreError>
    requires { IsHonest S.Store store.old → (S.Store.view store.old).shape 0 ≡ Index plain }
    ensures found { (names : Texts) → AreTexts names → Sees (S.Store.view store.old) names →
        IfOk result (λ text. IsHonest S.Store store.new →
        get names name.now ≡ option_map string_bytes text) }
    ensures same { OnOk result (IsHonest S.Store store.new → S.Store.view store.new
        ≡ record (S.Store.view store.old) { cursors = (S.Store.view store.new).cursors }) }
    ensures sound { OnOk result (IsHonest S.Store store.new →
        (S.Store.view store.old).is_broken ≡ false) }
    ensures reads { (names : Texts) → AreTexts names →
        (IsHonest S.Store store.old → Sees (S.Store.view store.old) names) →
        Writes S.Store store.old store.new names names ⊥ (done_of result) }
{
    match find(store, row, key, name)? {
        Found::Name => Ok(Some(copy_text(alloc, row)?)),
        Found::Later | Found::End => Ok(None),
    }
}

/// Reads all rows, and returns whether each row has a name and a text of one line, and no name has two rows.
/// `row` and `last` are memory for rows.
///
/// # Errors
/// The errors of the store.
pub fn are_rows_sound<S: Store>(
    store: &mut S,
    row: &mut Row,
    last: &mut Row,
) -> Result<bool, StoreError>
    requires { IsHonest S.Store store.old → IsUnwritten (S.Store.view store.old) }
    ensures found { IfOk result (λ all. IsTrue all → (names : Texts) × AreLines names
        × HasRows S.Store store.new names × (IsHonest S.Store store.new →
        (S.Store.view store.old).committed 0 ≡ rows_of names)) }
    ensures refused { IfOk result (λ all. all ≡ false → IsHonest S.Store store.new →
        (names : Texts) → AreTexts names → AreLines names →
        ¬ ((S.Store.view store.old).committed 0 ≡ rows_of names)) }
    ensures open { OnOk result (IsHonest S.Store store.new → IsOpen S.Store store.new) }
    ensures cause { IsHonest S.Store store.new →
        IfErr result (IsDue S.Store store.old store.new ⊥) }
    ensures quiet { StaysQuiet S.Store store.old store.new }
{
    row.clear();
    last.clear();
    store.seek(0, ACCOUNTS, row, Direction::Forward)?;
    for _ in 0..u64::MAX {
        if !store.next(0, row)? {
            return Ok(true);
        }
        if !is_account(row) || is_same(row.get(0), last.get(0)) {
            return Ok(false);
        }
        mem::swap(row, last);
    }
    // No file has that many rows.
    Err(StoreError::OutOfMemory)
}
