//! Changing the rows of names, in a transaction.
#![tactic(auto, using(crate::proofs::TableLemmas::kept))]

ghost use Rattle.std.specs.Prelude.{◌≡◌, Any, Err, None, Some, IfErr, IsUtf8, OnOk, map};
ghost use Rattle.sqlite_trees.specs.View.{KeepsSchema};
ghost use Rattle.argon2_rows.specs.Names.{AddsEach, Store, Texts, add_error_text, changed, entry_of, get};
ghost use Rattle.argon2_rows.specs.Rows.{AreTexts};
ghost use Rattle.argon2_rows.specs.Table.{EndsRead, Finishes, HasBegun, IsHonest, IsHuge, IsKept, IsLong, Sees, StaysQuiet, Writes, written_of, plain, Index};

use crate::rows::{ACCOUNTS, Found, fill_row, find};
use crate::text::StoredText;
use sqlite_trees::error::StoreError;
use sqlite_trees::store::Store;
use sqlite_value::row::Row;
use std::fmt;

/// Why names are not all added.
#[derive(Clone, Copy, Debug, PartialEq, Eq)]
pub enum AddError {
    /// The name at this index has a row.
    Taken(usize),
    /// The store can't be read or written.
    Store(StoreError),
}

impl fmt::Display for AddError {
    ghost output = { add_error_text };

    fn fmt<W: fmt::Write>(&self, f: &mut fmt::Formatter<W>) -> fmt::Result {
        match self {
            AddError::Taken(index) => write!(f, "the name at index {index} is taken"),
            AddError::Store(error) => write!(f, "{error}"),
        }
    }
}

impl std::error::Error for AddError {}

impl From<StoreError> for AddError {
    ghost from_gives = { λ e error. error ≡ Store e };

    fn from(error: StoreError) -> AddError {
        AddError::Store(error)
    }
}

/// The most bytes of a new name, and of its text.
pub const MAX_LEN: usize = 4096;

// Writes the row of a name that has none, however long it is.
fn put<S: Store>(store: &mut S, row: &mut Row, name: &str, text: &str) -> Result<(), StoreError>
    requires { IsHonest S.Store store.old → (S.Store.view store.old).shape 0 ≡ Index plain }
    ensures schema { KeepsSchema (S.Store.view store.old) (S.Store.view store.new) }
    ensures quiet { StaysQuiet S.Store store.old store.new }
    ensures writes { (names : Texts) → (IsHonest S.Store store.old → get names name.now ≡ None) →
        Writes S.Store store.old store.new names (changed names name.now (Some text.now))
        (IsHuge (name.now, text.now)) result }
    ensures text { IsUtf8 text.now }
{
    fill_row(row, name, text)?;
    store.insert(ACCOUNTS, row)
}

/// Writes the row of a new name. `row` is memory for a row.
///
/// # Errors
/// - [`StoreError::Unstorable`]: the name or the text has more than [`MAX_LEN`] bytes.
/// - the errors of the store, and out of memory.
pub fn insert<S: Store>(
    store: &mut S,
    row: &mut Row,
    name: &str,
    text: &str,
) -> Result<(), StoreError>
    requires { IsHonest S.Store store.old → (S.Store.view store.old).shape 0 ≡ Index plain }
    ensures schema { KeepsSchema (S.Store.view store.old) (S.Store.view store.new) }
    ensures quiet { StaysQuiet S.Store store.old store.new }
    ensures writes { (names : Texts) → (IsHonest S.Store store.old → get names name.now ≡ None) →
        Writes S.Store store.old store.new names (changed names name.now (Some text.now))
        (IsLong (name.now, text.now)) result }
    ensures short { OnOk result (¬ IsLong (name.now, text.now)) }
    ensures text { IsUtf8 text.now }
{
    if name.len() > MAX_LEN || text.len() > MAX_LEN {
        return Err(StoreError::Unstorable);
    }
    put(store, row, name, text)
}

/// Removes the row of a name with this text. `row` and `key` are memory for rows.
///
/// # Errors
/// - [`StoreError::Corrupt`]: the name still has a row, because it had two rows, or the rows are out of order.
/// - the errors of the store, and out of memory.
pub fn remove<S: Store>(
    store: &mut S,
    row: &mut Row,
    key: &mut Row,
    name: &str,
    text: &str,
) -> Result<(), StoreError>
    requires { IsHonest S.Store store.old → (S.Store.view store.old).shape 0 ≡ Index plain }
    ensures schema { KeepsSchema (S.Store.view store.old) (S.Store.view store.new) }
    ensures quiet { StaysQuiet S.Store store.old store.new }
    ensures writes { (names : Texts) →
        (IsHonest S.Store store.old → Sees (S.Store.view store.old) names × (get names name.now ≡ Some text.now)) →
        Writes S.Store store.old store.new names (changed names name.now None) ⊥ result }
{
    fill_row(row, name, text)?;
    store.remove(ACCOUNTS, row)?;
    match find(store, row, key, name)? {
        Found::Name => Err(StoreError::Corrupt),
        Found::Later | Found::End => Ok(()),
    }
}

/// Writes a row of a name with the text `new` in the place of the row with the text `old`. `row` and `key` are memory for
/// rows.
///
/// # Errors
/// The errors of [`remove`], and [`StoreError::Unstorable`] if the row would have more than a billion bytes.
pub fn replace<S: Store>(
    store: &mut S,
    row: &mut Row,
    key: &mut Row,
    name: &str,
    old: &str,
    new: &str,
) -> Result<(), StoreError>
    requires { IsHonest S.Store store.old → (S.Store.view store.old).shape 0 ≡ Index plain }
    ensures writes { (names : Texts) →
        (IsHonest S.Store store.old → Sees (S.Store.view store.old) names × (get names name.now ≡ Some old.now)) →
        Writes S.Store store.old store.new names (changed names name.now (Some new.now))
        (IsHuge (name.now, new.now)) result }
    ensures text { IsUtf8 new.now }
{
    remove(store, row, key, name, old)?;
    put(store, row, name, new)
}

/// Writes the rows of new names with their texts, up to the first name that has a row. If a name has a row, the caller
/// removes what was written: no clause describes it. `row` and `key` are memory for rows.
///
/// # Errors
/// - [`AddError::Taken`]: a name has a row.
/// - [`AddError::Store`]: the errors of the store, and out of memory.
pub fn add_each<S: Store>(
    store: &mut S,
    row: &mut Row,
    key: &mut Row,
    new: &[(&str, StoredText<'_>)],
) -> Result<(), AddError>
    requires { IsHonest S.Store store.old → (S.Store.view store.old).shape 0 ≡ Index plain }
    ensures { (before : Texts) → AreTexts before →
        (IsHonest S.Store store.old → Sees (S.Store.view store.old) before) →
        (after : Texts) × AreTexts after × Writes S.Store store.old store.new before after
        (Any IsLong (map entry_of new.now)) (written_of result)
        × (IsHonest S.Store store.new → AddsEach before (map entry_of new.now) after result) }
{
    let mut is_last = false;
    let mut last: &[u8] = &[];
    for (k, &(name, text)) in new.iter().enumerate() {
        // No look-up is needed if the last name comes after all others, and this name after the last.
        if !(is_last && last.cmp(&name.as_bytes()).is_lt()) {
            match find(store, row, key, name)? {
                Found::Name => return Err(AddError::Taken(k)),
                Found::Later => is_last = false,
                Found::End => is_last = true,
            }
        }
        insert(store, row, name, text.as_str())?;
        last = name.as_bytes();
    }
    Ok(())
}

/// Removes what was written since the last commit.
pub fn undo<S: Store>(store: &mut S)
    ensures kept { (before : Texts) → (IsHonest S.Store store.new →
        HasBegun S.Store store.old before) → IsKept S.Store store.new before }
    ensures blame { S.Store.blamed store.new ≡ S.Store.blamed store.old }
    ensures quiet { StaysQuiet S.Store store.old store.new }
{
    store.rollback();
}

/// Removes what a failed call that only reads has left in the transaction.
pub fn undo_failed<S: Store, X>(store: &mut S, done: &Result<X, StoreError>)
    ensures { EndsRead S.Store store.old store.new done.now }
{
    if done.is_err() {
        undo(store);
    }
}

/// Commits what was written, or removes it if writing has failed.
///
/// # Errors
/// The error of writing, or the errors of the commit.
pub fn finish<S: Store>(store: &mut S, done: Result<(), StoreError>) -> Result<(), StoreError>
    ensures finishes { Finishes S.Store store.old store.new done result }
    ensures failed { IfErr done (λ e. result ≡ Err e) }
{
    match done {
        Ok(()) => store.commit(),
        Err(error) => {
            undo(store);
            Err(error)
        }
    }
}
