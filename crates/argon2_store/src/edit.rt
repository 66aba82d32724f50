//! Edits of the text of one name.

ghost use Rattle.std.specs.Option.{option_copied};
ghost use Rattle.argon2_store.specs.Edits.{EditsRow, edit_value};

use crate::error::FileError;
use argon2_base::phc::PasswordHash;
use argon2_schemes::after_lock;

/// An edit of the text of one name, for [`AccountFile::edit`](crate::AccountFile::edit). Each variant has a method of the
/// file, which says when the edit is refused.
#[derive(Clone, Copy, Debug)]
pub enum Edit<'a> {
    /// A new name gets this text: [`add`](crate::AccountFile::add).
    Add(&'a PasswordHash),
    /// A name with a text gets this text instead: [`set`](crate::AccountFile::set).
    Set(&'a PasswordHash),
    /// A name with the first text gets the second: [`replace`](crate::AccountFile::replace).
    Replace(&'a str, &'a PasswordHash),
    /// A name and its text are removed: [`remove`](crate::AccountFile::remove).
    Remove,
    /// The text of a name is put after `!`: [`lock`](crate::AccountFile::lock).
    Lock,
    /// The `!` before the text of a name is removed: [`unlock`](crate::AccountFile::unlock).
    Unlock,
}

// What an edit does to the row of its name. The first text of a variant is the text of the row.
#[derive(Clone, Copy)]
pub(crate) enum RowEdit<'old, 'new> {
    Keep,
    Insert(&'new PasswordHash),
    Replace(&'old str, &'new PasswordHash),
    Remove(&'old str),
    // The text is put after `!`.
    Lock(&'old str),
    // The second text is what follows `!` in the first.
    Unlock(&'old str, &'old str),
}

// What an edit does to the row of a name with this text or none, or why the edit is refused.
pub(crate) fn row_edit<'old, 'new>(
    edit: &Edit<'new>,
    text: Option<&'old str>,
) -> Result<RowEdit<'old, 'new>, FileError>
    ensures { EditsRow (edit_value edit.now) (option_copied text.entry) result }
{
    let Some(text) = text else {
        return match edit {
            Edit::Add(new) => Ok(RowEdit::Insert(new)),
            _ => Err(FileError::NameUnknown),
        };
    };
    match (edit, after_lock(text)) {
        (Edit::Add(_), _) => Err(FileError::NameTaken),
        (Edit::Set(new), _) => Ok(RowEdit::Replace(text, new)),
        (Edit::Replace(_, _), Some(_)) => Err(FileError::Locked),
        (Edit::Replace(old, _), None) if text != *old => Err(FileError::Changed),
        (Edit::Replace(_, new), None) => Ok(RowEdit::Replace(text, new)),
        (Edit::Remove, _) => Ok(RowEdit::Remove(text)),
        (Edit::Lock, None) => Ok(RowEdit::Lock(text)),
        (Edit::Unlock, Some(bare)) => Ok(RowEdit::Unlock(text, bare)),
        (Edit::Lock, Some(_)) | (Edit::Unlock, None) => Ok(RowEdit::Keep),
    }
}
