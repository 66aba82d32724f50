//! The commands of the program.

use crate::options::Options;
use crate::outside::{IfAbsent, RowCheck};
use argon2_store::View;

/// A command with its options.
#[derive(Clone, Copy)]
pub struct Command<'a> {
    /// The options.
    pub options: Options<'a>,
    /// What the command does.
    pub action: Action<'a>,
}

/// What a command does.
#[derive(Clone, Copy)]
pub enum Action<'a> {
    /// `hash`: a text for a password.
    Hash,
    /// `check TEXT`: whether a text accepts a password.
    Check(&'a str),
    /// A task on the file with accounts at a path.
    OnFile(&'a str, Task<'a>),
}

/// What is done with a file with accounts.
#[derive(Clone, Copy)]
pub enum Task<'a> {
    /// `verify FILE NAME`: whether the text of a name accepts a password.
    Verify(&'a str),
    /// `register FILE NAME` and others: a change of the text of a name.
    Edit(EditTask, &'a str),
    /// `list FILE` or `export FILE`: what the file has.
    Show(View),
    /// `import FILE`: names with their texts are added.
    Import {
        /// Texts of other schemes are added too.
        any_text: bool,
    },
    /// `import --skip FILE`: the same, but lines that may not be added are passed over.
    ImportOthers {
        /// Texts of other schemes are added too.
        any_text: bool,
    },
    /// `check-file FILE`: whether each row of the file is a name with a text.
    CheckFile,
}

impl Task<'_> {
    // What the command does if there is no file.
    pub(crate) fn if_absent(&self) -> IfAbsent {
        match self {
            Task::Edit(EditTask::Register, _) | Task::Import { .. } | Task::ImportOthers { .. } =>
                IfAbsent::Make,
            _ => IfAbsent::Fail,
        }
    }

    // Which rows of the file the command checks.
    pub(crate) fn rows(&self) -> RowCheck {
        match self {
            Task::Show(_) | Task::CheckFile => RowCheck::All,
            _ => RowCheck::LookedUp,
        }
    }
}

/// What is done to the text of a name.
#[derive(Clone, Copy)]
pub enum EditTask {
    /// A new name gets a text of a password.
    Register,
    /// The name gets a text of another password, if its text accepts the old one.
    Change,
    /// The name gets a text of another password.
    Set,
    /// The name and its text are removed.
    Remove,
    /// The text is kept after `!`, and accepts no password.
    Lock,
    /// The text is as it was before it was locked.
    Unlock,
}
