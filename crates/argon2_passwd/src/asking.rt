//! What the program asks for on a terminal.
//!
//! A question ends without a line feed, and all else that is written to standard error ends with one. What hides the typing
//! relies on that.

ghost use Rattle.std.specs.Prelude.{◌≡◌, ◌++◌, ◌∷◌, [], IfErr, IfOk, IfSome, OnOk};
ghost use Rattle.std.specs.Io.BufRead.{DropsThrough};
ghost use Rattle.argon2_passwd.specs.Answers.{Appends};
ghost use Rattle.argon2_passwd.specs.Asking.{FailsToTake, ReadsLine, Takes, TakesNoNew, TakesNone, TakesTwice, asked, asked_twice, dialogue, questions_of, takes_lines};

use crate::command::{Action, EditTask, Task};
use crate::failure::{Failure, of_reading};
use argon2_io::write_bytes;
use std::alloc::Global;
use std::io::{BufRead, Write};

/// The questions of a command. A line answers each question.
#[derive(Clone, Copy)]
pub enum Questions {
    /// A password.
    Password,
    /// A new password, twice.
    NewPassword,
    /// A text, and then a password.
    TextAndPassword,
    /// The old password, and then a new one, twice.
    OldAndNewPassword,
}

/// The questions of a command, if it reads passwords.
pub fn questions_of(action: Action<'_>) -> Option<Questions>
    ensures { result ≡ questions_of action.entry }
{
    match action {
        Action::Hash => Some(Questions::NewPassword),
        Action::Check("-") => Some(Questions::TextAndPassword),
        Action::Check(_) | Action::OnFile(_, Task::Verify(_)) => Some(Questions::Password),
        Action::OnFile(_, Task::Edit(task, _)) => match task {
            EditTask::Register | EditTask::Set => Some(Questions::NewPassword),
            EditTask::Change => Some(Questions::OldAndNewPassword),
            EditTask::Remove | EditTask::Lock | EditTask::Unlock => None,
        },
        Action::OnFile(_, _) => None,
    }
}

/// Whether a command reads all lines of its input.
pub fn reads_lines(action: Action<'_>) -> bool
    ensures { result ≡ takes_lines action.entry }
{
    matches!(
        action,
        Action::OnFile(_, Task::Import { .. } | Task::ImportOthers { .. })
    )
}

/// Asks the questions on `errors`, and returns the lines that were typed on `input`, each with a line feed at its end. A new
/// password is typed twice and returned once.
///
/// # Errors
/// [`Failure::NoPassword`] if the input ends before a line, and [`Failure::Differing`] if the two lines of the new password
/// differ. A stream or a request for memory may fail. If a question can't be written, no line is read.
pub fn ask<R: BufRead, E: Write>(
    alloc: Global,
    questions: Questions,
    input: &mut R,
    errors: &mut E,
) -> Result<Vec<u8>, Failure>
    ensures taken { IfOk result (λ lines. Takes questions lines.items (R.remaining input.old)) }
    ensures asked { OnOk result (Appends (E.contents errors.old) (E.contents errors.new) (dialogue questions)) }
    ensures failed { IfErr result (λ failure. FailsToTake questions failure (R.remaining input.old)) }
{
    match questions {
        Questions::Password => ask_line(alloc, b"password: ", input, errors),
        Questions::NewPassword => ask_twice(alloc, input, errors),
        Questions::TextAndPassword => {
            let mut lines = ask_line(alloc, b"hash: ", input, errors)?;
            let password = ask_line(alloc, b"password: ", input, errors)?;
            lines.extend_from_slice(password.as_slice())?;
            Ok(lines)
        }
        Questions::OldAndNewPassword => {
            let mut lines = ask_line(alloc, b"old password: ", input, errors)?;
            let password = ask_twice(alloc, input, errors)?;
            lines.extend_from_slice(password.as_slice())?;
            Ok(lines)
        }
    }
}

// Asks for a new password twice, and returns its line.
fn ask_twice<R: BufRead, E: Write>(
    alloc: Global,
    input: &mut R,
    errors: &mut E,
) -> Result<Vec<u8>, Failure>
    ensures taken { IfOk result (λ line. TakesTwice line.items (R.remaining input.old)) }
    ensures asked { OnOk result (Appends (E.contents errors.old) (E.contents errors.new) asked_twice) }
    ensures failed { IfErr result (λ failure. TakesNoNew failure (R.remaining input.old)) }
{
    let first = ask_line(alloc, b"new password: ", input, errors)?;
    let again = ask_line(alloc, b"new password again: ", input, errors)?;
    if again.as_slice() == first.as_slice() {
        Ok(first)
    } else {
        Err(Failure::Differing)
    }
}

// Writes a question, and reads the line that answers it. A terminal does not show what ends that line, so a line feed is written.
fn ask_line<R: BufRead, E: Write>(
    alloc: Global,
    question: &[u8],
    input: &mut R,
    errors: &mut E,
) -> Result<Vec<u8>, Failure>
    ensures taken { IfOk result (λ line. ReadsLine (λ read. line.items ≡ read) (R.remaining input.old)) }
    ensures rest { OnOk result (DropsThrough (R.remaining input.old) (R.remaining input.new) 10) }
    ensures asked { OnOk result (Appends (E.contents errors.old) (E.contents errors.new) (asked question.now)) }
    ensures failed { IfErr result (λ failure. TakesNone failure (R.remaining input.old)) }
{
    write_bytes(errors, question)?;
    errors.flush()?;
    let line = read_line(alloc, input);
    write_bytes(errors, b"\n")?;
    line
}

// Reads the next line of the input, with a line feed at its end also if the input ends without one.
fn read_line<R: BufRead>(alloc: Global, input: &mut R) -> Result<Vec<u8>, Failure>
    ensures taken { IfOk result (λ line. ReadsLine (λ read. line.items ≡ read) (R.remaining input.old)) }
    ensures rest { OnOk result (DropsThrough (R.remaining input.old) (R.remaining input.new) 10) }
    ensures failed { IfErr result (λ failure. TakesNone failure (R.remaining input.old)) }
{
    let mut line = Vec::new(alloc);
    match input.read_until(b'\n', &mut line) {
        Ok(0) => return Err(Failure::NoPassword),
        Ok(_) => {}
        Err(e) => return Err(of_reading(&e)),
    }
    if line.as_slice().last() == Some(&b'\n') {
        line.pop();
    }
    line.push(b'\n')?;
    Ok(line)
}
