//! What the program says on a terminal before it reads.
//!
//! A question ends without a line feed, and everything else on standard error ends with a line feed. The code that hides the
//! typing relies on that.

ghost use Rattle.std.specs.Prelude.{◌≡◌, ◌++◌, ◌∷◌, [], IfErr, IfOk, IfSome, OnOk};
ghost use Rattle.std.specs.Io.KnownBytes.{Appends};
ghost use Rattle.argon2_tool.specs.Asking.{awaited_by};
ghost use Rattle.argon2_tool.specs.Failures.{IsOfAsking};

use crate::arguments::Command;
use crate::failure::Failure;
use crate::run::read_all;
use argon2_io::{self as io, write_bytes};
use std::alloc::Global;
use std::io::{Read, Write};

/// The question for a password.
pub const QUESTION: &str =
    "argon2-tool: password, then Ctrl-D twice (Enter would put a line break into it): ";

/// What a command reads.
#[derive(Clone, Copy)]
pub enum Awaited {
    /// Nothing.
    Nothing,
    /// Bytes that may be shown.
    Input,
    /// A password.
    Password,
}

/// What a command reads.
pub fn awaited_by(command: &Command<'_>) -> Awaited
    ensures { result ≡ awaited_by command.now }
{
    match command {
        Command::Digest(_) | Command::Long(_) => Awaited::Input,
        Command::Tag(_, _, _) | Command::Phc(_, _) | Command::Verify(_) => Awaited::Password,
        Command::Help | Command::Version => Awaited::Nothing,
    }
}

/// Asks on `errors` for a password, and returns all of `input`. A line feed is written after it.
///
/// # Errors
/// A stream or a request for memory fails. If the question can't be written, nothing is read.
pub fn ask<R: Read, E: Write>(
    alloc: Global,
    input: &mut R,
    errors: &mut E,
) -> Result<Vec<u8>, Failure>
    ensures all { IfOk result (λ bytes. IfSome (R.remaining input.old) (λ message. bytes.items ≡ message)) }
    ensures asked { OnOk result (Appends (E.contents errors.old) (E.contents errors.new) (QUESTION.now ++ 10 ∷ [])) }
    ensures failed { IfErr result IsOfAsking }
{
    write_bytes(errors, QUESTION.as_bytes()).map_err(io::Failure::Output)?;
    errors.flush().map_err(io::Failure::Output)?;
    let bytes = read_all(alloc, input);
    write_bytes(errors, b"\n").map_err(io::Failure::Output)?;
    bytes
}
