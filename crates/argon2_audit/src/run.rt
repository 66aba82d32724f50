//! The program over any streams.

ghost use Rattle.std.specs.Prelude.{◌≡◌, ◌==◌, ◌⊎◌, IfErr, IfOk, IfSome, IsFalse};
ghost use Rattle.std.specs.Io.KnownBytes.{Keeps};
ghost use Rattle.argon2_audit.specs.Audit.{IsTallied};
ghost use Rattle.argon2_audit.specs.Object.{IsAudit, IsOfOutput, IsReport};

use crate::json_report::JsonReport;
use crate::options::{Form, Options};
use crate::report::{Lines, Location, Remarks, write_table};
use crate::session::Session;
use crate::tally::Tally;
use argon2_io::{Failure, write_line};
use std::alloc::Global;
use std::io;
use std::io::{ErrorKind, Read, Write};

/// Input that consists of files, one after the other. A single read never spans two files.
pub trait Named {
    /// The path of the file that is read or can't be opened, or `standard input`.
    fn name(&self) -> &str;

    /// The number of that file, or 0 if it is the only one.
    fn number(&self) -> usize;
}

/// The program's name.
pub const PROGRAM: &str = "argon2-audit";

// How many bytes are read at once.
const PIECE: usize = 65536;

// The most pieces that are read, so that the number of lines fits into 64 bits.
const PIECES: u64 = 1 << 47;

// How many pieces are read between two numbers of lines.
const STRIDE: u64 = 256;

// What removes a line from a terminal.
const REMOVE: &[u8] = b"\r\x1b[K";

/// Audits the lines of `input`, and returns the exit status.
///
/// Status 0: the report is written, each line counts as sound and no two salts are equal. A text of another scheme, a
/// locked line, a blank line and a comment count as sound only if the limits allow other schemes. Status 1: the report
/// is written, and some line does not count as sound or two salts are equal. Status 3: the audit fails, and the
/// failure's text is written to `errors`. If nobody reads `output` any more, no text is written.
///
/// The JSON report is a line with one object, which is written once it is whole. If progress is to be shown, `errors`
/// gets a line with the number of lines read so far, which is replaced from time to time, and removed in the end. If
/// `errors` can't be written, the status stays.
pub fn run<R: Read + Named, W: Write, E: Write>(
    alloc: Global,
    options: Options,
    input: &mut R,
    output: &mut W,
    errors: &mut E,
    shows_progress: bool,
) -> u8
    ensures status { (result ≡ 0) ⊎ (result ≡ 1) ⊎ (result ≡ 3) }
    ensures audit { (result ≡ 0) ⊎ (result ≡ 1) → IsAudit options (R.remaining input.old)
        (W.contents output.old) (W.contents output.new) (result == 0) }
    ensures silent { options.form ≡ Form.Quiet → output.new ≡ output.old }
    ensures quiet { IsFalse shows_progress → (result ≡ 0) ⊎ (result ≡ 1)
        → Keeps (E.contents errors.old) (E.contents errors.new) }
{
    let report = write_report(alloc, options, input, output, errors, shows_progress);
    if shows_progress {
        let _ = errors.write_all(REMOVE);
    }
    match report {
        Ok(tally) if tally.is_clean(&options.limits) => 0,
        Ok(_) => 1,
        Err(failure) => failure.report(PROGRAM, input.name(), errors),
    }
}

/// Writes the report on all lines of `input`, and returns the counts.
///
/// # Errors
/// A stream or a request for memory fails, or the input is too long. With [`Form::Json`] nothing is then written to
/// `output`, unless its write fails.
pub fn write_report<R: Read + Named, W: Write, E: Write>(
    alloc: Global,
    options: Options,
    input: &mut R,
    output: &mut W,
    errors: &mut E,
    shows_progress: bool,
) -> Result<Tally, Failure>
    ensures tally { IfOk result (λ tally. IfSome (R.remaining input.old)
        (λ bytes. IsTallied options bytes tally)) }
    ensures object { IfOk result (λ tally. IsReport options tally
        (W.contents output.old) (W.contents output.new)) }
    ensures unwritten { options.form ≡ Form.Json → IfErr result (λ failure. IsOfOutput failure
        ⊎ Keeps (W.contents output.old) (W.contents output.new)) }
    ensures silent { options.form ≡ Form.Quiet → output.new ≡ output.old }
    ensures quiet { IsFalse shows_progress → Keeps (E.contents errors.old) (E.contents errors.new) }
{
    match options.form {
        Form::Lines => {
            let mut lines = Lines { output };
            let session = session_of(alloc, options, input, &mut lines, errors, shows_progress)?;
            write_table(lines.output, &session)?;
            Ok(session.tally)
        }
        Form::Json => {
            let mut report = JsonReport::new(alloc)?;
            let session = session_of(alloc, options, input, &mut report, errors, shows_progress)?;
            let text = report.object(&session)?;
            write_line(output, &[text.as_slice()])?;
            Ok(session.tally)
        }
        Form::Quiet => {
            let output = &mut io::sink();
            let mut lines = Lines { output };
            let session = session_of(alloc, options, input, &mut lines, errors, shows_progress)?;
            Ok(session.tally)
        }
    }
}

// The session after all that is left in `input`.
fn session_of<R: Read + Named, S: Remarks, E: Write>(
    alloc: Global,
    options: Options,
    input: &mut R,
    remarks: &mut S,
    errors: &mut E,
    shows_progress: bool,
) -> Result<Session, Failure>
    ensures session { IfOk result (λ session. IfSome (R.remaining input.old)
        (λ bytes. IsTallied options bytes session.tally)) }
    ensures quiet { IsFalse shows_progress → Keeps (E.contents errors.old) (E.contents errors.new) }
{
    let mut session = Session::new(alloc, options);
    let mut piece = [0u8; PIECE];
    let mut before = (0, 0);
    'pieces: for turn in 0..PIECES {
        match input.read(&mut piece) {
            Ok(0) => {
                session.finish(file_of(input, before.1), remarks)?;
                return Ok(session);
            }
            Ok(count) => {
                before = before_file(before, input.number(), session.tally.lines);
                session.add(&piece[..count], file_of(input, before.1), remarks)?
            }
            Err(e) if e.kind() == ErrorKind::Interrupted => {}
            Err(e) => return Err(Failure::of_reading(e)),
        }
        if shows_progress && turn % STRIDE == STRIDE - 1 {
            let _ = write!(errors, "\r{PROGRAM}: {} lines", session.tally.lines);
        }
    }
    Err(Failure::Other("the input has too many pieces"))
}

// The number of a file and the number of lines before it, after `lines` lines were read. Both change only if `number` is the
// number of another file.
fn before_file(before: (usize, u64), number: usize, lines: u64) -> (usize, u64) {
    if before.0 == number {
        before
    } else {
        (number, lines)
    }
}

// The file that is read, and the number of lines in the files before it.
fn file_of<R: Named>(input: &R, line: u64) -> Location<'_> {
    let file = if input.number() > 0 {
        Some(input.name())
    } else {
        None
    };
    Location { file, line }
}
