//! `argon2-passwd`: makes texts of passwords, checks passwords by them, and keeps accounts in a file.
#![tactic(auto)]

use argon2_io::{Failure, words, write_line};
use argon2_passwd::asking::{ask, questions_of, reads_lines};
use argon2_passwd::run::{PROGRAM, fail, run};
use argon2_passwd::{Action, Command};
use machine::Machine;
use std::alloc::{AllocError, Global};
use std::io::{BufRead, BufReader, BufWriter, Cursor, ErrorKind, IsTerminal, Read, Stderr, Write};
use std::process::ExitCode;

mod arguments;
mod machine;

// The most bytes of a line with a password, or with a text, and its LF or CR LF.
const MAX_LINE_LEN: u64 = 4098;

fn main(rt: HostRuntime) -> ExitCode {
    let mut errors = rt.stderr();
    let input = BufReader::new(rt.alloc(), rt.reader());
    let output = BufWriter::new(rt.alloc(), rt.stdout());
    let (Ok(input), Ok(mut output)) = (input, output) else {
        return ExitCode::from(Failure::Memory(AllocError).report(PROGRAM, "", &mut errors));
    };
    let words = match words(&rt) {
        Ok(words) => words,
        Err(none) => return ExitCode::from(none.report(&rt, PROGRAM, &mut errors)),
    };
    let parsed = arguments::parse(rt.alloc(), words.as_slice(), &mut output, &mut errors);
    let command = match parsed {
        Ok(command) => command,
        Err(status) => return ExitCode::from(status),
    };
    let is_terminal = rt.stdin().is_terminal();
    let mut input = input.take(most_input(&command, is_terminal));
    let status = if is_terminal {
        serve_terminal(&rt, command, &mut input, &mut output, &mut errors)
    } else {
        serve(&rt, command, &mut input, &mut output, &mut errors)
    };
    ExitCode::from(status)
}

// The most bytes of standard input that a command takes: all lines of an import, or two lines. A terminal repeats a new password.
fn most_input(command: &Command<'_>, is_terminal: bool) -> u64 {
    if reads_lines(command.action) {
        u64::MAX
    } else if is_terminal {
        3 * MAX_LINE_LEN
    } else {
        2 * MAX_LINE_LEN
    }
}

// Runs a command whose input is a terminal, and returns the exit status. It asks for the passwords that the command takes, or
// says that the command takes lines.
fn serve_terminal<R: BufRead, W: Write>(
    rt: &HostRuntime,
    command: Command<'_>,
    input: &mut R,
    output: &mut W,
    errors: &mut Stderr,
) -> u8 {
    let Some(questions) = questions_of(command.action) else {
        if reads_lines(command.action) && errors.is_terminal() {
            let parts = [PROGRAM.as_bytes(), b": lines NAME:HASH, then Ctrl-D"];
            let _ = write_line(errors, &parts);
        }
        return serve(rt, command, input, output, errors);
    };
    match ask(rt.alloc(), questions, input, errors) {
        Ok(lines) => serve(
            rt,
            command,
            &mut Cursor::new(lines.as_slice()),
            output,
            errors,
        ),
        Err(failure) => fail(errors, &command, &failure),
    }
}

// Runs a command on its input, and returns the exit status.
fn serve<R: BufRead, W: Write, E: Write>(
    rt: &HostRuntime,
    command: Command<'_>,
    input: &mut R,
    output: &mut W,
    errors: &mut E,
) -> u8 {
    let line = match text_line(rt.alloc(), &command, input) {
        Ok(line) => line,
        Err(failure) => return failure.report(PROGRAM, "standard input", errors),
    };
    let action = match &line {
        Some(line) => Action::Check(without_end(line.as_str())),
        None => command.action,
    };
    let options = command.options;
    let mut machine = Machine::new(rt);
    run(
        rt.alloc(),
        Command { options, action },
        &mut machine,
        input,
        output,
        errors,
    )
}

// The next line of the input if the text of `check` is in it, and no text if it is not UTF-8.
fn text_line<R: BufRead>(
    alloc: Global,
    command: &Command<'_>,
    input: &mut R,
) -> Result<Option<String>, Failure> {
    let Action::Check("-") = command.action else {
        return Ok(None);
    };
    let mut line = String::new(alloc);
    match input.read_line(&mut line) {
        Ok(_) => Ok(Some(line)),
        Err(error) if error.kind() == ErrorKind::InvalidData => Ok(Some(String::new(alloc))),
        Err(error) => Err(Failure::of_reading(error)),
    }
}

// A line without its LF or CR LF.
fn without_end(line: &str) -> &str {
    match line.strip_suffix('\n') {
        Some(line) => line.strip_suffix('\r').unwrap_or(line),
        None => line,
    }
}
