//! The program over any stopwatch and streams.

ghost use Rattle.std.specs.Prelude.{◌≡◌, ◌⊎◌, ◌++◌, ◌∷◌, [], ℕ, List, OnOk, Some};
ghost use Rattle.std.specs.Io.KnownBytes.{Appends};
ghost use Rattle.json.specs.Json.{document};
ghost use Rattle.argon2_calibrate.specs.Answer.{PrintsCosts, busy_text, json_of, lines_text};
ghost use Rattle.argon2_calibrate.specs.Choice.{ArePossible};

use crate::choice::Found;
use crate::options::Options;
use crate::search::search;
use crate::stopwatch::Stopwatch;
use argon2_io::{Failure, write_line};
use json::Writer;
use std::alloc::Global;
use std::io::Write;

/// The program's name.
pub const PROGRAM: &str = "argon2-calibrate";

/// Searches for the costs that options ask for, writes them to `output`, and returns the exit status: 0, or 3 if the search
/// or the write fails, with the reason on `errors`. If `errors` can't be written, the status stays.
pub fn run<S: Stopwatch, W: Write, E: Write>(
    alloc: Global,
    options: Options,
    stopwatch: &mut S,
    output: &mut W,
    errors: &mut E,
) -> u8
    requires { ArePossible options }
    ensures status { (result ≡ 0) ⊎ (result ≡ 3) }
    ensures answered { result ≡ 0
        → PrintsCosts S.may_take options (W.contents output.old) (W.contents output.new) }
{
    match calibrate(alloc, options, stopwatch, output, errors) {
        Ok(()) => 0,
        Err(failure) => failure.report(PROGRAM, "", errors),
    }
}

// Searches for the costs that options ask for, and writes them.
fn calibrate<S: Stopwatch, W: Write, E: Write>(
    alloc: Global,
    options: Options,
    stopwatch: &mut S,
    output: &mut W,
    errors: &mut E,
) -> Result<(), Failure>
    requires { ArePossible options }
    ensures { OnOk result
        (PrintsCosts S.may_take options (W.contents output.old) (W.contents output.new)) }
{
    let found = search(stopwatch, errors, options)?;
    if options.json {
        write_json(alloc, output, found, options.lanes)
    } else {
        write_lines(output, found, options.lanes)
    }
}

// Writes a line with the JSON object of costs and their time.
fn write_json<W: Write>(alloc: Global, output: &mut W, found: Found, p: u32) -> Result<(), Failure>
    ensures { OnOk result ((text : List ℕ) × (document text ≡ Some (json_of found p))
        × Appends (W.contents output.old) (W.contents output.new) (text ++ 10 ∷ [])) }
{
    let choice = found.choice;
    let mut json = Writer::new(Vec::new(alloc));
    json.begin_object()?;
    json.key("m")?;
    json.u64(u64::from(choice.m_cost))?;
    json.key("t")?;
    json.u64(u64::from(choice.t_cost))?;
    json.key("p")?;
    json.u64(u64::from(p))?;
    json.key("microseconds")?;
    json.u64(choice.time)?;
    json.key("busy")?;
    json.boolean(found.busy)?;
    json.end_object()?;
    let text = json.into_inner();
    write_line(output, &[text.as_slice()])?;
    Ok(())
}

// Writes costs and their time as lines.
fn write_lines<W: Write>(output: &mut W, found: Found, p: u32) -> Result<(), Failure>
    ensures { OnOk result (Appends (W.contents output.old) (W.contents output.new)
        (lines_text found p)) }
{
    let (m, t, time) = (found.choice.m_cost, found.choice.t_cost, found.choice.time);
    let (seconds, micros) = (time / 1_000_000, time % 1_000_000);
    writeln!(output, "m={m},t={t},p={p}")?;
    writeln!(output, "Params::new({m}, {t}, {p}, None)")?;
    writeln!(output, "{seconds}.{micros:06} seconds")?;
    output.write_all(busy_line(found.busy).as_bytes())?;
    output.flush()?;
    Ok(())
}

// The line that says that the machine was busy, or nothing.
fn busy_line(busy: bool) -> &'static str
    ensures { result.now ≡ busy_text busy }
{
    if busy {
        "the machine was busy: times may be too long\n"
    } else {
        ""
    }
}
