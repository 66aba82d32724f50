//! The options of the command line.

ghost use Rattle.std.specs.Prelude.{IfOk};
ghost use Rattle.argon2_calibrate.specs.Choice.{ArePossible};

use argon2_calibrate::Options;
use argon2_calibrate::run::PROGRAM;
use argon2_cli::{Argument, CommandLine, Kind, Matches, Refusal, argument};
use std::alloc::Global;
use std::io::Write;
use std::num::saturating_f64_to_u64;

const COMMAND_LINE: CommandLine<'static> = CommandLine {
    program: PROGRAM,
    about: "Finds the costs under which a hash takes a given time on this machine",
    long_about: ABOUT,
    notes: NOTES,
    usage: None,
    arguments: &ARGUMENTS,
};

const ARGUMENTS: [Argument<'static>; 5] = [
    argument!(--"min-t" <N>
        "The least passes [default: 2 below 64 MiB of memory, 1 from there on]",
        kind: Kind::Number(1, 4_294_967_295)),
    argument!(--"lanes" <N> "Lanes, with at least 8 blocks of 1024 bytes each",
        kind: Kind::Number(1, 16_777_215), default: Some("1")),
    argument!(--"json" "Write one JSON object: m, t, p, microseconds, busy"),
    argument!(SECONDS "How long a hash may take, from 0.001 to 3600", kind: Kind::Float),
    argument!(MEBIBYTES "The most memory of a hash, in MiB",
        kind: Kind::Number(1, 4_194_303), default: Some("64")),
];

const ABOUT: &str = "\
Finds the costs under which a hash by Argon2id takes a given time on this machine.

It hashes three times for each choice, and writes the least time to standard error. First it halves the
memory, from the most on, until the least passes are within the time and the memory is there: available
when the program starts, and granted. Then it takes the most passes that are within the time, of up to
four numbers that it tries. It writes the parameters as a list, as a call and with the time that was
measured.

The machine is busy if the greatest of three times is above the least by more than a quarter. Then it
measures again, at most five times in all. If some times still differ that much in the end, or the
processor worked for less than three quarters of a time, or the time of the costs is less than half of
the target though a pass more may fit, a last line or the JSON object says so.";

const NOTES: &str = "\
Example: argon2-calibrate --lanes 4 0.5 1024

The status is 0 if the costs are written, 2 if the arguments are wrong, and 3 if the clock, writing or a
request for memory fails, which standard error says.";

/// Reads the options. If an option is given twice, the last one counts.
///
/// # Errors
/// The exit status, once a page is written or `errors` says why.
pub fn parse<W: Write, E: Write>(
    alloc: Global,
    words: &[String],
    output: &mut W,
    errors: &mut E,
) -> Result<Options, u8>
    ensures { IfOk result ArePossible }
{
    let matches = COMMAND_LINE.parse(alloc, words, output, errors)?;
    match options(alloc, &matches) {
        Ok(options) => Ok(options),
        Err(refusal) => Err(COMMAND_LINE.refuse(alloc, &refusal, errors)),
    }
}

// The options that the words ask for.
fn options(alloc: Global, matches: &Matches<'_>) -> Result<Options, Refusal>
    ensures { IfOk result ArePossible }
{
    let seconds = matches.get("SECONDS").unwrap_or("");
    let seconds = seconds.parse::<f64>().unwrap_or(0.0);
    if !(0.001 <= seconds && seconds <= 3600.0) {
        return Err(matches.invalid(alloc, "SECONDS", "it is not in 0.001..=3600"));
    }
    let options = Options {
        target: saturating_f64_to_u64(1e6 * seconds),
        most: number(matches, "MEBIBYTES")
            .unwrap_or(64)
            .saturating_mul(1024),
        lanes: number(matches, "lanes").unwrap_or(1),
        min_t: number(matches, "min-t"),
        json: matches.has("json"),
    };
    if !options.are_possible() {
        let why = "the memory has less than 8 blocks of 1024 bytes for each lane";
        return Err(matches.invalid(alloc, "lanes", why));
    }
    Ok(options)
}

// The number that an argument has.
fn number(matches: &Matches<'_>, name: &str) -> Option<u32> {
    matches.get(name)?.parse::<u32>().ok()
}
