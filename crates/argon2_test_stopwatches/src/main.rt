//! Runs `argon2_calibrate` on machines without a clock. Each line of standard input is `CALL = ANSWER`, as this one:
//!
//!     full blocks=7 measurements=100 target=1000000 most=1024 lanes=1 = status 3; errors ..: out of memory\n
//!
//! The program prints each call whose line has another answer, with the answer that it found, and last the numbers of right and
//! wrong lines. It ignores empty lines and lines that begin with `#`.
//!
//! - CALL has these words in this order: the machine with its numbers (machine.rt); the options `target` in microseconds, `most`
//!   in blocks, and `lanes`; then `min_t`, `json`, `output_calls` and `errors_calls`, if they are given. The last two are the
//!   numbers of calls after which a stream fails. A call that can't be read, or has impossible options, has the answer `?`.
//! - ANSWER has parts between `; `. `output TEXT` and `errors TEXT` say what is written to a stream, `status N` gives the exit
//!   status, and `again N` the number of lines in the errors that say that the program measures again.
//! - In TEXT `\n` is a line feed, and `..`, at most twice, stands for any text.
#![tactic(auto)]

use call::Call;
use std::alloc::Global;
use std::io::{self, BufWriter, Read, Write};

mod call;
mod found;
mod machine;
mod stream;
mod words;

fn main(rt: HostRuntime) -> io::Result<()> {
    let alloc = rt.alloc();
    let mut text = String::new(alloc);
    rt.reader().read_to_string(&mut text)?;
    let mut output = BufWriter::new(alloc, rt.stdout())?;
    let (mut right, mut wrong) = (0_u32, 0_u32);
    for line in text.lines() {
        if line.is_empty() || line.starts_with('#') {
            continue;
        }
        if is_right(alloc, line, &mut output)? {
            right = right.saturating_add(1);
        } else {
            wrong = wrong.saturating_add(1);
        }
    }
    writeln!(output, "{right} right, {wrong} wrong")?;
    output.flush()
}

// Whether a line has the answer that its call has. Otherwise the call is written with the answer that was found.
fn is_right<W: Write>(alloc: Global, line: &str, output: &mut W) -> io::Result<bool> {
    let (text, answer) = line.split_once(" = ").unwrap_or((line, ""));
    let found = match Call::read(text) {
        Some(call) => call.run(alloc)?,
        None => None,
    };
    let Some(found) = found else {
        writeln!(output, "{text} = ?")?;
        return Ok(false);
    };
    let is_right = found.is(answer);
    if !is_right {
        writeln!(output, "{text} = {found}")?;
    }
    Ok(is_right)
}
