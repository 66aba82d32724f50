//! `argon2-audit`: says which lines of its input store passwords below a policy.
#![tactic(auto)]

use argon2_audit::run::{PROGRAM, run};
use argon2_io::{Failure, words, write_line};
use inputs::Inputs;
use std::alloc::AllocError;
use std::io::{BufWriter, IsTerminal};
use std::process::ExitCode;

mod arguments;
mod inputs;

fn main(rt: HostRuntime) -> ExitCode {
    let mut errors = rt.stderr();
    let Ok(mut output) = BufWriter::new(rt.alloc(), rt.stdout()) else {
        return ExitCode::from(Failure::Memory(AllocError).report(PROGRAM, "", &mut errors));
    };
    let words = match words(&rt) {
        Ok(words) => words,
        Err(none) => return ExitCode::from(none.report(&rt, PROGRAM, &mut errors)),
    };
    let status = match arguments::parse(rt.alloc(), words.as_slice(), &mut output, &mut errors) {
        Ok((options, names)) => {
            if rt.stdin().is_terminal()
                && errors.is_terminal()
                && matches!(names.as_slice(), ["-"])
            {
                let parts = [
                    PROGRAM.as_bytes(),
                    b": stored hashes, or lines NAME:HASH, then Ctrl-D",
                ];
                let _ = write_line(&mut errors, &parts);
            }
            let mut inputs = Inputs::new(&rt, names.as_slice());
            let (alloc, shows) = (rt.alloc(), errors.is_terminal());
            run(alloc, options, &mut inputs, &mut output, &mut errors, shows)
        }
        Err(status) => status,
    };
    ExitCode::from(status)
}
