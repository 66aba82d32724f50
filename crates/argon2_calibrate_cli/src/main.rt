//! `argon2-calibrate`: the costs under which a hash takes a given time on this machine.
#![tactic(auto)]

use argon2_calibrate::Machine;
use argon2_calibrate::run::{PROGRAM, run};
use argon2_io::words;
use std::fs;
use std::process::ExitCode;

mod arguments;

fn main(rt: HostRuntime) -> ExitCode {
    let (mut output, mut errors) = (rt.stdout(), rt.stderr());
    let alloc = rt.alloc();
    let words = match words(&rt) {
        Ok(words) => words,
        Err(none) => return ExitCode::from(none.report(&rt, PROGRAM, &mut errors)),
    };
    let status = match arguments::parse(alloc, words.as_slice(), &mut output, &mut errors) {
        Ok(options) => {
            let mut machine = Machine::new(alloc, &rt, available(&rt));
            run(alloc, options, &mut machine, &mut output, &mut errors)
        }
        Err(status) => status,
    };
    ExitCode::from(status)
}

// How many blocks of memory the system has for a new program without swapping; no bound if it does not say.
fn available(rt: &HostRuntime) -> u32 {
    match fs::read_to_string(rt, "/proc/meminfo") {
        Ok(text) => text
            .lines()
            .find_map(|line| blocks(line))
            .unwrap_or(u32::MAX),
        Err(_) => u32::MAX,
    }
}

// The number of a line `MemAvailable: N kB`.
fn blocks(line: &str) -> Option<u32> {
    let number = line.strip_prefix("MemAvailable:")?.strip_suffix("kB")?;
    number.trim().parse::<u32>().ok()
}
