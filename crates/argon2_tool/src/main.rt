//! `argon2-tool`: digests, tags and PHC texts of standard input, and verifying.
#![tactic(auto)]

use argon2_io::{NoWords, words, write_line};
use arguments::Command;
use asking::{Awaited, ask, awaited_by};
use std::io::{Cursor, IsTerminal};
use std::process::ExitCode;

mod arguments;
mod asking;
mod failure;
mod run;

pub use run::run;

fn main(rt: HostRuntime) -> ExitCode {
    let status = match words(&rt) {
        Ok(args) => start(&rt, args.as_slice()),
        Err(NoWords::Memory(refused)) => run::fail(&mut rt.stderr(), refused.into()),
        // (no command has an argument that is not UTF-8)
        Err(NoWords::NotUtf8) => start(&rt, &[]),
    };
    ExitCode::from(status)
}

// Runs the command, and returns the exit status. On a terminal it asks for a password, or says that input is awaited.
fn start(rt: &HostRuntime, args: &[String]) -> u8 {
    let (mut output, mut errors) = (rt.stdout(), rt.stderr());
    let awaited = match Command::parse(args) {
        Some(command) if rt.stdin().is_terminal() => awaited_by(&command),
        _ => Awaited::Nothing,
    };
    match awaited {
        Awaited::Password => match ask(rt.alloc(), &mut rt.reader(), &mut errors) {
            Ok(bytes) => {
                let mut input = Cursor::new(bytes.as_slice());
                return run(rt.alloc(), args, &mut input, &mut output, &mut errors);
            }
            Err(failure) => return run::fail(&mut errors, failure),
        },
        Awaited::Input if errors.is_terminal() => {
            let _ = write_line(&mut errors, &[b"argon2-tool: input, then Ctrl-D"]);
        }
        _ => {}
    }
    run(rt.alloc(), args, &mut rt.reader(), &mut output, &mut errors)
}
