//! The words of a command line.

ghost use Rattle.std.specs.Prelude.{◌≡◌, ◌⊎◌};

use crate::failure::Failure;
use std::alloc::AllocError;
use std::env::{self, Env};
use std::io::{ErrorKind, Write};
use std::str;

// The most bytes of a word that a message names.
const MAX_WORD_LEN: usize = 4096;

/// Why a program does not have the words of its command line.
#[derive(Debug, Drop)]
pub enum NoWords {
    /// A request for memory was refused.
    Memory(AllocError),
    /// A word is not UTF-8.
    NotUtf8,
}

impl NoWords {
    /// Says on `errors` why `program` has no words, and returns its exit status: 3 if memory is refused, and 2 if a word is
    /// not UTF-8. If `errors` can't be written, the status stays.
    pub fn report<E: Write>(self, rt: &HostRuntime, program: &str, errors: &mut E) -> u8
        ensures { (result ≡ 2) ⊎ (result ≡ 3) }
    {
        match self {
            NoWords::Memory(refused) => Failure::Memory(refused).report(program, "", errors),
            NoWords::NotUtf8 => {
                name_wrong(rt, errors);
                2
            }
        }
    }
}

/// The words of the command line after the name of the program.
///
/// # Errors
/// A request for memory is refused, or a word is not UTF-8.
pub fn words(rt: &HostRuntime) -> Result<Vec<String>, NoWords> {
    match env::args(rt) {
        Ok(words) => words.skip(1).collect(rt.alloc()).map_err(NoWords::Memory),
        Err(error) if error.kind() == ErrorKind::OutOfMemory => Err(NoWords::Memory(AllocError)),
        Err(_) => Err(NoWords::NotUtf8),
    }
}

// Says which word is the first that is not UTF-8, and what it is up to there.
fn name_wrong<E: Write>(rt: &HostRuntime, errors: &mut E) {
    let mut word = [0; MAX_WORD_LEN];
    for number in 1..u32::MAX {
        let Ok(len) = rt.arg(number as usize, &mut word) else {
            break;
        };
        if let Err(error) = str::from_utf8(&word[..len]) {
            let begins = str::from_utf8(&word[..error.valid_up_to()]).unwrap_or("");
            let _ = writeln!(
                errors,
                "error: argument {number} is not UTF-8 after '{begins}'\n\nFor more information, try '--help'."
            );
            return;
        }
    }
    let _ = writeln!(
        errors,
        "error: an argument is not UTF-8\n\nFor more information, try '--help'."
    );
}
