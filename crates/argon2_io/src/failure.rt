//! Why the programs fail, and what they then print.

ghost use Rattle.std.specs.Prelude.{◌≡◌};
ghost use Rattle.argon2_io.specs.Failures.{IsOfReading};

use std::alloc::AllocError;
use std::io;
use std::io::{ErrorKind, Write};

/// Why a program fails.
#[derive(Debug, Drop)]
pub enum Failure {
    /// Its input can't be opened or read.
    Input(io::Error),
    /// Standard output can't be written.
    Output(io::Error),
    /// A request for memory was refused.
    Memory(AllocError),
    /// Something else fails, which the text names.
    Other(&'static str),
}

impl Failure {
    /// Says on `errors` why `program` fails, with the path or the name of the stream, and returns the status 3. `input` is
    /// what the program was reading. If the reader of standard output has gone, nothing is said.
    pub fn report<E: Write>(&self, program: &str, input: &str, errors: &mut E) -> u8
        ensures { result ≡ 3 }
    {
        let _ = match self {
            Failure::Input(error) => writeln!(errors, "{program}: {input}: {error}"),
            Failure::Output(error) if error.kind() == ErrorKind::BrokenPipe => Ok(()),
            Failure::Output(error) => writeln!(errors, "{program}: standard output: {error}"),
            Failure::Memory(_) => writeln!(errors, "{program}: out of memory"),
            Failure::Other(what) => writeln!(errors, "{program}: {what}"),
        };
        3
    }

    /// The failure of a read: `OutOfMemory` becomes `Memory`.
    pub fn of_reading(error: io::Error) -> Failure
        ensures { IsOfReading error result }
    {
        match error.kind() {
            ErrorKind::OutOfMemory => Failure::Memory(AllocError),
            _ => Failure::Input(error),
        }
    }
}

impl From<AllocError> for Failure {
    ghost use Rattle.argon2_io.specs.declared.failure.Failure.TheVariants.{Memory};

    ghost from_gives = { λ refused failure. failure ≡ Memory refused };

    fn from(refused: AllocError) -> Failure {
        Failure::Memory(refused)
    }
}

impl From<io::Error> for Failure {
    ghost use Rattle.argon2_io.specs.declared.failure.Failure.TheVariants.{Output};

    ghost from_gives = { λ error failure. failure ≡ Output error };

    fn from(error: io::Error) -> Failure {
        Failure::Output(error)
    }
}
