//! The command lines of programs, which `clap` reads.
#![tactic(auto)]

mod command_line;
mod macros;
mod matches;

pub use command_line::{Argument, CommandLine, Form, Kind};
pub use matches::{Matches, Refusal};

/// The version of the programs, which stands in the file VERSION.
pub const VERSION: &str = "0.6.0+2";
