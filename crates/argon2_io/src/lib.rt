//! What the programs share: the words of a command line, why a program fails, and lines that are written.
#![tactic(auto)]

mod arguments;
mod failure;
mod line;

pub use arguments::{NoWords, words};
pub use failure::Failure;
pub use line::{write_bytes, write_line, write_parts};
