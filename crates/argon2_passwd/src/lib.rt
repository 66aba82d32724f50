//! What `argon2-passwd` does, with any streams and any world outside it.
#![tactic(auto)]

pub mod asking;
mod command;
mod entries;
mod failure;
mod lines;
mod options;
mod outside;
mod passwords;
pub mod run;

pub use command::{Action, Command, EditTask, Task};
pub use failure::{Failure, Flaw, SecretKind};
pub use options::Options;
pub use outside::{IfAbsent, News, Outside, RowCheck};
