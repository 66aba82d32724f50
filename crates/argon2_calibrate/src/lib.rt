//! What `argon2-calibrate` does, over any stopwatch and streams, and the stopwatch of this machine.
#![tactic(auto)]

mod choice;
mod options;
pub mod run;
mod search;
mod stopwatch;

pub use options::Options;
pub use stopwatch::{Machine, Stopwatch, Times};
