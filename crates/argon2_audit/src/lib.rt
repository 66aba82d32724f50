//! What `argon2-audit` does, over any streams.
#![tactic(auto)]

mod claim;
mod entry;
mod field;
mod finding;
mod json_report;
mod kind;
mod limits;
mod options;
mod report;
pub mod run;
mod seen;
mod session;
mod tally;

pub use field::Field;
pub use limits::Limits;
pub use options::{Form, Options};
pub use tally::Tally;
