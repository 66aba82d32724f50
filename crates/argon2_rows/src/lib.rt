//! Names with PHC texts as the rows of a tree, in any store of rows with transactions.
//!
//! The tree is the first one of the store. Each name has one row there, with the name and its text. The rows are in the
//! order of the names' bytes, so a call finds a name by a seek and keeps no name in memory. What a call writes waits in a
//! transaction until [`finish`](table::finish) commits it.
#![tactic(auto)]

pub mod lines;
pub mod rows;
pub mod table;
pub mod text;
mod view;

pub use text::StoredText;
pub use view::{View, Written};
