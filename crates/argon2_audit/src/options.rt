//! What an audit is asked for.

use crate::field::Field;
use crate::limits::Limits;

/// What is written.
#[derive(Clone, Copy, PartialEq, Eq)]
pub enum Form {
    /// Remarks and a table, as lines.
    Lines,
    /// One JSON object.
    Json,
    /// Nothing.
    Quiet,
}

/// What an audit is asked for.
#[derive(Clone, Copy)]
pub struct Options {
    /// What a sound text has.
    pub limits: Limits,
    /// Which field of a line is its text.
    pub field: Field,
    /// What is written.
    pub form: Form,
    /// Whether remarks on lines are written.
    pub has_remarks: bool,
}
