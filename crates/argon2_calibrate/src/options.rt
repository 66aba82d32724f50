//! What a calibration is asked for.

use argon2::Params;

/// What a calibration is asked for.
#[derive(Clone, Copy, Debug, PartialEq, Eq)]
pub struct Options {
    /// The time that a hash may take, in microseconds.
    pub target: u64,
    /// The most memory in blocks of 1024 bytes.
    pub most: u32,
    /// Lanes.
    pub lanes: u32,
    /// The least number of passes, if the caller sets it.
    pub min_t: Option<u32>,
    /// Whether the answer is a JSON object.
    pub json: bool,
}

impl Options {
    ghost use Rattle.std.specs.Prelude.{◌↔◌, IsTrue};
    ghost use Rattle.argon2_calibrate.specs.Choice.{ArePossible};

    /// Whether the least passes over the most memory with these lanes are valid parameters.
    pub fn are_possible(&self) -> bool
        ensures { IsTrue result ↔ ArePossible self.now }
    {
        Params::new(self.most, self.min_t.unwrap_or(1), self.lanes, None).is_ok()
    }
}
