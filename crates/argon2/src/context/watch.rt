//! The record of a fill.

ghost use Rattle.std.specs.Prelude.{◌≡◌, ◌+◌, slice_set};
ghost use Rattle.argon2.specs.WatchedFilling.{Watches};

use crate::Work;

/// The places of references, and a count of mixings.
#[derive(Drop)]
pub(super) struct Watch<'a> {
    // An entry for each block of each pass, which gets the place of the block's reference; or none.
    positions: &'a mut [u32],
    pub(super) work: Work,
}

impl<'a> Watch<'a> {
    /// A watch that keeps no place.
    pub(super) fn nobody() -> Watch<'a>
        ensures { result.work ≡ 0 }
    {
        Watch::new(&mut [], Work::new())
    }

    /// `positions` has an entry for each block of each pass, which gets the place of the block's reference. `work` counts on.
    pub(super) fn new(positions: &'a mut [u32], work: Work) -> Watch<'a>
        ensures list { result.positions.ghost_name ≡ positions.entry.ghost_name }
        ensures before { result.positions.now ≡ positions.old }
        ensures work { result.work ≡ work }
    {
        Watch { positions, work }
    }

    /// The count of mixings.
    pub(super) fn into_work(self) -> Work
        ensures work { result ≡ self.entry.work }
        ensures places { self.exit.0.now ≡ self.entry.positions.now }
    {
        let Watch { work, .. } = self;
        work
    }

    /// Keeps the place of a reference, if there is an entry for it.
    pub(super) fn put(&mut self, index: usize, place: u32)
        ensures watched { Watches 0 self.old self.new }
        ensures place { self.new.positions.now ≡ slice_set self.old.positions.now index place }
    {
        if index < self.positions.len() {
            self.positions[index] = place;
        }
    }
}
