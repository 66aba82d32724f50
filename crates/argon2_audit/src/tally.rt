//! Counts of lines.

ghost use Rattle.std.specs.Prelude.{◌≤◌, ℕ, get_or};

use crate::finding::Class;
use crate::limits::Limits;

/// How many lines were read, of each class, and how many of them have a short or an equal salt or another key identifier.
#[derive(Clone, Copy)]
pub struct Tally {
    pub lines: u64,
    /// The number of lines of each class, by the number of the class.
    pub counts: [u64; 10],
    pub short_salts: u64,
    pub equal_salts: u64,
    pub other_keys: u64,
    ghost within: { (class : ℕ) → get_or counts class 0 ≤ lines },
    ghost short: { short_salts ≤ lines },
    ghost equal: { equal_salts ≤ lines },
    ghost other: { other_keys ≤ lines },
}

impl Tally {
    ghost use Rattle.std.specs.Prelude.{◌≡◌, ◌<◌, ◌^◌, ◌-◌, ◌↔◌, IsTrue};
    ghost use Rattle.argon2_audit.specs.Audit.{Counts, IsClean, count_of};

    /// Counts a line of a class, and whether its salt is short, an earlier line has its salt, and its key identifier is not the
    /// required one.
    pub fn add(&mut self, class: Class, is_short: bool, is_equal: bool, is_other: bool)
        requires { self.old.lines < 2 ^ 64 - 1 }
        ensures { Counts class is_short is_equal is_other self.old self.new }
    {
        self.lines += 1;
        self.counts[class as usize] += 1;
        self.short_salts += u64::from(is_short);
        self.equal_salts += u64::from(is_equal);
        self.other_keys += u64::from(is_other);
    }

    /// How many lines of a class were counted.
    pub fn count(&self, class: Class) -> u64
        ensures { result ≡ count_of class self.now }
    {
        self.counts[class as usize]
    }

    /// Whether each line counts as sound, and no two salts are equal.
    pub fn is_clean(&self, limits: &Limits) -> bool
        ensures { IsTrue result ↔ IsClean limits.now self.now }
    {
        let is_sound = self.count(Class::Outside) == 0
            && self.count(Class::NoHash) == 0
            && self.count(Class::Below) == 0
            && self.count(Class::Empty) == 0
            && self.count(Class::Unknown) == 0;
        let has_no_other = self.count(Class::Other) == 0
            && self.count(Class::Locked) == 0
            && self.count(Class::Blank) == 0
            && self.count(Class::Comment) == 0;
        is_sound && (limits.allows_other || has_no_other) && self.equal_salts == 0
    }
}
