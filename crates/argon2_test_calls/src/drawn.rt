//! A generator of stated bytes that counts what is drawn.

ghost use Rattle.std.specs.Prelude.{ℕ, ◌+◌, ◌%◌, ◌^◌};
ghost use Rattle.rand_core.specs.Steps.{stream_of, steps_u32};

use rand_core::Rng;
use rand_core::utils::{self, NextWord};
use std::marker::Model;

/// A generator whose words, four bytes with the low one first, begin with one and grow by a step.
#[derive(Drop)]
pub struct Drawn {
    next: u32,
    step: u32,
    words: u32,
}

impl Drawn {
    /// A generator whose first word is this one, which grows by a step; both with the low byte first.
    pub fn new(first: [u8; 4], step: [u8; 4]) -> Drawn {
        Drawn {
            next: u32::from_le_bytes(first),
            step: u32::from_le_bytes(step),
            words: 0,
        }
    }

    /// How many bytes were drawn.
    pub fn count(&self) -> u32 {
        self.words.wrapping_mul(4)
    }
}

impl Model for Drawn {
    ghost Value = { ℕ × ℕ × ℕ };

    ghost view = { λ drawn. (drawn.next, drawn.step, drawn.words) };
}

impl NextWord<u32> for Drawn {
    ghost step = { λ drawn. (drawn.0, ((drawn.0 + drawn.1) % 2 ^ 32, drawn.1, (drawn.2 + 1) % 2 ^ 32)) };

    fn next_word(&mut self) -> u32 {
        let word = self.next;
        self.next = word.wrapping_add(self.step);
        self.words = self.words.wrapping_add(1);
        word
    }
}

impl Rng for Drawn {
    ghost stream = { stream_of (steps_u32 (λ drawn.
        (drawn.0, ((drawn.0 + drawn.1) % 2 ^ 32, drawn.1, (drawn.2 + 1) % 2 ^ 32)))) };

    fn next_u32(&mut self) -> u32 {
        self.next_word()
    }

    fn next_u64(&mut self) -> u64 {
        utils::next_u64_via_u32(self)
    }

    fn fill_bytes(&mut self, dst: &mut [u8]) {
        utils::fill_bytes_via_u32(self, dst)
    }
}
