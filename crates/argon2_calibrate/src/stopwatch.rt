//! Measuring the time of hashes.

ghost use Rattle.std.specs.Prelude.{None};
ghost use Rattle.argon2.specs.Argon2.{IsContextOf};
ghost use Rattle.argon2.specs.Settings.{AreValid, cost_parameters};
ghost use Rattle.argon2.specs.declared.algorithm.Algorithm.TheVariants.{Argon2id};
ghost use Rattle.argon2.specs.declared.version.Version.TheVariants.{V0x13};

use argon2::{Algorithm, Argon2, Params, Version};
use argon2_io::Failure;
use std::alloc::Global;
use std::rt::{Clock, CpuClock};
use std::time::{Duration, Instant};

const NO_CLOCK: Failure = Failure::Other("the clock can't be read");

const REFUSED: Failure = Failure::Other("hashing is refused");

/// The times of three hashes, in microseconds.
#[derive(Clone, Copy, Debug, PartialEq, Eq)]
pub struct Times {
    /// The time of each hash.
    pub taken: [u64; 3],
    /// The greatest time that the processor worked for one of the hashes.
    pub worked: u64,
}

/// Measures hashes by Argon2id.
pub trait Stopwatch {
    ghost use Rattle.std.specs.Prelude.{ℕ, ⊤, Option, IfOk, option_map};
    ghost use Rattle.argon2_calibrate.specs.declared.stopwatch.Times.{Times};

    // The times that three hashes with these lanes, blocks and passes may take; none if their memory may be refused.
    ghost may_take: { ℕ → ℕ → ℕ → Option Times → Type 0 } = { λ _ _ _ _. ⊤ };

    /// The times of three hashes with these lanes, blocks of 1024 bytes and passes; none if their memory is refused.
    ///
    /// # Errors
    /// The clock can't be read.
    fn times(&mut self, lanes: u32, m_cost: u32, t_cost: u32) -> Result<Option<Times>, Failure>
        ensures { IfOk result (λ times. may_take lanes m_cost t_cost times) };
}

/// The machine that the program runs on.
#[derive(Drop)]
pub struct Machine<'a, C: Clock + CpuClock> {
    alloc: Global,
    clock: &'a C,
    available: u32,
}

impl<'a, C: Clock + CpuClock> Machine<'a, C> {
    /// The machine with this clock, which refuses more than `available` blocks of memory.
    pub fn new(alloc: Global, clock: &'a C, available: u32) -> Machine<'a, C> {
        Machine {
            alloc,
            clock,
            available,
        }
    }

    // The microseconds that one hash takes, and the microseconds that the processor works for it; none if its memory is
    // refused.
    fn time(&self, argon2: &Argon2<'_>) -> Result<Option<(u64, u64)>, Failure> {
        let mut tag = [0; Params::DEFAULT_OUTPUT_LEN];
        let worked = self.clock.process_cpu_time().or(Err(NO_CLOCK))?;
        let begun = Instant::now(self.clock).or(Err(NO_CLOCK))?;
        match argon2.hash_password_into(self.alloc, b"password", b"somesaltsomesalt", &mut tag) {
            Ok(()) => {}
            Err(argon2::Error::OutOfMemory) => return Ok(None),
            Err(_) => return Err(REFUSED),
        }
        let taken = begun.elapsed(self.clock).or(Err(NO_CLOCK))?;
        let works = self.clock.process_cpu_time().or(Err(NO_CLOCK))?;
        Ok(Some((micros(taken), micros(works.saturating_sub(worked)))))
    }
}

// A time in microseconds.
fn micros(time: Duration) -> u64 {
    u64::try_from(time.as_micros()).unwrap_or(u64::MAX)
}

// Argon2id with these lanes, blocks and passes, which is timed.
fn argon2id(lanes: u32, m_cost: u32, t_cost: u32) -> argon2::Result<Argon2<'static>>
    ensures { IsContextOf Argon2id V0x13 (cost_parameters m_cost t_cost lanes None) result }
{
    let params = Params::new(m_cost, t_cost, lanes, None)?;
    Ok(Argon2::new(Algorithm::Argon2id, Version::V0x13, params))
}

impl<C: Clock + CpuClock> Stopwatch for Machine<'_, C> {
    // Only valid costs have a time.
    ghost may_take = { λ lanes m_cost t_cost _. AreValid (cost_parameters m_cost t_cost lanes None) };

    fn times(&mut self, lanes: u32, m_cost: u32, t_cost: u32) -> Result<Option<Times>, Failure> {
        let argon2 = argon2id(lanes, m_cost, t_cost).or(Err(REFUSED))?;
        if m_cost > self.available {
            return Ok(None);
        }
        let (Some(a), Some(b), Some(c)) = (
            self.time(&argon2)?,
            self.time(&argon2)?,
            self.time(&argon2)?,
        ) else {
            return Ok(None);
        };
        Ok(Some(Times {
            taken: [a.0, b.0, c.0],
            worked: a.1.max(b.1).max(c.1),
        }))
    }
}
