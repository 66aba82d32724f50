//! Machines that need no clock.

use crate::words::Words;
use argon2_calibrate::{Stopwatch, Times};
use argon2_io::Failure;

/// A machine. A call names it by its word in lower case and by its numbers, as in `even once=0 busy=0`.
#[derive(Drop)]
pub enum Machine {
    /// A hash takes a microsecond for each block and pass, and `once` microseconds more. In the first `busy` measurements the
    /// last of three hashes takes a microsecond more than it may take on a machine that is not busy.
    Even { once: u32, busy: u32 },
    /// A hash takes 10 ms for each pass. But a hash with two passes takes `two` microseconds, and the second of three such hashes
    /// takes twice as long.
    Uneven { two: u32 },
    /// Each hash takes a millisecond. The machine has `blocks` blocks of memory, and no memory after `measurements` measurements.
    Full { blocks: u32, measurements: u32 },
    /// Each hash takes a second, and the processor works for `worked` microseconds of it.
    Shared { worked: u32 },
    /// The clock can't be read.
    Stopped,
}

impl Machine {
    /// Reads a machine, if the next words name one.
    pub fn read(words: &mut Words<'_>) -> Option<Machine> {
        let machine = match words.word() {
            "even" => Machine::Even {
                once: words.number("once")?,
                busy: words.number("busy")?,
            },
            "uneven" => Machine::Uneven {
                two: words.number("two")?,
            },
            "full" => Machine::Full {
                blocks: words.number("blocks")?,
                measurements: words.number("measurements")?,
            },
            "shared" => Machine::Shared {
                worked: words.number("worked")?,
            },
            "stopped" => Machine::Stopped,
            _ => return None,
        };
        Some(machine)
    }
}

impl Stopwatch for Machine {
    fn times(&mut self, _lanes: u32, m_cost: u32, t_cost: u32) -> Result<Option<Times>, Failure> {
        match self {
            Machine::Even { once, busy } => {
                let blocks = u64::from(m_cost).saturating_mul(u64::from(t_cost));
                let taken = blocks.saturating_add(u64::from(*once));
                let close = taken.saturating_add(taken / 4);
                if *busy == 0 {
                    return Ok(alone([close, taken, taken]));
                }
                *busy -= 1;
                Ok(alone([close, taken, close.saturating_add(1)]))
            }
            Machine::Uneven { two } => {
                if t_cost == 2 {
                    let taken = u64::from(*two);
                    return Ok(alone([taken, 2 * taken, taken]));
                }
                Ok(alone([10_000 * u64::from(t_cost); 3]))
            }
            Machine::Full {
                blocks,
                measurements,
            } => {
                if m_cost > *blocks || *measurements == 0 {
                    return Ok(None);
                }
                *measurements -= 1;
                Ok(alone([1000; 3]))
            }
            Machine::Shared { worked } => Ok(Some(Times {
                taken: [1_000_000; 3],
                worked: u64::from(*worked),
            })),
            Machine::Stopped => Err(Failure::Other("the clock can't be read")),
        }
    }
}

// Times for which the processor worked for nothing else.
fn alone(taken: [u64; 3]) -> Option<Times> {
    let [a, b, c] = taken;
    let worked = a.max(b).max(c);
    Some(Times { taken, worked })
}
