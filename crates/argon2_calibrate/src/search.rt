//! The search for costs.

ghost use Rattle.std.specs.Prelude.{◌≡◌, ◌≤◌, IfOk, IsFalse, MatchOption, None};
ghost use Rattle.argon2_calibrate.specs.Choice.{ArePossible, IsBest, IsChoice, IsFirst, IsMeasured};

use crate::choice::{Choice, Found, are_scattered, is_shared, least_passes, pass_time, passes};
use crate::options::Options;
use crate::run::PROGRAM;
use crate::stopwatch::{Stopwatch, Times};
use argon2_io::Failure;
use std::alloc::AllocError;
use std::io::Write;

// The most numbers of passes that are tried besides the least number.
const TRIALS: u32 = 4;

// The most measurements of the same costs.
const MEASUREMENTS: u32 = 5;

/// Searches as section 4 of RFC 9106 does. First it halves the memory from the most memory on, until the least passes take
/// no longer than the target. Then it looks for the most passes. Each measured time is written to `errors`.
///
/// # Errors
/// The errors of the stopwatch, and out of memory: for the least memory, or for more passes over memory that an earlier trial
/// had.
pub fn search<S: Stopwatch, E: Write>(
    stopwatch: &mut S,
    errors: &mut E,
    options: Options,
) -> Result<Found, Failure>
    requires { ArePossible options }
    ensures { IfOk result (IsChoice (S.may_take options.lanes) options) }
{
    let first = most_memory(stopwatch, errors, options)?;
    most_passes(stopwatch, errors, options, first)
}

// Halves the memory from the most memory on, until the least passes take no longer than the target or the memory is the least.
fn most_memory<S: Stopwatch, E: Write>(
    stopwatch: &mut S,
    errors: &mut E,
    options: Options,
) -> Result<Found, Failure>
    requires { ArePossible options }
    ensures some { IfOk result (λ found. 1 ≤ found.choice.t_cost) }
    ensures first { IfOk result (λ found. IsFirst (S.may_take options.lanes) options found.choice) }
    ensures quiet { IfOk result (λ found. IsFalse found.busy → IsFalse found.choice.busy) }
{
    let (mut m_cost, mut busy) = (options.most, false);
    'halves: loop {
        let least = least_passes(options.min_t, m_cost);
        let is_least = m_cost < 16 * options.lanes;
        match measure(stopwatch, errors, options, m_cost, least)? {
            Some(choice) => {
                busy |= choice.busy;
                if is_least || choice.time <= options.target {
                    return Ok(Found { choice, busy });
                }
            }
            None if is_least => return Err(Failure::Memory(AllocError)),
            None => {
                let _ = writeln!(
                    errors,
                    "{PROGRAM}: m={m_cost} is out of memory, trying half"
                );
            }
        }
        m_cost /= 2;
    }
}

// The most passes over the same memory that take no longer than the target. The last measured time determines the number of
// passes that is tried next. That number is less than each number that took longer than the target.
fn most_passes<S: Stopwatch, E: Write>(
    stopwatch: &mut S,
    errors: &mut E,
    options: Options,
    found: Found,
) -> Result<Found, Failure>
    requires some { 1 ≤ found.choice.t_cost }
    requires measured { IsMeasured (S.may_take options.lanes) found.choice }
    requires quiet { IsFalse found.busy → IsFalse found.choice.busy }
    ensures { IfOk result (IsBest (S.may_take options.lanes) options.target found.choice) }
{
    let first = found.choice;
    let (mut best, mut busy) = (first, found.busy);
    let (mut most, mut next) = (u32::MAX, first.t_cost.saturating_add(1));
    'trials: for _ in 0..TRIALS {
        if next <= best.t_cost {
            break;
        }
        let Some(trial) = measure(stopwatch, errors, options, first.m_cost, next)? else {
            return Err(Failure::Memory(AllocError));
        };
        busy |= trial.busy;
        if trial.time <= options.target {
            best = trial;
        } else {
            most = next - 1;
        }
        let pass_time = pass_time(first, next, trial.time);
        next = passes(options.target, first, pass_time).min(most);
    }
    let is_short = best.time < options.target / 2 && best.t_cost < most;
    Ok(Found {
        choice: best,
        busy: busy || is_short,
    })
}

// Measures costs, and writes the time of a hash to `errors`. The answer is none if the memory is refused.
fn measure<S: Stopwatch, E: Write>(
    stopwatch: &mut S,
    errors: &mut E,
    options: Options,
    m_cost: u32,
    t_cost: u32,
) -> Result<Option<Choice>, Failure>
    ensures { IfOk result (λ choice. MatchOption choice
        (S.may_take options.lanes m_cost t_cost None)
        (λ c. (c.m_cost ≡ m_cost) × (c.t_cost ≡ t_cost) × IsMeasured (S.may_take options.lanes) c)) }
{
    let lanes = options.lanes;
    let Some(taken) = times(stopwatch, errors, lanes, m_cost, t_cost)? else {
        return Ok(None);
    };
    let [a, b, c] = taken.taken;
    let time = a.min(b).min(c);
    let choice = Choice {
        m_cost,
        t_cost,
        time,
        busy: are_scattered(a, b, c) || is_shared(taken.worked, time),
    };
    let (seconds, micros) = (choice.time / 1_000_000, choice.time % 1_000_000);
    let _ = writeln!(
        errors,
        "{PROGRAM}: m={m_cost},t={t_cost},p={lanes} takes {seconds}.{micros:06} seconds"
    );
    Ok(Some(choice))
}

// The times of three hashes. They are measured again while they scatter.
fn times<S: Stopwatch, E: Write>(
    stopwatch: &mut S,
    errors: &mut E,
    lanes: u32,
    m_cost: u32,
    t_cost: u32,
) -> Result<Option<Times>, Failure>
    ensures { IfOk result (λ times. S.may_take lanes m_cost t_cost times) }
{
    let mut times = stopwatch.times(lanes, m_cost, t_cost)?;
    'again: for _ in 1..MEASUREMENTS {
        let Some(taken) = times else {
            break;
        };
        let [a, b, c] = taken.taken;
        if !are_scattered(a, b, c) {
            break;
        }
        let _ = writeln!(errors, "{PROGRAM}: the machine is busy, measuring again");
        times = stopwatch.times(lanes, m_cost, t_cost)?;
    }
    Ok(times)
}
