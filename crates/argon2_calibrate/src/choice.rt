//! Costs that are chosen by measured times.

ghost use Rattle.std.specs.Prelude.{◌≡◌, ◌≤◌, ◌<◌, IfSome};
ghost use Rattle.argon2_calibrate.specs.Choice.{IsGreatest, pass_time_of, is_shared, least_passes, are_scattered};

/// Memory and passes, and the times of three hashes under them.
#[derive(Clone, Copy, Debug, PartialEq, Eq)]
pub struct Choice {
    /// Memory in blocks of 1024 bytes.
    pub m_cost: u32,
    /// Passes.
    pub t_cost: u32,
    /// The least of the three times, in microseconds.
    pub time: u64,
    /// Whether the three times scatter, or the processor did other work.
    pub busy: bool,
}

/// The costs that a search found.
#[derive(Clone, Copy, Debug, PartialEq, Eq)]
pub struct Found {
    /// The costs.
    pub choice: Choice,
    /// Whether the machine may have been too busy for the search to find better costs.
    pub busy: bool,
}

/// Whether the greatest of three times is above the least by more than a quarter.
pub fn are_scattered(a: u64, b: u64, c: u64) -> bool
    ensures { result ≡ are_scattered a b c }
{
    let least = a.min(b).min(c);
    a.max(b).max(c) - least > least / 4
}

/// Whether the processor worked for less than three quarters of a time: it did other work meanwhile.
pub fn is_shared(worked: u64, time: u64) -> bool
    ensures { result ≡ is_shared worked time }
{
    worked < time - time / 4
}

/// The least number of passes over `m_cost` blocks: what is asked for, or else 2 below 64 MiB and 1 from 64 MiB on.
pub fn least_passes(min_t: Option<u32>, m_cost: u32) -> u32
    requires { IfSome min_t (λ least. 1 ≤ least) }
    ensures value { result ≡ least_passes min_t m_cost }
    ensures some { 1 ≤ result }
{
    match min_t {
        Some(least) => least,
        None if m_cost < 65536 => 2,
        None => 1,
    }
}

/// An estimate of the time of one more pass, from the measured times of the least passes and of `passes`. The estimate is at
/// least half of the average time of a pass, because the first hash can be slow.
pub fn pass_time(first: Choice, passes: u32, time: u64) -> u64
    requires { first.t_cost < passes }
    ensures { result ≡ pass_time_of first passes time }
{
    let more = u64::from(passes - first.t_cost);
    let apart = time.saturating_sub(first.time) / more;
    apart.max(time / (2 * u64::from(passes))).max(1)
}

/// The greatest number of passes that takes no longer than the target, or the least number if no number does.
pub fn passes(target: u64, first: Choice, pass_time: u64) -> u32
    requires { 0 < pass_time }
    ensures { IsGreatest target first pass_time result }
{
    if target <= first.time {
        return first.t_cost;
    }
    let more = (target - first.time) / pass_time;
    if more < u64::from(u32::MAX - first.t_cost) {
        more as u32 + first.t_cost
    } else {
        u32::MAX
    }
}
