//! A clock that drifts as far as it may, as early as it may.

ghost use Rattle.std.specs.Prelude.{◌≡◌, ℕ, ◌^◌, ◌<◌, ◌≤◌, true, false};
ghost use Rattle.tick_clock.specs.Jumps.{jump_reading};
ghost use Rattle.tick_clock.specs.JumpLaw.{jump_law};

use crate::DriftClock;
use lwb_base::DRIFT_PERIOD;

/// A clock that gains, or loses, each tick of the greatest drift as early as it may.
///
/// It reads `offset + t + ceil(DRIFT_BOUND * t / 1,000,000)` if it is fast, else `offset + t - ceil(DRIFT_BOUND * t / 1,000,000)`.
#[derive(Clone, Copy, Debug)]
pub struct JumpClock {
    offset: u64,
    fast: bool,
    ghost early: { offset ≤ 256000 },
}

impl JumpClock {
    ghost use Rattle.tick_clock.specs.ClockReadings.{jump_clock_reads};

    /// A clock that gains, or loses where it is not fast, and has the offset at tick 0: 0 to 256,000 ticks.
    pub fn new(offset: u64, fast: bool) -> JumpClock
        requires { offset ≤ 256000 }
        ensures { jump_clock_reads result ≡ jump_reading offset fast }
    {
        JumpClock { offset, fast }
    }
}

impl DriftClock for JumpClock {
    ghost use Rattle.tick_clock.specs.ClockReadings.{jump_clock_reads};

    ghost readings = { jump_clock_reads };

    ghost keeps_drift_law = { λ c. jump_law c.offset c.fast c.early };

    fn reading(&self, t: u64) -> u64 {
        let jumped = t.div_ceil(DRIFT_PERIOD);
        if self.fast {
            self.offset + t + jumped
        } else {
            self.offset + t - jumped
        }
    }

    fn due(&self, local: u64) -> u64 {
        let ahead = local.saturating_sub(self.offset);
        if self.fast {
            fast_due(ahead)
        } else {
            slow_due(ahead)
        }
    }
}

// In a drift period a fast clock reads one tick more, two of them in the first tick.
fn fast_due(ahead: u64) -> u64
    requires { ahead ≤ 2 ^ 48 }
    ensures reached { ahead ≤ jump_reading 0 true result }
    ensures before { (s : ℕ) → s < result → jump_reading 0 true s < ahead }
{
    let rest = ahead % (DRIFT_PERIOD + 1);
    ahead / (DRIFT_PERIOD + 1) * DRIFT_PERIOD + if rest < 2 { rest } else { rest - 1 }
}

// In a drift period a slow clock reads one tick less, none of them in the first tick.
fn slow_due(ahead: u64) -> u64
    requires { ahead ≤ 2 ^ 48 }
    ensures reached { ahead ≤ jump_reading 0 false result }
    ensures before { (s : ℕ) → s < result → jump_reading 0 false s < ahead }
{
    if ahead == 0 {
        0
    } else {
        ahead + (ahead - 1) / (DRIFT_PERIOD - 1) + 1
    }
}
