//! Clocks within the drift bound, as a trait.

ghost use Rattle.std.specs.Prelude.{◌≡◌, ℕ, ◌+◌, ◌^◌, ◌≤◌};
ghost use Rattle.tick_clock.specs.Clocks.{IsClock, due as due_tick};

/// A clock that drifts by at most `DRIFT_BOUND` parts per million and reads at most 256,000 at tick 0.
///
/// Times are ticks of 1/64 µs. For ticks `t1 <= t2`, `d` apart, its law is
/// `1,000,000 * |reading(t2) - reading(t1) - d| <= DRIFT_BOUND * d + 1,000,000`.
pub trait DriftClock: Drop {
    /// What the clock reads at each true tick.
    ghost readings: { Self → ℕ → ℕ };

    /// What the clock reads at the true tick t.
    fn reading(&self, t: u64) -> u64
        requires { t ≤ 2 ^ 48 }
        ensures { result ≡ readings self.now t };

    /// The first true tick at which the clock reads `local` or more.
    fn due(&self, local: u64) -> u64
        requires { local ≤ 2 ^ 47 }
        ensures { result ≡ due_tick (readings self.now) local };

    ghost keeps_drift_law: { (c : Self) → IsClock (readings c) };
}

/// The turnaround, 192 µs in ticks: from the end of a reception to the start of its relay.
const TURN: u64 = 12_288;

/// The tick at which a relay starts whose reception ended at the tick `end`: a turnaround later by this clock.
pub fn turn_bounds<C: DriftClock>(clock: &C, end: u64) -> u64
    requires { end ≤ 2 ^ 45 }
    ensures value { result ≡ due_tick (C.readings clock.now) (C.readings clock.now end + 12288) }
    ensures earliest { end + 12287 ≤ result }
    ensures latest { result ≤ end + 12289 }
{
    clock.due(clock.reading(end) + TURN)
}
