//! A clock at one tick, as a node sees it.

ghost use Rattle.std.specs.Prelude.{◌≡◌, ℕ, ◌^◌, ◌≤◌};

use crate::DriftClock;
use lwb_base::LocalClock;
use std::marker::Model;

/// A clock at one true tick: what a node sees of it. Contracts see what it reads.
#[derive(Drop)]
pub struct At<'a, C: DriftClock> {
    clock: &'a C,
    t: u64,
}

impl<'a, C: DriftClock> Model for At<'a, C> {
    ghost Value = { ℕ };

    ghost view = { λ a. C.readings a.clock.now a.t };

    ghost invariant = { λ a. a.t ≤ 2 ^ 45 };
}

impl<'a, C: DriftClock> At<'a, C> {
    /// The clock at the true tick `t` of 1/64 µs, at most 2^45.
    pub fn new(clock: &'a C, t: u64) -> At<'a, C>
        requires { t ≤ 2 ^ 45 }
        ensures { result ≡ C.readings clock.now t }
    {
        At { clock, t }
    }
}

impl<'a, C: DriftClock> LocalClock for At<'a, C> {
    ghost time = { λ a. a };

    fn now(&self) -> u64 {
        self.clock.reading(self.t)
    }
}
