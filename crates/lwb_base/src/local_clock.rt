//! The clock that a node reads, as a trait.

ghost use Rattle.std.specs.Prelude.{◌≡◌, ℕ, ◌^◌, ◌<◌};

/// A clock as a node sees it: what it reads now, in local ticks of 1/64 µs.
pub trait LocalClock {
    /// What the clock reads now.
    ghost time: { Self → ℕ };

    /// Below 2^46.
    fn now(&self) -> u64
        ensures value { result ≡ time self.now }
        ensures range { result < 2 ^ 46 };
}
