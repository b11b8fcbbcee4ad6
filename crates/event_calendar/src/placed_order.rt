//! An order in the queue of its class.

ghost use Rattle.std.specs.Prelude.{◌≡◌};
ghost use Rattle.event_calendar.specs.Waiting.{is_before};

/// An order of one class: its tick, and its place.
#[derive(Clone, Copy, PartialEq, Eq)]
pub struct PlacedOrder {
    pub tick: u64,
    pub place: u8,
}

impl PlacedOrder {
    /// Whether it comes before another one, by tick, then place.
    pub fn is_before(&self, other: &PlacedOrder) -> bool
        ensures { result ≡ is_before self.now other.now }
    {
        self.tick < other.tick || self.tick == other.tick && self.place < other.place
    }
}
