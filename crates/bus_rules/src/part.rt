//! What the slots of a round are for.

ghost use Rattle.std.specs.Prelude.{◌≡◌};
ghost use Rattle.bus_rules.specs.Slots.{is_schedule_part};

use lwb_base::Owner;

/// What a slot of a round is for.
#[derive(Clone, Copy, Debug, PartialEq, Eq)]
pub enum Part {
    /// Slot 0, in which the host opens the round.
    Opening,
    /// A data slot, which is this owner's.
    Data(Owner),
    /// A contention slot, 1 to 4.
    Contention(u8),
    /// The last slot, in which the host closes the round.
    Closing,
}

impl Part {
    /// Whether the host says its schedule in such a slot: in the first and in the last one.
    pub fn is_for_schedule(self) -> bool
        ensures { result ≡ is_schedule_part self }
    {
        match self {
            Part::Opening | Part::Closing => true,
            Part::Data(_) | Part::Contention(_) => false,
        }
    }
}
