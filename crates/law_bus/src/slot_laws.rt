//! What the flood of a slot gives for the slot, each law a function that does nothing and has the law as its contract. They are
//! based on the law that each slot of a valid (`Lawful`) run is a run of the flood theorem.

ghost use Rattle.law_terms.specs.SlotRuns.{RunsLaw};
ghost use Rattle.law_terms.specs.SlotSteps.{SlotHeardLaw};
ghost use Rattle.law_bus.specs.FloodedSlots.{StartedSlotLaw};
ghost use Rattle.law_bus.specs.SaidInWindows.{SayableLaw};

/// What a node sends in a window that opens by its alarm may be sent in the slot of the window: each number is in its range, so
/// the packet reads back as this message.
pub fn windows_say_what_may_be_said()
    ensures { SayableLaw }
{}

/// The flood of a slot gives by radio what it gives on the bus: a window that has closed has accepted what its node accepts on
/// the bus, a node initiates the flood of its window if and only if it does so on the bus, and a node without a window accepts
/// nothing.
pub fn slots_are_heard_by_their_floods()
    ensures { RunsLaw → SlotHeardLaw }
{}

/// If the nodes match the bus before a slot, the same nodes send with each counter, and the same accept with it, on the air and
/// on the bus.
pub fn slots_are_their_floods()
    ensures { RunsLaw → StartedSlotLaw }
{}
