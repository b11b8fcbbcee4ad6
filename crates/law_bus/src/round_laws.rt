//! The rounds of a valid (`Lawful`) run, slot by slot, each law a function that does nothing and has the law as its contract.

ghost use Rattle.law_terms.specs.SlotSteps.{FirstSlotLaw, SlotStepLaw, RoundEndLaw};

/// If the nodes match the bus after the script lines of a frame, they match it before slot 0 of each round of the frame: each
/// node that takes part awaits this slot, with the plan of the round.
pub fn rounds_begin_as_the_bus()
    ensures { FirstSlotLaw }
{}

/// If the nodes match the bus before a slot, and its flood gives by radio what it gives on the bus, they match it after the slot:
/// a node with a window is as the window has left it, and every other node as it was.
pub fn slots_follow_as_on_the_bus()
    ensures { SlotStepLaw }
{}

/// If they match it before the last slot, the round of the bus ends as theirs does: a node with a window in this slot is as the
/// window left it, and every other node as it was after the script lines of the frame.
pub fn rounds_end_as_on_the_bus()
    ensures { RoundEndLaw }
{}
