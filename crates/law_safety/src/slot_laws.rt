//! What is sent for a round, and in a slot of it, each law a function that does nothing and has the law as its
//! contract.

ghost use Rattle.law_safety.specs.SlotLaws.{OneFloodInASlot, OnePlanIsSent};

/// If the invariant holds at the end of a run, at most one plan was sent for a rank and a frame: all closing and opening
/// schedules of its host that name the frame have this plan, whatever their frames and boots.
pub fn one_plan_is_sent_for_a_round()
    ensures { OnePlanIsSent }
{}

/// And transmissions of one slot of a round are of one flood, unless they ask for streams.
pub fn a_slot_has_one_flood()
    ensures { OneFloodInASlot }
{}
