//! The round after an acknowledgement, a function that does nothing and has the laws as its contract.

ghost use Rattle.law_service.specs.FirstSlots.{NewStreamsAreGranted, OwedSlotsAreGranted, RoundsFollow};

/// The next round of a host comes 1 to `GREATEST_GAP` frames after the last one (`follows`). If all slots that are owed by then
/// fit into it, each stream of the host's table gets the slots that are owed to it (`owed`). So a stream whose request was
/// alone in frame f, and was taken, gets those that have come due since f (`first`).
pub fn owed_slots_come_in_the_next_round()
    ensures follows { RoundsFollow }
    ensures owed { OwedSlotsAreGranted }
    ensures first { NewStreamsAreGranted }
{}
