//! What is known of the flood of a slot on the air, as a run of the theorem on floods: each law a function that does nothing
//! and has the law as its contract.

ghost use Rattle.law_bus.specs.RunLaws.{BusLaw, EventsLaw, HappenedLaw, InitiatorsLaw, PartLaw, PartiesLaw};
ghost use Rattle.law_bus.specs.RunLaws.{RecordsLaw, RuleLaw, SendingsLaw, WindowsTakePartLaw};
ghost use Rattle.law_bus.specs.ScannerLaws.{ScannersLaw};
ghost use Rattle.law_terms.specs.SlotRuns.{RunsLaw};

/// The setting of the run is the flood of the bus, and its packets have the messages of that flood. Its transmissions and
/// receptions are all those of this frame, channel and slot (`bus`). With the events of its nodes, their floods end as their
/// windows do, and a node that has accepted has a window that has closed (`records`).
pub fn slots_are_of_the_bus()
    ensures bus { BusLaw }
    ensures records { RecordsLaw }
{}

/// A participant of the run is a node of the scenario, and has no window of another rank in the frame (`rank`). A node with a
/// window in the slot takes part (`windows`).
pub fn slots_are_of_their_rank()
    ensures rank { PartiesLaw }
    ensures windows { WindowsTakePartLaw }
{}

/// What else is on the air does not change what its nodes receive (`part`), so they receive by the rule of the run alone
/// (`rule`).
pub fn slots_are_a_part_of_the_air()
    ensures part { PartLaw }
    ensures rule { RuleLaw }
{}

/// A node with a window in the slot takes part by the events of this window; any other node has no events (`some`). The events
/// are all that a participant receives and sends in the slot, so one without a window receives nothing (`happened`).
pub fn slots_have_events()
    ensures some { EventsLaw }
    ensures happened { HappenedLaw }
{}

/// An initiator takes part, and its packet is of the slot's kind. The packets of two initiators differ in more than the
/// counter, and their starts by no more than the budget's bound for contenders (`initiators`). With counter 0 just the
/// initiators send, and with another counter just the relays; each transmission takes as long as its packet (`sendings`).
pub fn slots_are_sent_as_floods()
    ensures initiators { InitiatorsLaw }
    ensures sendings { SendingsLaw }
{}

/// A node that takes part without a window by an alarm listens in a window that covers the flood: it scans the rank as the
/// frame found it, and so is tuned through all that is sent in the slot, or in the window of the slot that it joined up to the
/// end of its own last transmission.
pub fn scanners_are_tuned()
    ensures { ScannersLaw }
{}

/// Each slot is such a run, and its flood is the flood by steps.
pub fn slots_are_runs()
    ensures { RunsLaw }
{}
