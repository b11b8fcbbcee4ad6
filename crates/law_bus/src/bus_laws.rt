//! What every valid (`Lawful`) run of a sound scenario, over all clocks of the drift law, has in common with the bus. Each law
//! is the contract of a function that does nothing.

ghost use Rattle.law_terms.specs.SlotLaws.{CoresLaw, SentLaw, SlotLaw, WindowsLaw};
ghost use Rattle.law_terms.specs.RunLaws.{AnyClocksLaw, DeliveriesLaw, DropsLaw, RunLaw};
ghost use Rattle.law_bus.specs.AllSlots.{AllSlotsLaw};
ghost use Rattle.law_bus.specs.ScannedFrames.{ScansLaw};
ghost use Rattle.law_bus.specs.BusRuns.{LawfulRunsAreTheBus};

/// In each slot of each round the nodes that send with a counter on the air are those that send in this step of the bus's
/// flood. The nodes that have accepted with it when their windows close are those that accept in this step.
pub fn slots_are_floods_of_the_bus()
    ensures { SlotLaw }
{}

/// Nothing else is on the air: each transmission has the message of an initiator in a slot of the bus, and a counter. On the
/// bus its node sends this message in the step of that counter.
pub fn nothing_else_is_sent()
    ensures { SentLaw }
{}

/// After the script lines of each frame each node matches the bus: it is off after as many boots, or on with the same boot,
/// tune, plan, streams, queues and table.
pub fn frames_begin_as_on_the_bus()
    ensures { RunLaw }
{}

/// The nodes match the bus before each slot of each round too, and the flood of the slot gives by radio what it gives on the
/// bus (`slots`). A node opens a window by its alarm in just the slots in which it has a window on the bus (`windows`). Its
/// core before and after each window is that of the bus before and after the slot (`cores`).
pub fn slots_go_as_on_the_bus()
    ensures slots { AllSlotsLaw }
    ensures windows { WindowsLaw }
    ensures cores { CoresLaw }
{}

/// What is delivered is what the bus delivers, in its order (`deliveries`), and the packets that are lost before they are
/// queued are those of the bus (`drops`).
pub fn deliveries_and_drops_are_of_the_bus()
    ensures deliveries { DeliveriesLaw }
    ensures drops { DropsLaw }
{}

/// Any two sets of clocks, with a valid (`Lawful`) log over each, give the same deliveries and drops.
pub fn clocks_change_nothing_of_the_bus()
    ensures { AnyClocksLaw }
{}

/// A node scans in as many frames as on the bus.
pub fn scans_are_those_of_the_bus()
    ensures { ScansLaw }
{}

/// All in one: no two steps of a valid (`Lawful`) log meet, its deliveries and drops are those of the ideal single-hop bus,
/// each stream comes in order and no packet twice, data is received by relay paths, and each node costs what it costs on the
/// bus.
pub fn lawful_runs_are_the_bus()
    ensures { LawfulRunsAreTheBus }
{}
