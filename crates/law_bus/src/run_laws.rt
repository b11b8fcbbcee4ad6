//! A valid (`Lawful`) run as a whole, each law a function that does nothing and has the law as its contract. They need the law
//! on the flood of a slot before which the nodes match the bus.

ghost use Rattle.law_terms.specs.SlotSteps.{SlotHeardLaw};
ghost use Rattle.law_terms.specs.SlotLaws.{CoresLaw, WindowsLaw};
ghost use Rattle.law_terms.specs.RunLaws.{AnyClocksLaw, DeliveriesLaw, DropsLaw, RunLaw};
ghost use Rattle.law_bus.specs.AllSlots.{AllSlotsLaw};
ghost use Rattle.law_bus.specs.ScannedFrames.{ScansLaw};

/// After the script lines of each frame each node matches the bus: it is off after as many boots, or on with the same boot,
/// tune, plan, streams, queues and table.
pub fn runs_are_the_bus()
    ensures { SlotHeardLaw → RunLaw }
{}

/// The nodes match the bus before each slot of each round too, and the flood of the slot gives by radio what it gives on the
/// bus.
pub fn slots_are_the_bus()
    ensures { SlotHeardLaw → AllSlotsLaw }
{}

/// A node opens a window by its alarm in just the slots in which it has a window on the bus (`windows`). Its core before and
/// after each window is that of the bus before and after the slot (`cores`).
pub fn windows_are_those_of_the_bus()
    ensures windows { SlotHeardLaw → WindowsLaw }
    ensures cores { SlotHeardLaw → CoresLaw }
{}

/// What is delivered is what the bus delivers, in its order (`deliveries`), and the packets that are lost before they
/// are queued are those of the bus (`drops`).
pub fn deliveries_are_those_of_the_bus()
    ensures deliveries { SlotHeardLaw → DeliveriesLaw }
    ensures drops { SlotHeardLaw → DropsLaw }
{}

/// So neither depends on the clocks of the nodes, nor on which of the valid (`Lawful`) logs of a scenario is taken.
pub fn clocks_do_not_matter()
    ensures { SlotHeardLaw → AnyClocksLaw }
{}

/// And a node scans in as many frames as on the bus.
pub fn nodes_scan_as_on_the_bus()
    ensures { SlotHeardLaw → ScansLaw }
{}
