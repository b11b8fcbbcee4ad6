//! What a node sends in its windows, and what it costs, each law a function that does nothing and has the law as its
//! contract.

ghost use Rattle.law_terms.specs.RunLaws.{CostLaw};
ghost use Rattle.law_bus.specs.RunEnergies.{EnergyLaw};
ghost use Rattle.law_bus.specs.WindowSendings.{WindowSendingsLaw};

/// What is sent in a window is, by step and length and in its order, what its node sends in the flood of the slot on the
/// bus.
pub fn windows_send_as_on_the_bus()
    ensures { WindowSendingsLaw }
{}

/// How long a node sends in a run, what its windows count, and in how many frames it scans, are the numbers of the bus.
pub fn costs_are_those_of_the_bus()
    ensures { CostLaw }
{}

/// So the first three numbers of a node's account are those that the bus has for it.
pub fn accounts_begin_with_the_costs_of_the_bus()
    ensures { EnergyLaw }
{}
