//! What two valid (`Lawful`) runs of one scenario over the same clocks have in common, each law a function that does nothing
//! and has the law as its contract.

ghost use Rattle.law_one_log.specs.OneLog.{EntriesApartLaw, OneCostLaw, OneLogLaw, OneTextLaw};

/// They have the same entries, each as often.
pub fn a_scenario_has_one_lawful_log()
    ensures { OneLogLaw }
{}

/// No two entries of a valid (`Lawful`) log have the same start, kind and node.
pub fn entries_of_a_lawful_log_differ()
    ensures { EntriesApartLaw }
{}

/// So they have the same log text, in whatever order their entries are kept.
pub fn a_scenario_has_one_log_text()
    ensures { OneTextLaw }
{}

/// And each node costs the same by them.
pub fn a_scenario_has_one_cost()
    ensures { OneCostLaw }
{}
