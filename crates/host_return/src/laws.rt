//! Laws of the returns, each a function that does nothing and has the law as its contract.

ghost use Rattle.host_return.specs.OneReturned.{OneReturnedLaw};

use law_one_log::a_scenario_has_one_lawful_log;

/// What comes of the returns of a scenario does not depend on which of its valid (`Lawful`) runs are taken: the scenario, the
/// returns and the counts are the same, and so are the entries of the last log, but for their order.
pub fn returns_do_not_depend_on_the_runs()
    ensures { OneReturnedLaw }
{
    a_scenario_has_one_lawful_log();
}
