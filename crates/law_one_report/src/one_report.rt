//! The same command on the same input gives the same report.

ghost use Rattle.law_one_report.specs.OneReport.{OneReportLaw};

use air_check::laws::a_log_has_one_verdict;
use bus_time::stamp_laws::logs_have_one_list_of_stamps;
use host_return::laws::returns_do_not_depend_on_the_runs;
use law_one_log::{
    a_flood_has_one_log, a_scenario_has_one_cost, a_scenario_has_one_lawful_log,
    a_scenario_has_one_log_text,
};
use lwb_flood::flood_log_laws::stated_clocks_keep_the_drift_law;
use scenario_clocks::scenario_clocks_keep_the_drift_law;
use scenario_maker::laws::made_scenarios_are_accepted;
use scenario_text::laws::scenarios_are_sound;

/// Two reports of one command on one input are the same bytes, for all nine commands, and the logs that come with them have
/// the same entries, each as often. A law: the function does nothing.
pub fn a_command_has_one_report()
    ensures { OneReportLaw }
{
    a_flood_has_one_log();
    a_scenario_has_one_cost();
    a_scenario_has_one_lawful_log();
    a_scenario_has_one_log_text();
    stated_clocks_keep_the_drift_law();
    scenario_clocks_keep_the_drift_law();
    made_scenarios_are_accepted();
    scenarios_are_sound();
    logs_have_one_list_of_stamps();
    returns_do_not_depend_on_the_runs();
    a_log_has_one_verdict();
}
