//! The same command of a planner on the same input gives the same report.

ghost use Rattle.std.specs.Prelude.{ℕ};
ghost use Rattle.law_one_report.specs.OnePlanReport.{HasOneReport};
ghost use Rattle.plan_commands.specs.declared.command.Command.TheVariants.{Bounds, Draw, Fates, Log, Outcome, Run, Sample};

use law_one_log::{
    a_scenario_has_one_cost, a_scenario_has_one_lawful_log, a_scenario_has_one_log_text,
};
use plan_commands::drawn_runs_deliver_in_order;
use scenario_clocks::scenario_clocks_keep_the_drift_law;

/// Two reports of one command of `foldcairn-plan` on one input are the same bytes, for all seven commands, whatever their seeds. A
/// law: the function does nothing.
pub fn a_planners_command_has_one_report()
    ensures draw { (seed : ℕ) → HasOneReport (Draw seed) }
    ensures outcome { (seed : ℕ) → HasOneReport (Outcome seed) }
    ensures fates { (seed : ℕ) → HasOneReport (Fates seed) }
    ensures run { (seed : ℕ) → HasOneReport (Run seed) }
    ensures log { (seed : ℕ) → HasOneReport (Log seed) }
    ensures sample { (from count : ℕ) → HasOneReport (Sample from count) }
    ensures bounds { HasOneReport Bounds }
{
    a_scenario_has_one_cost();
    a_scenario_has_one_lawful_log();
    a_scenario_has_one_log_text();
    drawn_runs_deliver_in_order();
    scenario_clocks_keep_the_drift_law();
}
