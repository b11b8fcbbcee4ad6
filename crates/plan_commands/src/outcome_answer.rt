//! The answer to the command `outcome`.

ghost use Rattle.std.specs.Prelude.{◌≡◌, ◌<◌, ◌^◌, IfOk, length, map, string_bytes};
ghost use Rattle.link_trace.specs.Passes.{Lines};
ghost use Rattle.scenario_text.specs.FloodParts.{node_id};
ghost use Rattle.bus_model.specs.BusRuns.{IsBusRun};
ghost use Rattle.bus_report.specs.BusReport.{bus_report};
ghost use Rattle.scenario_text.specs.OverLines.{over};
ghost use Rattle.drawn_bus.specs.DrawnScenarios.{drawn_scenario};
ghost use Rattle.plan_commands.specs.Answers.{Answers};
ghost use Rattle.plan_commands.specs.declared.command.Command.TheVariants as asked;

use crate::answer::{Answer, fault_answer};
use crate::drawn_run::drawn_run;
use bus_model::Bus;
use bus_report::{report_lines, write_costs};
use drawn_links::Ratios;
use lwb_base::Memory;
use network_text::parse_network;
use scenario_text::Scenario;
use std::alloc::Global;
use text_readers::ParseFault;

/// The bus report of the scenario with the losses that the seed draws, for the network that the bytes are a text of; or the line
/// of their first fault.
pub fn outcome_answer(alloc: Global, seed: u64, bytes: &[u8]) -> Result<Answer, Memory>
    requires { length bytes.now < 2 ^ 31 }
    ensures { IfOk result (λ a. Answers (asked.Outcome seed) bytes.now a) }
{
    match parse_network(alloc, bytes) {
        Ok((scenario, ratios)) => {
            let report = outcome_report(alloc, &scenario, &ratios, seed)?;
            Ok(Answer::Report(report, ()))
        }
        Err(ParseFault::Line(line, kind)) => fault_answer(alloc, line, kind),
        Err(ParseFault::Memory) => Err(Memory),
    }
}

// The report of the bus over links that also lose where a coin of the seed does not pass by these ratios.
fn outcome_report(
    alloc: Global,
    scenario: &Scenario,
    ratios: &Ratios,
    seed: u64,
) -> Result<String, Memory>
    requires { ratios.now.nodes ≡ map node_id scenario.now.nodes }
    ensures { IfOk result (λ text. string_bytes text ≡ bus_report (drawn_scenario scenario.now ratios.now.lines seed)) }
{
    let bus = drawn_run(alloc, scenario, ratios, seed)?;
    run_report(alloc, scenario, &bus)
}

// The report of a run of the scenario over some links.
fn run_report(alloc: Global, scenario: &Scenario, bus: &Bus) -> Result<String, Memory>
    ensures { (t : Lines) → IsBusRun (over scenario.now t) bus.now → IfOk result (λ text. string_bytes text ≡ bus_report (over scenario.now t)) }
{
    let mut report = report_lines(alloc, bus.deliveries(), bus.drops())?;
    write_costs(&mut report, scenario.nodes(), bus)?;
    Ok(report)
}
