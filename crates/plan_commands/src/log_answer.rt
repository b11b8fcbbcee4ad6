//! The answer to the command `log`.

ghost use Rattle.std.specs.Prelude.{◌≡◌, ◌<◌, ◌^◌, IfOk, length, map, string_bytes};
ghost use Rattle.scenario_text.specs.FloodParts.{node_id};
ghost use Rattle.drawn_bus.specs.DrawnScenarios.{drawn_scenario};
ghost use Rattle.run_report.specs.RunReport.{log_report as log_report_of};
ghost use Rattle.plan_commands.specs.Answers.{Answers};
ghost use Rattle.plan_commands.specs.Reports.{TellsOfRun};
ghost use Rattle.plan_commands.specs.declared.command.Command.TheVariants as asked;

use crate::answer::{Answer, fault_answer};
use drawn_links::{DrawnLinks, Ratios};
use lwb_base::Memory;
use network_text::parse_network;
use run_report::log_report;
use scenario_text::Scenario;
use std::alloc::Global;
use text_readers::ParseFault;

/// The report of a run in true time, with the losses that the seed draws, and the text of its log after it: of the network that the
/// bytes are a text of. Or the line of their first fault.
pub fn log_answer(alloc: Global, seed: u64, bytes: &[u8]) -> Result<Answer, Memory>
    requires { length bytes.now < 2 ^ 31 }
    ensures { IfOk result (λ a. Answers (asked.Log seed) bytes.now a) }
{
    match parse_network(alloc, bytes) {
        Ok((scenario, ratios)) => {
            let report = drawn_log(alloc, &scenario, &ratios, seed)?;
            Ok(Answer::Report(report, ()))
        }
        Err(ParseFault::Line(line, kind)) => fault_answer(alloc, line, kind),
        Err(ParseFault::Memory) => Err(Memory),
    }
}

// The same of the scenario, over links that also lose where a coin of the seed does not pass by these ratios.
fn drawn_log(
    alloc: Global,
    scenario: &Scenario,
    ratios: &Ratios,
    seed: u64,
) -> Result<String, Memory>
    requires { ratios.now.nodes ≡ map node_id scenario.now.nodes }
    ensures { IfOk result (λ text. TellsOfRun log_report_of (drawn_scenario scenario.now ratios.now.lines seed) (string_bytes text)) }
{
    let links = DrawnLinks::new(scenario.trace(), ratios, seed, scenario.frames());
    let run = log_report(alloc, scenario, &links)?;
    Ok(run.text)
}
