//! The answer to the command `fates`.

ghost use Rattle.std.specs.Prelude.{◌≡◌, ◌<◌, ◌^◌, IfOk, length, map, string_bytes};
ghost use Rattle.scenario_text.specs.FloodParts.{node_id};
ghost use Rattle.bus_terms.specs.Fates.{bus_fates};
ghost use Rattle.drawn_bus.specs.DrawnScenarios.{drawn_scenario};
ghost use Rattle.fate_report.specs.FateLines.{fates_text};
ghost use Rattle.plan_commands.specs.Answers.{Answers};
ghost use Rattle.plan_commands.specs.declared.command.Command.TheVariants as asked;

use crate::answer::{Answer, fault_answer};
use crate::drawn_run::drawn_run;
use crate::run_fates::run_fates;
use bus_terms::PutFate;
use drawn_links::Ratios;
use fate_report::write_fates;
use lwb_base::Memory;
use network_text::parse_network;
use scenario_text::Scenario;
use std::alloc::Global;
use text_readers::ParseFault;

/// What became of each packet that the script puts, with the losses that the seed draws, for the network that the bytes are a text
/// of; or the line of their first fault.
pub fn fates_answer(alloc: Global, seed: u64, bytes: &[u8]) -> Result<Answer, Memory>
    requires { length bytes.now < 2 ^ 31 }
    ensures { IfOk result (λ a. Answers (asked.Fates seed) bytes.now a) }
{
    match parse_network(alloc, bytes) {
        Ok((scenario, ratios)) => {
            let report = fates_report(alloc, &scenario, &ratios, seed)?;
            Ok(Answer::Report(report, ()))
        }
        Err(ParseFault::Line(line, kind)) => fault_answer(alloc, line, kind),
        Err(ParseFault::Memory) => Err(Memory),
    }
}

fn fates_report(
    alloc: Global,
    scenario: &Scenario,
    ratios: &Ratios,
    seed: u64,
) -> Result<String, Memory>
    requires { ratios.now.nodes ≡ map node_id scenario.now.nodes }
    ensures { IfOk result (λ text. string_bytes text ≡ fates_text (drawn_scenario scenario.now ratios.now.lines seed)) }
{
    let became = drawn_fates(alloc, scenario, ratios, seed)?;
    let mut report = String::new(alloc);
    write_fates(&mut report, &became)?;
    Ok(report)
}

// What became of each packet, with the losses that the seed draws from these ratios.
fn drawn_fates(
    alloc: Global,
    scenario: &Scenario,
    ratios: &Ratios,
    seed: u64,
) -> Result<Vec<PutFate>, Memory>
    requires { ratios.now.nodes ≡ map node_id scenario.now.nodes }
    ensures { IfOk result (λ fates. fates.items ≡ bus_fates (drawn_scenario scenario.now ratios.now.lines seed)) }
{
    let bus = drawn_run(alloc, scenario, ratios, seed)?;
    run_fates(alloc, scenario, &bus)
}
