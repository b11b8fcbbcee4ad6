//! The answer to the command `bus`.

ghost use Rattle.std.specs.Prelude.{◌≡◌, ◌<◌, ◌^◌, ℕ, List, IfOk, Ok, length, string_bytes};
ghost use Rattle.scenario_text.specs.ScenarioGrammar.{scenario_of};
ghost use Rattle.bus_model.specs.BusRuns.{IsBusRun};
ghost use Rattle.bus_report.specs.BusReport.{bus_report};
ghost use Rattle.run_commands.specs.Answers.{Answers};
ghost use Rattle.run_commands.specs.declared.command.Command.TheVariants as asked;

use crate::answer::{Answer, fault_answer};
use air_log::Air;
use bus_model::Bus;
use bus_report::{report_lines, write_costs};
use lwb_base::Memory;
use scenario_text::{ParseFault, Scenario, parse};
use std::alloc::{AllocError, Global};

/// The bus report of the scenario that the bytes are a text of, or the line of their first fault. Nothing is on the air.
pub fn bus_answer(alloc: Global, bytes: &[u8]) -> Result<Answer, Memory>
    requires { length bytes.now < 2 ^ 31 }
    ensures { IfOk result (λ a. Answers asked.Bus bytes.now a) }
{
    match parse(alloc, bytes) {
        Ok(scenario) => bus_of(alloc, &scenario),
        Err(ParseFault::Line(line, kind)) => fault_answer(alloc, line, kind),
        Err(ParseFault::Memory) => Err(Memory),
    }
}

// The same of the scenario.
fn bus_of(alloc: Global, s: &Scenario) -> Result<Answer, Memory>
    ensures { (b : List ℕ) → scenario_of b ≡ Ok s.now → IfOk result (λ a. Answers asked.Bus b a) }
{
    let bus = Bus::run(alloc, s)?;
    let report = report_of(alloc, s, &bus)?;
    Ok(Answer::Report(report, Air::new(alloc)))
}

// The report of the scenario's run on the bus.
fn report_of(alloc: Global, s: &Scenario, bus: &Bus) -> Result<String, AllocError>
    requires { IsBusRun s.now bus.now }
    ensures { IfOk result (λ text. string_bytes text ≡ bus_report s.now) }
{
    let mut report = report_lines(alloc, bus.deliveries(), bus.drops())?;
    write_costs(&mut report, s.nodes(), bus)?;
    Ok(report)
}
