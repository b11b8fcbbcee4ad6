//! The answer to the command `return`.

ghost use Rattle.std.specs.Prelude.{◌≡◌, ◌<◌, ◌^◌, ℕ, List, IfOk, Ok, length, string_bytes};
ghost use Rattle.bus_terms.specs.Bus.{bus_deliveries, bus_drops};
ghost use Rattle.host_return.specs.Returned.{IsReturned};
ghost use Rattle.scenario_clocks.specs.StatedClocks.{scenario_clock};
ghost use Rattle.scenario_text.specs.ScenarioGrammar.{IsScenario, scenario_of};
ghost use Rattle.scenario_text.specs.ScenarioParts.{ScenarioParts};
ghost use Rattle.run_commands.specs.Answers.{Answers};
ghost use Rattle.run_commands.specs.ReturnReport.{return_report as report_of};
ghost use Rattle.run_commands.specs.RunsKept.{KeepsRun};
ghost use Rattle.run_commands.specs.declared.command.Command.TheVariants as asked;

use crate::answer::{Answer, fault_answer};
use crate::return_lines::{write_probes, write_returns};
use air_log::{Air, Idle, NodeCharge};
use bus_report::write_report_lines;
use bus_rules::{Delivery, DropLine};
use host_return::{ListsIdle, Returned, Runner, follow_listed};
use lwb_base::Memory;
use run_report::{RunParts, run_of, write_energies};
use scenario_text::{ParseFault, Scenario, parse};
use std::alloc::Global;

/// The report of a run in which backup hosts go back, of the scenario that the bytes are a text of, or the line of their first
/// fault.
pub fn return_answer(alloc: Global, bytes: &[u8]) -> Result<Answer, Memory>
    requires { length bytes.now < 2 ^ 31 }
    ensures { IfOk result (λ a. Answers asked.Return bytes.now a) }
{
    match parse(alloc, bytes) {
        Ok(scenario) => return_of(alloc, &scenario),
        Err(ParseFault::Line(line, kind)) => fault_answer(alloc, line, kind),
        Err(ParseFault::Memory) => Err(Memory),
    }
}

// The same of the scenario.
fn return_of(alloc: Global, s: &Scenario) -> Result<Answer, Memory>
    ensures { (b : List ℕ) → scenario_of b ≡ Ok s.now → IfOk result (λ a. Answers asked.Return b a) }
{
    let mut worlds = Worlds::new(alloc);
    let returned = follow_listed(alloc, s, &mut worlds)?;
    let report = return_report(alloc, &returned, &worlds)?;
    Ok(Answer::Report(report, returned.into_air()))
}

// A world for each run, over the clocks that its scenario states. The lists of the last one are kept.
#[derive(Drop)]
struct Worlds {
    deliveries: Vec<Delivery>,
    drops: Vec<DropLine>,
    charges: Vec<NodeCharge>,
    idle: Vec<Idle>,
}

impl Worlds {
    // Before the first run.
    fn new(alloc: Global) -> Worlds {
        Worlds {
            deliveries: Vec::new(alloc),
            drops: Vec::new(alloc),
            charges: Vec::new(alloc),
            idle: Vec::new(alloc),
        }
    }
}

impl Runner for Worlds {
    ghost kept = { λ w s air. KeepsRun w s air };

    fn run(&mut self, alloc: Global, s: &Scenario) -> Result<Air, Memory> {
        let RunParts {
            air,
            deliveries,
            drops,
            charges,
            idle,
        } = run_of(alloc, s)?;
        self.deliveries = deliveries;
        self.drops = drops;
        self.charges = charges;
        self.idle = idle;
        Ok(air)
    }
}

impl ListsIdle for Worlds {
    fn idle(&self) -> &[Idle] {
        &self.idle
    }
}

// The report of what came of the returns, by the lists that were kept of their last run.
fn return_report(alloc: Global, returned: &Returned, worlds: &Worlds) -> Result<String, Memory>
    requires returned { (read : ScenarioParts) × IsReturned read returned.now }
    requires kept { KeepsRun worlds.now returned.now.scenario returned.now.air }
    ensures said { IfOk result (λ text. IsScenario returned.now.scenario) }
    ensures bytes { IfOk result (λ text. string_bytes text ≡ report_of returned.now.returns returned.now.counts (bus_deliveries returned.now.scenario)
        (bus_drops returned.now.scenario) returned.now.scenario (scenario_clock returned.now.scenario) returned.now.air) }
{
    let scenario = returned.scenario();
    let mut text = String::new(alloc);
    write_returns(&mut text, returned.returns())?;
    write_probes(&mut text, scenario.nodes(), returned)?;
    write_report_lines(&mut text, &worlds.deliveries, &worlds.drops)?;
    write_energies(alloc, &mut text, scenario, returned.air(), &worlds.charges)?;
    Ok(text)
}
