//! The answer to the command `log`.

ghost use Rattle.std.specs.Prelude.{◌≡◌, ◌<◌, ◌^◌, ℕ, List, IfOk, Ok, length};
ghost use Rattle.scenario_text.specs.ScenarioGrammar.{scenario_of};
ghost use Rattle.run_commands.specs.Answers.{Answers};
ghost use Rattle.run_commands.specs.declared.command.Command.TheVariants as asked;

use crate::answer::{Answer, fault_answer};
use lwb_base::Memory;
use run_report::log_report;
use scenario_text::{ParseFault, Scenario, parse};
use std::alloc::Global;

/// The report of a run of the scenario that the bytes are a text of, with the text of its log after it; or the line of their first
/// fault.
pub fn log_answer(alloc: Global, bytes: &[u8]) -> Result<Answer, Memory>
    requires { length bytes.now < 2 ^ 31 }
    ensures { IfOk result (λ a. Answers asked.Log bytes.now a) }
{
    match parse(alloc, bytes) {
        Ok(scenario) => answer_of(alloc, &scenario),
        Err(ParseFault::Line(line, kind)) => fault_answer(alloc, line, kind),
        Err(ParseFault::Memory) => Err(Memory),
    }
}

// The same of the scenario.
fn answer_of(alloc: Global, s: &Scenario) -> Result<Answer, Memory>
    ensures { (b : List ℕ) → scenario_of b ≡ Ok s.now → IfOk result (λ a. Answers asked.Log b a) }
{
    let run = log_report(alloc, s, s.trace())?;
    Ok(Answer::Report(run.text, run.air))
}
