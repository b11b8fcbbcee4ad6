//! The answer to the command `demo`.

ghost use Rattle.std.specs.Prelude.{◌≡◌, ℕ, List, IfOk};
ghost use Rattle.scenario_maker.specs.Made.{IsSize, made as made_scenario};
ghost use Rattle.run_commands.specs.Answers.{Answers};
ghost use Rattle.run_commands.specs.declared.command.Command.TheVariants as asked;

use crate::answer::Answer;
use crate::summary::summary;
use lwb_base::Memory;
use run_report::run_of;
use scenario_maker::made;
use scenario_text::Scenario;
use std::alloc::Global;

/// The summary of the run of a made scenario.
pub fn demo_answer(alloc: Global, seed: u64, nodes: u8, frames: u32) -> Result<Answer, Memory>
    requires { IsSize nodes frames }
    ensures { (b : List ℕ) → IfOk result (λ a. Answers (asked.Demo seed nodes frames) b a) }
{
    let scenario = made(alloc, seed, nodes, frames)?;
    summary_of(alloc, &scenario)
}

// The same of the scenario.
fn summary_of(alloc: Global, s: &Scenario) -> Result<Answer, Memory>
    ensures { (seed nodes frames : ℕ) (b : List ℕ) → s.now ≡ made_scenario seed nodes frames → IfOk result (λ a. Answers (asked.Demo seed nodes frames) b a) }
{
    let run = run_of(alloc, s)?;
    let text = summary(alloc, run.deliveries.len(), run.drops.len(), &run.air)?;
    Ok(Answer::Report(text, run.air))
}
