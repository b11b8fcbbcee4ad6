//! The answer to the text of a scenario and a log.

ghost use Rattle.std.specs.Prelude.{◌≡◌, ◌<◌, ◌^◌, ℕ, List, IfOk, Ok, length, string_bytes};
ghost use Rattle.scenario_text.specs.ScenarioGrammar.{IsScenario};
ghost use Rattle.air_check.specs.CheckedText.{checked_text};
ghost use Rattle.run_commands.specs.Answers.{Answers};
ghost use Rattle.run_commands.specs.CheckReport.{verdict_line as verdict_line_of};
ghost use Rattle.run_commands.specs.declared.command.Command.TheVariants as asked;

use crate::answer::{Answer, fault_answer};
use air_check::{LogFault, Verdict, check, parse_checked};
use air_log::Air;
use lwb_base::Memory;
use scenario_text::Scenario;
use std::alloc::{AllocError, Global};
use text_writers::write_line;

/// Whether the log that the bytes say is valid (`Lawful`) for their scenario, or what is wrong with it; or the line of their
/// first fault.
pub fn check_answer(alloc: Global, bytes: &[u8]) -> Result<Answer, Memory>
    requires { length bytes.now < 2 ^ 31 }
    ensures { IfOk result (λ a. Answers asked.Check bytes.now a) }
{
    match parse_checked(alloc, bytes) {
        Ok((scenario, log)) => verdict_on(alloc, &scenario, &log),
        Err(LogFault::Line(line, kind)) => fault_answer(alloc, line, kind),
        Err(LogFault::Memory) => Err(Memory),
    }
}

// The same of a scenario and a log.
fn verdict_on(alloc: Global, s: &Scenario, log: &Air) -> Result<Answer, Memory>
    requires { IsScenario s.now }
    ensures { (b : List ℕ) → checked_text b ≡ Ok (s.now, log.now) → IfOk result (λ a. Answers asked.Check b a) }
{
    let verdict = check(alloc, s, log)?;
    let report = verdict_line(alloc, verdict)?;
    Ok(Answer::Report(report, Air::new(alloc)))
}

fn verdict_line(alloc: Global, verdict: Verdict) -> Result<String, AllocError>
    ensures { IfOk result (λ text. string_bytes text ≡ verdict_line_of verdict) }
{
    let mut text = String::new(alloc);
    match verdict {
        Verdict::Lawful => write_line::<u8>(&mut text, "lawful", &[])?,
        Verdict::Trail(node) => write_line(&mut text, "no trail", &[node.number()])?,
        Verdict::Heard(place) => write_line(&mut text, "no heard", &[place])?,
        Verdict::Missing(receiver, sender, start) => {
            let nodes = [u64::from(receiver.number()), u64::from(sender.number())];
            write_line(&mut text, "no missing", &[nodes[0], nodes[1], start])?;
        }
    }
    Ok(text)
}
