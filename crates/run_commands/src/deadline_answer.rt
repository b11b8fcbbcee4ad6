//! The answer to the text of a plan with deadlines.

ghost use Rattle.std.specs.Prelude.{◌≡◌, ◌<◌, ◌^◌, [], ℕ, List, IfOk, Ok, length, map, string_bytes};
ghost use Rattle.deadline_plan.specs.DeadlineText.{plan_of};
ghost use Rattle.deadline_plan.specs.Admission.{grants_of, rounds_of};
ghost use Rattle.deadline_plan.specs.Grants.{AreGrantedInTime};
ghost use Rattle.deadline_plan.specs.Jobs.{jobs};
ghost use Rattle.run_commands.specs.Answers.{Answers};
ghost use Rattle.run_commands.specs.DeadlineReport.{Decided, Differ, deadline_lines, no_streams, stream_of_answer};
ghost use Rattle.run_commands.specs.declared.command.Command.TheVariants as asked;

use crate::answer::{Answer, fault_answer};
use crate::deadline_report::deadline_report;
use air_log::Air;
use deadline_plan::{Admit, DeadlineStream, DeadlineText, Deadlines, parse_deadlines};
use lwb_base::Memory;
use scenario_text::ParseFault;
use std::alloc::Global;

/// What becomes of the streams that the bytes are a text of, and the rounds of those that are admitted, or the line of their
/// first fault.
pub fn deadline_answer(alloc: Global, bytes: &[u8]) -> Result<Answer, Memory>
    requires { length bytes.now < 2 ^ 31 }
    ensures { IfOk result (λ a. Answers asked.Deadlines bytes.now a) }
{
    match parse_deadlines(alloc, bytes) {
        Ok(text) => deadlines_of(alloc, &text),
        Err(ParseFault::Line(line, kind)) => fault_answer(alloc, line, kind),
        Err(ParseFault::Memory) => Err(Memory),
    }
}

// The same of the text.
fn deadlines_of(alloc: Global, text: &DeadlineText) -> Result<Answer, Memory>
    requires { Differ text.now.streams }
    ensures { (b : List ℕ) → plan_of b ≡ Ok text.now → IfOk result (λ a. Answers asked.Deadlines b a) }
{
    let (answers, plan) = admitted(alloc, text)?;
    let report = report_of(alloc, &answers, &plan)?;
    Ok(Answer::Report(report, Air::new(alloc)))
}

// The report of these answers, and of the rounds of the plan.
fn report_of(
    alloc: Global,
    answers: &[(DeadlineStream, Admit)],
    plan: &Deadlines,
) -> Result<String, Memory>
    ensures lines { IfOk result (λ text. string_bytes text ≡ deadline_lines answers.now (rounds_of plan.now)) }
    ensures kept { AreGrantedInTime (jobs plan.now.frames plan.now.streams) (grants_of plan.now) }
{
    let rounds = plan.rounds(alloc)?;
    let report = deadline_report(alloc, answers, &rounds)?;
    Ok(report)
}

// What becomes of each stream of a text, and the plan of those that are admitted.
fn admitted(
    alloc: Global,
    text: &DeadlineText,
) -> Result<(Vec<(DeadlineStream, Admit)>, Deadlines), Memory>
    requires { Differ text.now.streams }
    ensures streams { IfOk result (λ r. map stream_of_answer r.0.items ≡ text.now.streams) }
    ensures decided { IfOk result (λ r. Decided (no_streams text.now) r.0.items r.1) }
{
    let mut plan = Deadlines::new(text.slots(), text.frames());
    let mut answers = Vec::new(alloc);
    for stream in text.streams() {
        let answer = plan.admit(alloc, stream)?;
        answers.push((*stream, answer))?;
    }
    Ok((answers, plan))
}
