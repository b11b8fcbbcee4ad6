//! The answer to the command `draw`.

ghost use Rattle.std.specs.Prelude.{◌≡◌, ◌<◌, ◌^◌, IfOk, Ok, length, map, string_bytes};
ghost use Rattle.text_readers.specs.Faults.{RefusesBy};
ghost use Rattle.scenario_text.specs.FloodParts.{node_id};
ghost use Rattle.network_text.specs.NetworkGrammar.{network_of};
ghost use Rattle.plan_commands.specs.DrawnTexts.{IsDrawnText, drawn_text_fault};
ghost use Rattle.plan_commands.specs.Answers.{Answers};
ghost use Rattle.plan_commands.specs.declared.command.Command.TheVariants as asked;

use crate::answer::{Answer, fault_answer};
use crate::line_count::line_count;
use added_losses::drawn_text;
use drawn_links::{DrawnLinks, Ratios};
use drawn_losses::draw_losses;
use lwb_base::Memory;
use network_text::parse_network;
use scenario_text::Scenario;
use std::alloc::Global;
use text_readers::{FaultKind, ParseFault};

/// The scenario with the losses that the seed draws, as far as they change what somebody receives, as a text for a run: for the
/// network that the bytes are a text of. Or the line of their first fault, which is the one after the last where there is no such
/// text (`drawn_text`).
pub fn draw_answer(alloc: Global, seed: u64, bytes: &[u8]) -> Result<Answer, Memory>
    requires { length bytes.now < 2 ^ 31 }
    ensures { IfOk result (λ a. Answers (asked.Draw seed) bytes.now a) }
{
    match parse_network(alloc, bytes) {
        Ok((scenario, ratios)) => network_answer(alloc, seed, bytes, &scenario, &ratios),
        Err(ParseFault::Line(line, kind)) => fault_answer(alloc, line, kind),
        Err(ParseFault::Memory) => Err(Memory),
    }
}

// The answer to the network that the bytes are a text of.
fn network_answer(
    alloc: Global,
    seed: u64,
    bytes: &[u8],
    scenario: &Scenario,
    ratios: &Ratios,
) -> Result<Answer, Memory>
    requires short { length bytes.now < 2 ^ 31 }
    requires network { network_of bytes.now ≡ Ok (scenario.now, ratios.now.lines) }
    requires nodes { ratios.now.nodes ≡ map node_id scenario.now.nodes }
    ensures { IfOk result (λ a. Answers (asked.Draw seed) bytes.now a) }
{
    match drawn(alloc, scenario, ratios, seed)? {
        Ok(text) => Ok(Answer::Report(text, ())),
        Err(kind) => fault_answer(alloc, line_count(bytes) + 1, kind),
    }
}

// The text of the scenario with the losses that change a reception, or why there is none.
fn drawn(
    alloc: Global,
    scenario: &Scenario,
    ratios: &Ratios,
    seed: u64,
) -> Result<Result<String, FaultKind>, Memory>
    requires { ratios.now.nodes ≡ map node_id scenario.now.nodes }
    ensures text { IfOk result (λ r. IfOk r (λ text. IsDrawnText scenario.now ratios.now.lines seed (string_bytes text))) }
    ensures fault { IfOk result (λ r. RefusesBy r (drawn_text_fault scenario.now ratios.now.lines seed)) }
{
    let links = DrawnLinks::new(scenario.trace(), ratios, seed, scenario.frames());
    let losses = draw_losses(alloc, scenario, &links)?;
    drawn_text(alloc, scenario, &losses)
}
