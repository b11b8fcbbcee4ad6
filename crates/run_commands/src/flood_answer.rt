//! The answer to the text of a flood.

ghost use Rattle.std.specs.Prelude.{◌≡◌, ◌<◌, ◌^◌, ℕ, List, IfOk, Ok, length, string_bytes};
ghost use Rattle.scenario_text.specs.FloodGrammar.{flood_of as flood_read};
ghost use Rattle.scenario_clocks.specs.StatedClocks.{stated_clock};
ghost use Rattle.air_log.specs.FloodLaw.{FloodLaw};
ghost use Rattle.bus_terms.specs.FloodOfText.{outcome};
ghost use Rattle.lwb_flood.specs.FloodLog.{HasClocks};
ghost use Rattle.run_commands.specs.Answers.{Answers};
ghost use Rattle.run_commands.specs.FloodReport.{flood_report as flood_lines};
ghost use Rattle.run_commands.specs.declared.command.Command.TheVariants as asked;

use crate::answer::{Answer, fault_answer};
use crate::report::flood_report;
use air_log::Air;
use lwb_base::Memory;
use lwb_flood::{flood_air, outcome_of};
use scenario_clocks::stated_clocks;
use scenario_text::{FloodText, ParseFault, parse_flood};
use std::alloc::Global;

/// The report of the flood that the bytes are a text of, or the line of their first fault.
pub fn flood_answer(alloc: Global, bytes: &[u8]) -> Result<Answer, Memory>
    requires { length bytes.now < 2 ^ 31 }
    ensures { IfOk result (λ a. Answers asked.Flood bytes.now a) }
{
    match parse_flood(alloc, bytes) {
        Ok(text) => flood_of(alloc, &text),
        Err(ParseFault::Line(line, kind)) => fault_answer(alloc, line, kind),
        Err(ParseFault::Memory) => Err(Memory),
    }
}

// The same of the text.
fn flood_of(alloc: Global, f: &FloodText) -> Result<Answer, Memory>
    ensures { (b : List ℕ) → flood_read b ≡ Ok f.now → IfOk result (λ a. Answers asked.Flood b a) }
{
    let air = stated_air(alloc, f)?;
    let report = report_of(alloc, f, &air)?;
    Ok(Answer::Report(report, air))
}

// The report of the flood that has this log.
fn report_of(alloc: Global, f: &FloodText, air: &Air) -> Result<String, Memory>
    requires law { FloodLaw f.now (stated_clock f.now) air.now }
    requires clocks { HasClocks f.now (stated_clock f.now) }
    ensures { IfOk result (λ text. string_bytes text ≡ flood_lines (outcome f.now)) }
{
    let result = outcome_of(alloc, f, air)?;
    let report = flood_report(alloc, &result)?;
    Ok(report)
}

// The log of the flood over the clocks that the text states.
fn stated_air(alloc: Global, f: &FloodText) -> Result<Air, Memory>
    ensures law { IfOk result (λ air. FloodLaw f.now (stated_clock f.now) air) }
    ensures clocks { IfOk result (λ air. HasClocks f.now (stated_clock f.now)) }
{
    let clocks = stated_clocks(alloc, f.nodes(), f.rates())?;
    flood_air(alloc, f, clocks)
}
