//! The answer to the command `times`.

ghost use Rattle.std.specs.Prelude.{◌≡◌, ◌<◌, ◌^◌, ◌++◌, ℕ, List, IfOk, Ok, OnOk, flat_map, length, string_bytes};
ghost use Rattle.scenario_text.specs.ScenarioGrammar.{scenario_of};
ghost use Rattle.run_commands.specs.Answers.{Answers};
ghost use Rattle.run_commands.specs.TimesReport.{stamp_line};
ghost use Rattle.run_commands.specs.declared.command.Command.TheVariants as asked;

use crate::answer::{Answer, fault_answer};
use bus_time::{Stamp, stamps};
use lwb_base::Memory;
use run_report::run_of;
use scenario_text::{ParseFault, Scenario, parse};
use std::alloc::{AllocError, Global};
use text_writers::{write_line, write_lines};

/// When each data packet of a run of the scenario that the bytes are a text of was sent first, in the time of the host; or the
/// line of their first fault.
pub fn times_answer(alloc: Global, bytes: &[u8]) -> Result<Answer, Memory>
    requires { length bytes.now < 2 ^ 31 }
    ensures { IfOk result (λ a. Answers asked.Times bytes.now a) }
{
    match parse(alloc, bytes) {
        Ok(scenario) => times_of(alloc, &scenario),
        Err(ParseFault::Line(line, kind)) => fault_answer(alloc, line, kind),
        Err(ParseFault::Memory) => Err(Memory),
    }
}

// The same of a run of the scenario.
fn times_of(alloc: Global, s: &Scenario) -> Result<Answer, Memory>
    ensures { (b : List ℕ) → scenario_of b ≡ Ok s.now → IfOk result (λ a. Answers asked.Times b a) }
{
    let run = run_of(alloc, s)?;
    let stamps = stamps(alloc, s, &run.air)?;
    let report = stamp_lines(alloc, &stamps)?;
    Ok(Answer::Report(report, run.air))
}

fn stamp_lines(alloc: Global, stamps: &[Stamp]) -> Result<String, AllocError>
    ensures { IfOk result (λ text. string_bytes text ≡ flat_map stamp_line stamps.now) }
{
    let mut text = String::new(alloc);
    write_stamps(&mut text, stamps)?;
    Ok(text)
}

fn write_stamps(text: &mut String, stamps: &[Stamp]) -> Result<(), AllocError>
    ensures { OnOk result (string_bytes text.new ≡ string_bytes text.old ++ flat_map stamp_line stamps.now) }
{
    write_lines(text, stamps, write_stamp)
}

// `stamp FRAME RANK SLOT NODE STREAM SEQ TICK`.
fn write_stamp(text: &mut String, stamp: &Stamp) -> Result<(), AllocError>
    ensures { OnOk result (string_bytes text.new ≡ string_bytes text.old ++ stamp_line stamp.now) }
{
    write_line(
        text,
        "stamp",
        &[
            u64::from(stamp.frame),
            u64::from(stamp.rank.number()),
            u64::from(stamp.slot),
            u64::from(stamp.node.number()),
            u64::from(stamp.stream),
            u64::from(stamp.seq),
            stamp.tick,
        ],
    )
}
