//! Writes the canonical text of a scenario.

ghost use Rattle.std.specs.Prelude.{◌≡◌, ◌≤◌, ◌*◌, ◌++◌, Ok, IfOk, OnOk, length, string_bytes, codes, [], ◌∷◌, flat_map};
ghost use Rattle.lwb_base.specs.declared.limits.TheConstants.{MOST_SCRIPT_LINES};
ghost use Rattle.text_writers.specs.Lines.{line_text, render, numbered};
ghost use Rattle.scenario_text.specs.ScenarioGrammar.{scenario_of, long_scenario_of, IsScenario};
ghost use Rattle.scenario_text.specs.PartsInOrder.{script_lines};
ghost use Rattle.scenario_text.specs.declared.limits.TheConstants.{RUN_NODE_FRAMES};
ghost use Rattle.scenario_text.specs.Canonical.{canonical, profile_number, contend_lines, loss_words, cut_words, capture_words};

use crate::list_writers::{
    write_captures, write_cuts, write_hosts, write_links, write_losses, write_nodes, write_rates,
    write_script,
};
use crate::scenario::Scenario;
use link_trace::Trace;
use lwb_base::{Memory, Profile};
use std::alloc::{AllocError, Global};
use text_writers::write_line;

/// The canonical text of a scenario: one space between words, a line feed after each line, the lines in one order,
/// and each number and payload in its one spelling. Parsed again by `parse_long` it gives the same scenario, and by `parse`
/// too, where nodes times frames is at most `RUN_NODE_FRAMES`, and there are at most `MOST_SCRIPT_LINES` script lines.
#[tactic(auto, using(crate::proofs::SaidParts::says_again, crate::proofs::Horizons::says_again_to_run))]
pub fn print(alloc: Global, s: &Scenario) -> Result<String, Memory>
    ensures text { IfOk result (λ text. string_bytes text ≡ canonical s.now) }
    ensures back { IfOk result (λ text. long_scenario_of (string_bytes text) ≡ Ok s.now) }
    ensures run { IfOk result (λ text. length s.now.nodes * s.now.frames ≤ RUN_NODE_FRAMES → script_lines s.now ≤ MOST_SCRIPT_LINES
        → scenario_of (string_bytes text) ≡ Ok s.now) }
{
    Ok(text_of(alloc, s)?)
}

#[tactic(auto, using(crate::proofs::CanonicalParts::in_turn))]
fn text_of(alloc: Global, s: &Scenario) -> Result<String, AllocError>
    ensures text { IfOk result (λ text. string_bytes text ≡ canonical s.now) }
    ensures said { IsScenario s.now }
{
    let mut text = String::new(alloc);
    write_first_lines(&mut text, s.profile(), s.frames(), s.sends())?;
    write_nodes(&mut text, s.nodes())?;
    write_rates(&mut text, s.rates())?;
    write_hosts(&mut text, s.hosts())?;
    write_links(&mut text, s.trace().links())?;
    write_script(&mut text, s.script())?;
    write_steps(&mut text, s.trace())?;
    Ok(text)
}

// Writes the lines that there are once at most.
fn write_first_lines(
    text: &mut String,
    profile: Profile,
    frames: u32,
    sends: u8,
) -> Result<(), AllocError>
    ensures { OnOk result (string_bytes text.new ≡ string_bytes text.old ++ line_text (numbered (codes "profile") (profile_number profile ∷ []))
        ++ render (contend_lines profile.contend) ++ line_text (numbered (codes "frames") (frames ∷ [])) ++ line_text (numbered (codes "sends") (sends ∷ []))) }
{
    write_profile(text, profile)?;
    write_contend(text, profile)?;
    write_frames(text, frames)?;
    write_sends(text, sends)
}

// Writes the lines of single steps.
fn write_steps(text: &mut String, trace: &Trace) -> Result<(), AllocError>
    ensures { OnOk result (string_bytes text.new ≡ string_bytes text.old ++ flat_map (λ l. line_text (loss_words l)) trace.now.lines.losses
        ++ flat_map (λ l. line_text (cut_words l)) trace.now.lines.cuts ++ flat_map (λ l. line_text (capture_words l)) trace.now.lines.captures) }
{
    write_losses(text, trace.losses())?;
    write_cuts(text, trace.cuts())?;
    write_captures(text, trace.captures())
}

fn write_profile(text: &mut String, profile: Profile) -> Result<(), AllocError>
    ensures { OnOk result (string_bytes text.new ≡ string_bytes text.old ++ line_text (numbered (codes "profile") (profile_number profile ∷ []))) }
{
    let number = if profile.is_one() { 1u8 } else { 2u8 };
    write_line(text, "profile", &[number])
}

fn write_contend(text: &mut String, profile: Profile) -> Result<(), AllocError>
    ensures { OnOk result (string_bytes text.new ≡ string_bytes text.old ++ render (contend_lines profile.contend)) }
{
    let slots = profile.contend();
    if slots == 0 {
        return Ok(());
    }
    write_line(text, "contend", &[slots])
}

fn write_frames(text: &mut String, frames: u32) -> Result<(), AllocError>
    ensures { OnOk result (string_bytes text.new ≡ string_bytes text.old ++ line_text (numbered (codes "frames") (frames ∷ []))) }
{
    write_line(text, "frames", &[frames])
}

fn write_sends(text: &mut String, sends: u8) -> Result<(), AllocError>
    ensures { OnOk result (string_bytes text.new ≡ string_bytes text.old ++ line_text (numbered (codes "sends") (sends ∷ []))) }
{
    write_line(text, "sends", &[sends])
}
