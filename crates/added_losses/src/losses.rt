//! A scenario with more lose lines in its trace.

ghost use Rattle.std.specs.Prelude.{◌≡◌, ◌+◌, ◌<◌, ◌≤◌, length, IfOk, OnOk, IfSome, IfNone};
ghost use Rattle.std.specs.List.{fold};
ghost use Rattle.scenario_text.specs.Canonical.{IsSaid};
ghost use Rattle.scenario_text.specs.FloodParts.{IsSealed};
ghost use Rattle.scenario_text.specs.PartsInOrder.{script_lines};
ghost use Rattle.scenario_text.specs.ScenarioGrammar.{IsScenario};
ghost use Rattle.scenario_text.specs.OverLines.{over};
ghost use Rattle.added_losses.specs.LossesAdded.{AreInRange, AreNewLosses, IsWithLosses, with_new_line};
ghost use Rattle.lwb_base.specs.declared.limits.TheConstants.{MOST_SCRIPT_LINES};
ghost use Rattle.scenario_text.specs.declared.limits.TheConstants.{BUS_SCRIPT_LINES};

use crate::script::copied_script;
use link_trace::{LoseLine, Trace};
use lwb_base::{MOST_SCRIPT_LINES, Memory};
use scenario_text::Scenario;
use scenario_text::known_nodes::ids;
use std::alloc::Global;

/// The scenario with these lose lines more in its trace. They are in its ranges, and may be in any order. One that is there already
/// changes nothing. Returns `None` if and only if these lines and its script lines of all kinds are more than `MOST_SCRIPT_LINES`
/// together. If the lines are new and differ, each of them adds one to the script lines (`count`).
pub fn with_losses(
    alloc: Global,
    s: &Scenario,
    lines: &[LoseLine],
) -> Result<Option<Scenario>, Memory>
    requires { AreInRange s.now lines.now }
    ensures some { IfOk result (λ o. IfSome o (λ t. IsWithLosses s.now lines.now t
        × (script_lines s.now + length lines.now ≤ MOST_SCRIPT_LINES) × (script_lines t ≤ MOST_SCRIPT_LINES))) }
    ensures still_said { IfOk result (λ o. IfSome o IsScenario) }
    ensures count { IfOk result (λ o. IfSome o (λ t. AreNewLosses s.now.trace lines.now
        → script_lines t ≡ script_lines s.now + length lines.now)) }
    ensures none { IfOk result (λ o. IfNone o (MOST_SCRIPT_LINES < script_lines s.now + length lines.now)) }
{
    if line_count(s) + lines.len() > MOST_SCRIPT_LINES {
        return Ok(None);
    }
    let trace = trace_with(alloc, s, lines)?;
    Ok(Some(over_trace(alloc, s, trace)?))
}

// How many script lines of all kinds the scenario has.
fn line_count(s: &Scenario) -> usize
    ensures count { result ≡ script_lines s.now }
    ensures few { result ≤ BUS_SCRIPT_LINES }
    ensures said { IsScenario s.now }
{
    let trace = s.trace();
    s.rates().len()
        + s.script().len()
        + trace.losses().len()
        + trace.cuts().len()
        + trace.captures().len()
}

// The trace of the scenario with these lines more, sealed with the nodes.
fn trace_with(alloc: Global, s: &Scenario, lines: &[LoseLine]) -> Result<Trace, Memory>
    ensures lines { IfOk result (λ t. t.lines ≡ record s.now.trace { losses = fold with_new_line s.now.trace.losses lines.now }) }
    ensures sealed { IfOk result (λ t. IsSealed t s.now.nodes) }
{
    let mut trace = s.trace().unsealed_copy(alloc)?;
    add_losses(&mut trace, lines)?;
    trace.seal(&ids(alloc, s.nodes())?)?;
    Ok(trace)
}

// Adds those lines that are not there yet.
fn add_losses(trace: &mut Trace, lines: &[LoseLine]) -> Result<(), Memory>
    ensures { OnOk result (trace.new.lines ≡ record trace.old.lines { losses = fold with_new_line trace.old.lines.losses lines.now }) }
{
    for line in lines {
        add_loss(trace, line)?;
    }
    Ok(())
}

fn add_loss(trace: &mut Trace, line: &LoseLine) -> Result<(), Memory>
    ensures { OnOk result (trace.new.lines ≡ record trace.old.lines { losses = with_new_line trace.old.lines.losses line.now }) }
{
    trace.lose(line.frame, line.slot, line.step, line.from, line.to)?;
    Ok(())
}

// The scenario over this trace.
fn over_trace(alloc: Global, s: &Scenario, trace: Trace) -> Result<Scenario, Memory>
    requires said { IsSaid (over s.now trace.lines) }
    requires sealed { IsSealed trace s.now.nodes }
    ensures { IfOk result (λ t. t ≡ over s.now trace.lines) }
{
    Ok(Scenario::of_parts(
        &s.profile(),
        s.frames(),
        s.sends(),
        Vec::from_slice(alloc, s.nodes())?,
        Vec::from_slice(alloc, s.rates())?,
        Vec::from_slice(alloc, s.hosts())?,
        trace,
        copied_script(alloc, s.script())?,
    ))
}
