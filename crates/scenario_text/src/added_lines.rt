//! A scenario with more lines in its script.

ghost use Rattle.std.specs.Prelude.{◌≡◌, ◌≤◌, ◌<◌, ◌+◌, ◌++◌, true, false, length, All, AllPairs, IfOk, OnOk, IfSome, IfNone, IsPermutation};
ghost use Rattle.lwb_base.specs.declared.limits.TheConstants.{MOST_SCRIPT_LINES};
ghost use Rattle.scenario_text.specs.AddedLines.{IsMerged, IsWithScript, HasRoom};
ghost use Rattle.scenario_text.specs.Canonical.{IsSaid};
ghost use Rattle.scenario_text.specs.FloodParts.{IsSealed};
ghost use Rattle.scenario_text.specs.PartsInOrder.{script_lines};
ghost use Rattle.bus_rules.specs.States.{payload_of};
ghost use Rattle.scenario_text.specs.ScenarioFacts.{IsScriptLine};
ghost use Rattle.scenario_text.specs.ScenarioGrammar.{IsScenario};
ghost use Rattle.scenario_text.specs.declared.limits.TheConstants.{BUS_SCRIPT_LINES};
ghost use Rattle.scenario_text.specs.ScenarioParts.{ScenarioParts};

use crate::boots::has_few_boots;
use crate::network::Network;
use crate::sealing::seal;
use crate::{Scenario, ScriptLine};
use link_trace::Trace;
use lwb_base::{MOST_SCRIPT_LINES, Memory};
use std::alloc::Global;

/// The scenario with these lines added to its script, each after all lines of its frame that are there already, and in the
/// order given. They are known nodes' lines in ascending frames below the number of frames. Returns `None` if and only
/// if a text would be rejected for the result's number of lines: a node would boot more than `MOST_BOOTS` times, or there would be
/// more than `MOST_SCRIPT_LINES` script lines of all kinds.
pub fn with_script(
    alloc: Global,
    s: &Scenario,
    added: &[ScriptLine],
) -> Result<Option<Scenario>, Memory>
    requires in_range { All (IsScriptLine s.now) added.now }
    requires ascending { AllPairs (λ a b. a.frame ≤ b.frame) added.now }
    ensures said { IsScenario s.now }
    ensures some { IfOk result (λ o. IfSome o (λ t. IsWithScript s.now added.now t × HasRoom t)) }
    ensures still_said { IfOk result (λ o. IfSome o IsScenario) }
    ensures none { IfOk result (λ o. IfNone o ((t : ScenarioParts) → IsWithScript s.now added.now t → HasRoom t → ⊥)) }
{
    let script = merged(alloc, s.script(), added)?;
    if other_lines(s) + script.len() > MOST_SCRIPT_LINES {
        return Ok(None);
    }
    if !has_few_boots(&script) {
        return Ok(None);
    }
    Ok(Some(with_own_script(alloc, s, script)?))
}

/// A copy of the scenario.
pub fn copy_of(alloc: Global, s: &Scenario) -> Result<Scenario, Memory>
    ensures said { IsScenario s.now }
    ensures copy { IfOk result (λ t. t ≡ s.now) }
{
    let mut script = Vec::new(alloc);
    copy_lines(&mut script, s.script())?;
    with_own_script(alloc, s, script)
}

// The scenario with this script in place of its own.
fn with_own_script(alloc: Global, s: &Scenario, script: Vec<ScriptLine>) -> Result<Scenario, Memory>
    requires { IsSaid (record s.now { script = script.items }) }
    ensures { IfOk result (λ t. t ≡ record s.now { script = script.items }) }
{
    let hosts = Vec::from_slice(alloc, s.hosts())?;
    let network = network_of(alloc, s)?;
    Ok(Scenario::of_network(s.profile(), s.frames(), network, hosts, script))
}

// A copy of its network.
fn network_of(alloc: Global, s: &Scenario) -> Result<Network, Memory>
    ensures { IfOk result (λ n. n ≡ record { sends = s.now.sends; nodes = s.now.nodes; rates = s.now.rates; trace = s.now.trace }) }
{
    let nodes = Vec::from_slice(alloc, s.nodes())?;
    let rates = Vec::from_slice(alloc, s.rates())?;
    let trace = sealed_trace(alloc, s)?;
    Ok(Network {
        sends: s.sends(),
        nodes,
        rates,
        trace,
    })
}

// A copy of its trace.
fn sealed_trace(alloc: Global, s: &Scenario) -> Result<Trace, Memory>
    ensures { IfOk result (λ t. (t.lines ≡ s.now.trace) × IsSealed t s.now.nodes) }
{
    let mut trace = s.trace().unsealed_copy(alloc)?;
    seal(alloc, &mut trace, s.nodes())?;
    Ok(trace)
}

// How many script lines the scenario has next to those of its script.
fn other_lines(s: &Scenario) -> usize
    requires { IsScenario s.now }
    ensures count { result + length s.now.script ≡ script_lines s.now }
    ensures few { result ≤ BUS_SCRIPT_LINES }
{
    let trace = s.trace();
    s.rates().len() + trace.losses().len() + trace.cuts().len() + trace.captures().len()
}

// The lines of both by frame, and of each frame the old ones first.
fn merged(
    alloc: Global,
    old: &[ScriptLine],
    added: &[ScriptLine],
) -> Result<Vec<ScriptLine>, Memory>
    ensures merged { IfOk result (λ all. IsMerged old.now added.now all.items) }
    ensures permutation { IfOk result (λ all. IsPermutation (old.now ++ added.now) all.items) }
    ensures bytes { IfOk result (λ all. All (λ l. All (λ b. b < 256) (payload_of l.act)) all.items) }
{
    let mut all = Vec::new(alloc);
    copy_lines(&mut all, old)?;
    copy_lines(&mut all, added)?;
    all.sort_by_key(|line| line.frame)?;
    Ok(all)
}

fn copy_lines(all: &mut Vec<ScriptLine>, lines: &[ScriptLine]) -> Result<(), Memory>
    ensures lines { OnOk result (all.new.items ≡ all.old.items ++ lines.now) }
    ensures bytes { OnOk result (All (λ l. All (λ b. b < 256) (payload_of l.act)) lines.now) }
{
    for line in lines {
        all.push(copied(line))?;
    }
    Ok(())
}

fn copied(line: &ScriptLine) -> ScriptLine
    ensures same { result ≡ line.now }
    ensures bytes { All (λ b. b < 256) (payload_of line.now.act) }
{
    ScriptLine {
        frame: line.frame,
        node: line.node,
        act: line.act.copy(),
    }
}
