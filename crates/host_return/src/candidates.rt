//! The next return in a run.

ghost use Rattle.std.specs.Prelude.{◌≡◌, List, false, IfOk, IfSome, IfNone};
ghost use Rattle.std.specs.List.{list_any};
ghost use Rattle.scenario_clocks.specs.StatedClocks.{scenario_clock};
ghost use Rattle.scenario_text.specs.ScenarioGrammar.{IsScenario};
ghost use Rattle.air_log.specs.declared.entry.Entry.{Entry as EntryOf};
ghost use Rattle.air_log.specs.Lawful.{Lawful};
ghost use Rattle.host_return.specs.Candidates.{switches_off, AllListed, IsCandidate, IsNextReturn, is_listed as is_listed_in};
ghost use Rattle.host_return.specs.Probes.{idle_of, IsIdleIn};
ghost use Rattle.host_return.specs.Transmissions.{AreSent, IsSearchable};
ghost use Rattle.host_return.specs.declared.returned.Return.{Return as ReturnOf};

use crate::Return;
use crate::probes::probed_rank;
use crate::transmissions::Search;
use air_log::{Air, Idle};
use lwb_base::{Memory, NodeId};
use scenario_text::{Act, Scenario, ScriptLine};
use std::alloc::Global;

/// The least candidate in a run of `s`, by frame and then node, that isn't listed yet, by where nodes are idle in this run.
/// `read` is the scenario that was read.
pub(crate) fn next_return(
    alloc: Global,
    read: &Scenario,
    s: &Scenario,
    air: &Air,
    idle: &[Idle],
    listed: &[Return],
) -> Result<Option<Return>, Memory>
    requires said { IsScenario s.now }
    requires lawful { Lawful s.now (scenario_clock s.now) air.now }
    requires frames { read.now.frames ≡ s.now.frames }
    requires idle { idle.now ≡ idle_of s.now air.now }
    ensures some { IfOk result (λ o. IfSome o (IsNextReturn read.now s.now air.now listed.now)) }
    ensures none { IfOk result (λ o. IfNone o (AllListed read.now s.now air.now listed.now)) }
{
    // Where none is idle, the transmissions need not be put in order.
    if idle.is_empty() {
        return Ok(None);
    }
    let sent = Search::of(alloc, s, air)?;
    for one in idle {
        if let Some(next) = fresh_candidate(read, s, one, &sent, listed) {
            return Ok(Some(next));
        }
    }
    Ok(None)
}

// The candidate of a node that is idle in a frame.
fn fresh_candidate(
    read: &Scenario,
    s: &Scenario,
    idle: &Idle,
    sent: &Search,
    listed: &[Return],
) -> Option<Return>
    requires said { IsScenario s.now }
    requires frames { read.now.frames ≡ s.now.frames }
    requires searchable { IsSearchable s.now sent.now }
    ensures some { (air : List EntryOf) → AreSent air sent.now → IsIdleIn s.now air idle.now
        → IfSome result (λ r. IsCandidate read.now s.now air r × (is_listed_in listed.now r ≡ false) × (r.frame ≡ idle.now.frame)
        × (r.node ≡ idle.now.node)) }
    ensures none { (air : List EntryOf) → AreSent air sent.now → IsIdleIn s.now air idle.now
        → IfNone result ((q : ReturnOf) → IsCandidate read.now s.now air q → is_listed_in listed.now q ≡ false → q.frame ≡ idle.now.frame
        → q.node ≡ idle.now.node → ⊥) }
{
    let Idle { frame, node, .. } = *idle;
    if frame >= s.frames() || s.frames() - frame < 2 {
        return None;
    }
    let Some(rank) = probed_rank(idle) else {
        return None;
    };
    let r = Return { frame, node, rank };
    if is_listed(listed, &r) {
        return None;
    }
    if !sent.bring_schedule(s, &r) {
        return None;
    }
    if goes_off(read, frame + 1, node) {
        return None;
    }
    Some(r)
}

fn is_listed(listed: &[Return], r: &Return) -> bool
    ensures { result ≡ is_listed_in listed.now r.now }
{
    listed
        .iter()
        .any(|q| q.frame == r.frame && q.node == r.node)
}

// Whether the script has an off line of the node in the frame.
fn goes_off(s: &Scenario, frame: u32, node: NodeId) -> bool
    ensures { result ≡ list_any (switches_off frame node) s.now.script }
{
    s.script().iter().any(|line| is_off_line(line, frame, node))
}

fn is_off_line(line: &ScriptLine, frame: u32, node: NodeId) -> bool
    ensures { result ≡ switches_off frame node line.now }
{
    line.frame == frame && line.node == node && matches!(line.act, Act::Off)
}
