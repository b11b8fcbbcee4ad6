//! The transmissions of a log, in the order in which they are searched.

ghost use Rattle.std.specs.Prelude.{◌≡◌, ◌<◌, ◌++◌, length, map, option_to_list, slice_index_or, IfOk, OnOk};
ghost use Rattle.radio_model.specs.Reaches.{AreSearchable, HoldSame};
ghost use Rattle.scenario_text.specs.ScenarioGrammar.{IsScenario};
ghost use Rattle.scenario_clocks.specs.StatedClocks.{scenario_clock};
ghost use Rattle.air_log.specs.Entries.{sendings_of, sending_in};
ghost use Rattle.air_log.specs.Lawful.{FollowsTrails};

use air_log::{Air, Entry};
use lwb_base::{Memory, NodeId};
use radio_model::Transmissions;
use radio_model::sending::Sending;
use scenario_text::Scenario;
use std::alloc::Global;

/// The ids of the nodes of a scenario.
pub fn ids(alloc: Global, s: &Scenario) -> Result<Vec<NodeId>, Memory>
    ensures ids { IfOk result (λ ids. ids.items ≡ map (λ n. n.node) s.now.nodes) }
    ensures said { IfOk result (λ ids. IsScenario s.now) }
{
    Ok(s.nodes().iter().map(|n| n.node).collect(alloc)?)
}

/// The transmissions of a log by start, then sender, over the trace of the scenario, whose nodes these are. `Err` means out of
/// memory.
pub fn transmissions_of(
    alloc: Global,
    s: &Scenario,
    nodes: &[NodeId],
    air: &Air,
) -> Result<Transmissions, Memory>
    requires said { IsScenario s.now }
    requires ids { nodes.now ≡ map (λ n. n.node) s.now.nodes }
    requires trails { FollowsTrails s.now (scenario_clock s.now) air.now }
    ensures sent { IfOk result (λ t. HoldSame (sendings_of air.now) t.sent) }
    ensures searchable { IfOk result (AreSearchable s.now.profile s.now.trace nodes.now) }
{
    let logged = sent_in(alloc, air)?;
    let sent = Transmissions::of(alloc, &s.profile(), s.trace(), nodes, logged)?;
    Ok(sent)
}

fn sent_in(alloc: Global, air: &Air) -> Result<Vec<Sending>, Memory>
    ensures { IfOk result (λ xs. xs.items ≡ sendings_of air.now) }
{
    let mut sent = Vec::new(alloc);
    for i in 0..air.len() {
        push_some(&mut sent, sending_by(entry_at(air, i)))?;
    }
    Ok(sent)
}

/// The entry at that place.
pub(crate) fn entry_at(air: &Air, i: usize) -> &Entry
    requires { i < length air.now }
    ensures { result.now ≡ slice_index_or air.now i result.now }
{
    air.at(i).unwrap()
}

fn push_some(sent: &mut Vec<Sending>, x: Option<Sending>) -> Result<(), Memory>
    ensures { OnOk result (sent.new.items ≡ sent.old.items ++ option_to_list x) }
{
    if let Some(x) = x {
        sent.push(x)?;
    }
    Ok(())
}

// The transmission that an entry says.
fn sending_by(entry: &Entry) -> Option<Sending>
    ensures { result ≡ sending_in entry.now }
{
    match entry {
        Entry::Sent(sent) => Some(sent.copy()),
        Entry::Heard(_) | Entry::Tuned(_) => None,
    }
}
