//! The transmissions and tunings of a log, in the orders in which they are searched.

ghost use Rattle.std.specs.Prelude.{◌≡◌, nat_lt, ◌↔◌, ◌<◌, ◌≤◌, ◌^◌, length, slice_index_or, IfOk, true};
ghost use Rattle.radio_model.specs.OnAir.{Sending};
ghost use Rattle.scenario_clocks.specs.StatedClocks.{scenario_clock};
ghost use Rattle.std.specs.Prelude.{List};
ghost use Rattle.air_log.specs.declared.entry.Entry.{Entry};
ghost use Rattle.air_log.specs.Trails.{run_end as run_end_of};
ghost use Rattle.air_log.specs.Lawful.{FollowsTrails};
ghost use Rattle.air_check.specs.Indexes.{IsIndex, IsSearchable};
ghost use Rattle.air_check.specs.Verdicts.{IsGiven};

use crate::receiver_masks::receiver_masks;
use crate::receives::receives;
use crate::sent::{ids, transmissions_of};
use crate::tuned_index::tuned_of;
use crate::tunings::Tuned;
use air_log::Air;
use link_trace::NodeSet;
use lwb_base::{Memory, NodeId};
use radio_model::sending::Sending;
use scenario_text::Scenario;
use std::alloc::Global;

/// What the receptions of a log depend on.
#[derive(Drop)]
pub(crate) struct Index {
    /// The ids of the nodes, ascending.
    pub(crate) nodes: Vec<NodeId>,
    /// The transmissions by start, then sender.
    pub(crate) sent: Vec<Sending>,
    /// For each transmission the nodes that receive it if they are tuned to it.
    pub(crate) receivers: Vec<NodeSet>,
    /// The tunings by node, then channel, then start.
    pub(crate) tuned: Vec<Tuned>,
}

/// The index of a log. `Err` means out of memory.
pub(crate) fn index_of(alloc: Global, s: &Scenario, air: &Air) -> Result<Index, Memory>
    requires { FollowsTrails s.now (scenario_clock s.now) air.now }
    ensures holds { IfOk result (IsIndex air.now) }
    ensures searchable { IfOk result (IsSearchable s.now) }
{
    let nodes = ids(alloc, s)?;
    let sent = transmissions_of(alloc, s, &nodes, air)?;
    let receivers = receiver_masks(alloc, s, &nodes, &sent)?;
    let tuned = tuned_of(alloc, air)?;
    Ok(Index {
        nodes,
        sent: sent.into_sent(),
        receivers,
        tuned,
    })
}

/// Whether the rules of the medium give the node a reception of the transmission at that place.
pub(crate) fn is_given(s: &Scenario, index: &Index, node: NodeId, place: usize) -> bool
    requires searchable { IsSearchable s.now index.now }
    requires place { place < length index.now.sent.items }
    ensures { (air : List Entry) (d : Sending) → IsIndex air index.now
        → (result ≡ true ↔ IsGiven s.now air node (slice_index_or index.now.sent.items place d)) }
{
    if !ends_in_run(s, &index.sent[place]) {
        return false;
    }
    receives(s, index, node, place)
}

// Whether x ends before the run does.
fn ends_in_run(s: &Scenario, x: &Sending) -> bool
    ensures value { result ≡ nat_lt x.now.end (run_end_of s.now) }
    ensures range { run_end_of s.now ≤ 2 ^ 46 }
{
    x.end < run_end(s)
}

// The tick at which the run ends.
fn run_end(s: &Scenario) -> u64
    ensures value { result ≡ run_end_of s.now }
    ensures range { result ≤ 2 ^ 46 }
{
    u64::from(s.frames()) * s.profile().frame()
}
