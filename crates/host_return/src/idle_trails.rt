//! Where nodes are idle, by their trails over a log.

ghost use Rattle.std.specs.Prelude.{◌≡◌, ◌++◌, OnOk, IfOk, map, filter_map, option_to_list};
ghost use Rattle.air_log.specs.declared.entry.Entry.{Entry as EntryOf};
ghost use Rattle.host_return.specs.Probes.{idle_of};
ghost use Rattle.host_return.specs.TrailsInOrder.{idle_told, trail_in};

use air_log::{Air, Idle, Trail, trail_of};
use lwb_base::{Memory, NodeId};
use scenario_clocks::stated_clocks;
use scenario_text::Scenario;
use std::alloc::Global;

/// Where nodes are idle in a run of `s` over the clocks that it states, by frame and then node.
pub(crate) fn idle_by_trails(alloc: Global, s: &Scenario, air: &Air) -> Result<Vec<Idle>, Memory>
    ensures { IfOk result (λ idle. idle.items ≡ idle_of s.now air.now) }
{
    let trails = trails_of(alloc, s, air)?;
    let mut idle = Vec::new(alloc);
    for frame in 0..s.frames() {
        list_idle(&mut idle, &trails, frame)?;
    }
    Ok(idle)
}

// A node, and its trail.
#[derive(Drop)]
struct NodeTrail {
    node: NodeId,
    trail: Trail,
}

// The trail of each node, by ascending ids.
fn trails_of(alloc: Global, s: &Scenario, air: &Air) -> Result<Vec<NodeTrail>, Memory>
    ensures { IfOk result (λ trails. trails.items ≡ map (trail_in s.now air.now) s.now.nodes) }
{
    let nodes = s.nodes();
    let clocks = stated_clocks(alloc, nodes, s.rates())?;
    let mut trails = Vec::new(alloc);
    for i in 0..nodes.len() {
        let node = nodes[i].node;
        let trail = trail_of(alloc, s, air, node, &clocks[i])?;
        trails.push(NodeTrail { node, trail })?;
    }
    Ok(trails)
}

// The nodes that are idle in the frame are listed.
fn list_idle(idle: &mut Vec<Idle>, trails: &[NodeTrail], frame: u32) -> Result<(), Memory>
    ensures { OnOk result (idle.new.items ≡ idle.old.items ++ filter_map (idle_told frame) trails.now) }
{
    for one in trails {
        push_some(idle, idle_node(one, frame))?;
    }
    Ok(())
}

fn push_some(idle: &mut Vec<Idle>, one: Option<Idle>) -> Result<(), Memory>
    ensures { OnOk result (idle.new.items ≡ idle.old.items ++ option_to_list one) }
{
    if let Some(one) = one {
        idle.push(one)?;
    }
    Ok(())
}

fn idle_node(one: &NodeTrail, frame: u32) -> Option<Idle>
    ensures { result ≡ idle_told frame one.now }
{
    Idle::with_tune(frame, one.node, one.trail.tune_at(frame))
}
