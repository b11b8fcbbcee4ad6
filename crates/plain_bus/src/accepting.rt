//! What the flood of a flood text gives.

ghost use Rattle.std.specs.Prelude.{◌≡◌, ◌≤◌, ◌==◌, IfOk, All, length, sum_by, filter_map, true};
ghost use Rattle.lwb_base.specs.declared.limits.TheConstants.{MOST_NODES};
ghost use Rattle.link_trace.specs.Masks.{IsMask};
ghost use Rattle.link_trace.specs.Sealed.{Traced};
ghost use Rattle.scenario_text.specs.FloodParts.{IsSealed};
ghost use Rattle.bus_terms.specs.FloodOfText.{ids, outcome, setting};
ghost use Rattle.plain_bus.specs.FloodMasks.{IsMaskedFlood, accepted_from};

use crate::station::{Flood, Station};
use crate::stepping::flooded;
use bus_rules::FloodResult;
use link_trace::NodeSet;
use lwb_base::{Memory, NodeId};
use scenario_text::{FloodText, NodeLine};
use std::alloc::Global;

/// What one flood of the text gives: who accepts and in which step, and how often it is sent. `Err` means out of memory.
pub fn accepts(alloc: Global, f: &FloodText) -> Result<FloodResult, Memory>
    ensures { IfOk result (λ r. r ≡ outcome f.now) }
{
    let end = flooded(f.trace(), &flood_of(f), f.nodes());
    let stations = end.stations.each.as_slice();
    let sent = sendings(stations);
    let accepts = acceptances(alloc, f.start(), stations)?;
    Ok(FloodResult::new(accepts, sent))
}

// The flood of the text: the starting node initiates, and all take part.
fn flood_of(f: &FloodText) -> Flood
    ensures { (t : Traced) → t.lines ≡ f.now.trace → IsSealed t f.now.nodes → IsMaskedFlood (setting f.now) t result }
{
    let start = f.start();
    Flood {
        frame: 5,
        slot: 1,
        limit: f.sends(),
        initiators: mask_of(f.nodes(), start),
        everyone: mask_of_all(f.nodes()),
        lone: Some(start),
    }
}

// The nodes of this id.
fn mask_of(nodes: &[NodeLine], node: NodeId) -> NodeSet
    requires { length nodes.now ≤ MOST_NODES }
    ensures { IsMask (λ v. v == node) (ids nodes.now) result }
{
    let mut mask = NodeSet::EMPTY;
    for (i, line) in nodes.iter().enumerate() {
        if line.node == node {
            mask = mask.with(i as u8);
        }
    }
    mask
}

// All nodes.
fn mask_of_all(nodes: &[NodeLine]) -> NodeSet
    requires { length nodes.now ≤ MOST_NODES }
    ensures { IsMask (λ v. true) (ids nodes.now) result }
{
    let mut mask = NodeSet::EMPTY;
    for i in 0..nodes.len() {
        mask = mask.with(i as u8);
    }
    mask
}

// How often all have sent.
fn sendings(stations: &[Station]) -> u32
    requires few { length stations.now ≤ MOST_NODES }
    requires times { All (λ x. x.times ≤ 12) stations.now }
    ensures { result ≡ sum_by (λ x. x.times) stations.now }
{
    let mut sent = 0;
    for station in stations {
        sent += u32::from(station.times);
    }
    sent
}

// Who accepted, and in which step.
fn acceptances(
    alloc: Global,
    start: NodeId,
    stations: &[Station],
) -> Result<Vec<(NodeId, u8)>, Memory>
    ensures { IfOk result (λ v. v.items ≡ filter_map (accepted_from start) stations.now) }
{
    let mut accepts = Vec::new(alloc);
    for station in stations {
        if let Some(acceptance) = accepted(start, station) {
            accepts.push(acceptance)?;
        }
    }
    Ok(accepts)
}

// What a node accepted, which the starting one does not.
fn accepted(start: NodeId, station: &Station) -> Option<(NodeId, u8)>
    ensures { result ≡ accepted_from start station.now }
{
    match station.heard {
        Some((_, step)) if station.node != start => Some((station.node, step)),
        _ => None,
    }
}
