//! What the senders of a step bring to a node, and which of it reaches the node.

ghost use Rattle.std.specs.Prelude.{◌≡◌, ◌≤◌, ◌<◌, ℕ, Option, true, false, not, ◌==◌, length, Some, None, if◌then◌else◌};
ghost use Rattle.std.specs.Int.{bit_at};
ghost use Rattle.std.specs.Option.{option_map_or};
ghost use Rattle.lwb_base.specs.declared.limits.TheConstants.{MOST_NODES};
ghost use Rattle.bus_terms.specs.Flooding.{Setting, Moment, offer, pick};
ghost use Rattle.plain_bus.specs.FloodMasks.{AreOffers, IsOffer, AllOffer, IsMaskedFlood, SendsForInitiators, traced};

use crate::station::{Flood, Station};
use link_trace::{Links, NodeSet};
use lwb_base::NodeId;

// One of the origins that the nodes of the set send; None where they send nothing.
fn first_sent(stations: &[Station], from: NodeSet) -> Option<NodeId>
    requires few { length stations.now ≤ MOST_NODES }
    ensures { (give : ℕ → Option ℕ) → AreOffers give stations.now from → IsOffer give result }
{
    let mut rest = from;
    while !rest.is_empty() {
        let place = rest.lowest();
        let Some(station) = stations.get(usize::from(place)) else {
            return None;
        };
        if station.sends.is_some() {
            return station.sends;
        }
        rest = rest.without(place);
    }
    None
}

// It sends another origin than this.
fn differs(sends: Option<NodeId>, origin: NodeId) -> bool
    ensures { result ≡ option_map_or (λ o. not (o == origin)) sends false }
{
    match sends {
        Some(other) => other != origin,
        None => false,
    }
}

// Whether the nodes of the set send this origin and no other.
fn all_send(stations: &[Station], from: NodeSet, origin: NodeId) -> bool
    requires few { length stations.now ≤ MOST_NODES }
    ensures { (give : ℕ → Option ℕ) → AreOffers give stations.now from → AllOffer give origin result }
{
    let mut rest = from;
    while !rest.is_empty() {
        let place = rest.lowest();
        let Some(station) = stations.get(usize::from(place)) else {
            return true;
        };
        if differs(station.sends, origin) {
            return false;
        }
        rest = rest.without(place);
    }
    true
}

// What the node sends, if it is one of the set.
fn sent_by(stations: &[Station], from: NodeSet, node: NodeId) -> Option<NodeId>
    requires few { length stations.now ≤ MOST_NODES }
    ensures { (give : ℕ → Option ℕ) → AreOffers give stations.now from → result ≡ give node }
{
    let mut rest = from;
    while !rest.is_empty() {
        let place = rest.lowest();
        let Some(station) = stations.get(usize::from(place)) else {
            return None;
        };
        if station.node == node {
            return station.sends;
        }
        rest = rest.without(place);
    }
    None
}

/// The origin that reaches the node where the nodes of the set send to it in that step: the only one, or else the one
/// of the node that the links name.
pub(crate) fn picked<M: Links>(
    links: &M,
    flood: &Flood,
    stations: &[Station],
    step: u8,
    at: NodeId,
    from: NodeSet,
) -> Option<NodeId>
    requires few { length stations.now ≤ MOST_NODES }
    ensures { (s : Setting) (m : Moment) → IsMaskedFlood s (traced (M.lines links.now) (M.nodes links.now)) flood.now → SendsForInitiators s m
        → AreOffers (offer s m step at) stations.now from → result ≡ pick s m step at }
{
    let Some(first) = first_sent(stations, from) else {
        return None;
    };
    if flood.lone.is_some() || all_send(stations, from, first) {
        return Some(first);
    }
    let Some(named) = links.captured(flood.frame, flood.slot, step, at) else {
        return None;
    };
    sent_by(stations, from, named)
}
