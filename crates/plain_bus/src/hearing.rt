//! What a node receives in a step of a flood.

ghost use Rattle.std.specs.Prelude.{◌≡◌, ◌<◌, ◌≤◌, length, slice_index};
ghost use Rattle.lwb_base.specs.declared.limits.TheConstants.{MOST_NODES};
ghost use Rattle.bus_terms.specs.Flooding.{Setting, Moment, hears as hears_in, agrees as agrees_with};
ghost use Rattle.plain_bus.specs.FloodMasks.{AreAt, IsMaskedFlood, SendsForInitiators, heard_alone, may_hear_at, takes_at, traced};

use crate::offers::picked;
use crate::station::{Flood, Station, Stations};
use link_trace::{Links, NodeSet};
use lwb_base::NodeId;

/// The initiator whose message the node at this place receives in the step, if it receives one.
pub fn hears<M: Links>(
    links: &M,
    flood: &Flood,
    now: &Stations,
    step: u8,
    place: u8,
) -> Option<NodeId>
    requires place { place < length now.now.each.items }
    requires sealed { length now.now.each.items ≡ length (M.nodes links.now) }
    requires few { length (M.nodes links.now) ≤ MOST_NODES }
    ensures { (s : Setting) (m : Moment) → IsMaskedFlood s (traced (M.lines links.now) (M.nodes links.now)) flood.now → SendsForInitiators s m
        → AreAt m (M.nodes links.now) now.now
        → result ≡ hears_in s m step (slice_index (M.nodes links.now) place) }
{
    let station = now.each[usize::from(place)];
    if !may_hear(flood, &station, place) {
        return None;
    }
    let reaching = links.from_mask(flood.frame, flood.slot, step, place);
    let from = NodeSet::of_word(reaching).and(now.senders);
    let Some(origin) = picked(links, flood, now.each.as_slice(), step, station.node, from) else {
        return None;
    };
    if takes(flood, &station, place, origin) {
        Some(origin)
    } else {
        None
    }
}

/// The same where this origin alone is sent, and reaches these nodes.
pub(crate) fn hears_alone(
    flood: &Flood,
    station: &Station,
    place: u8,
    reached: NodeSet,
    origin: NodeId,
) -> Option<NodeId>
    requires { place < MOST_NODES }
    ensures { result ≡ heard_alone flood.now reached place origin station.now }
{
    if reached.has(place)
        && may_hear(flood, station, place)
        && takes(flood, station, place, origin)
    {
        Some(origin)
    } else {
        None
    }
}

// It takes part, does not send, and may send again.
fn may_hear(flood: &Flood, station: &Station, place: u8) -> bool
    requires { place < MOST_NODES }
    ensures { result ≡ may_hear_at flood.now station.now place }
{
    flood.everyone.has(place) && station.sends.is_none() && station.times < flood.limit
}

// It is no other initiator, and has received no other.
fn takes(flood: &Flood, station: &Station, place: u8, origin: NodeId) -> bool
    requires { place < MOST_NODES }
    ensures { result ≡ takes_at flood.now station.now place origin }
{
    (!flood.initiators.has(place) || station.node == origin) && agrees(station, origin)
}

// It has received nothing before, or the same.
fn agrees(station: &Station, origin: NodeId) -> bool
    ensures { result ≡ agrees_with station.now.heard origin }
{
    match station.heard {
        Some((first, _)) => first == origin,
        None => true,
    }
}
