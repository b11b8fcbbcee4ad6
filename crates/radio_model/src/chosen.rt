//! Captures: the sender that the trace names for a node where several meet.

ghost use Rattle.std.specs.Prelude.{◌≡◌, ◌≤◌, ◌<◌, ◌^◌, length, All, true};
ghost use Rattle.std.specs.List.{list_any};
ghost use Rattle.lwb_base.specs.declared.limits.TheConstants.{MOST_NODES};
ghost use Rattle.link_trace.specs.Passes.{captured};
ghost use Rattle.radio_model.specs.Ages.{IsAged, ByEnd};
ghost use Rattle.radio_model.specs.declared.station.Station.{Station};
ghost use Rattle.radio_model.specs.Meetings.{rivals_in, rivals_to, comes_from};
ghost use Rattle.radio_model.specs.Meetings.{is_chosen as chosen_by, IsPlaceOf};

use crate::brought::brought_from;
use crate::rivals::Key;
use crate::sending::Sending;
use crate::station::Station;
use link_trace::{Links, NodeSet};
use lwb_base::{NodeId, Profile};

/// Whether the sender that the trace names for the node at that key sends the packet of x, and that comes to the node.
pub fn is_chosen<M: Links>(
    links: &M,
    profile: &Profile,
    stations: &[Station],
    at: &Station,
    x: &Sending,
    key: Key,
) -> bool
    requires start { x.now.start ≤ 2 ^ 46 }
    requires end { x.now.end ≤ 2 ^ 46 }
    requires few { length (M.nodes links.now) ≤ MOST_NODES }
    requires aged { All (λ st. IsAged x.now.end st.ended.items) stations.now }
    requires places { All (λ st. IsPlaceOf (M.nodes links.now) st.place st.node) stations.now }
    requires at { IsPlaceOf (M.nodes links.now) at.now.place at.now.node }
    ensures { result ≡ chosen_by (M.lines links.now) at.now.node (rivals_to profile.now x.now stations.now)
        (captured (M.lines links.now) key.frame key.slot key.counter at.now.node) }
{
    let Some(named) = links.captured(key.frame, key.slot, key.counter, at.node) else {
        return false;
    };
    for station in stations {
        if sends_same(links, profile, station, named, at, x) {
            return true;
        }
    }
    false
}

// Whether the station is the named node's and brings the packet of x to the node at `at`.
fn sends_same<M: Links>(
    links: &M,
    profile: &Profile,
    station: &Station,
    named: NodeId,
    at: &Station,
    x: &Sending,
) -> bool
    requires start { x.now.start ≤ 2 ^ 46 }
    requires end { x.now.end ≤ 2 ^ 46 }
    requires few { length (M.nodes links.now) ≤ MOST_NODES }
    requires by_end { ByEnd station.now.ended.items }
    requires station { IsPlaceOf (M.nodes links.now) station.now.place station.now.node }
    requires at { IsPlaceOf (M.nodes links.now) at.now.place at.now.node }
    ensures { result ≡ list_any (comes_from (M.lines links.now) at.now.node named) (rivals_in profile.now x.now station.now) }
{
    let asked = NodeSet::EMPTY.with(at.place);
    station.node == named
        && brought_from(links, profile, station, x, asked)
            .same
            .has(at.place)
}
