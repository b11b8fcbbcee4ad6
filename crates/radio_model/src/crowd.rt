//! What keeps a transmission from being received.

ghost use Rattle.std.specs.Prelude.{◌≡◌, ◌<◌, ◌-◌, ℕ, min, length, IfSome, IfNone, slice_index_or, not};
ghost use Rattle.std.specs.Int.{bit_at};
ghost use Rattle.radio_model.specs.Endings.{IsEnding, rivals_at, rivals_of};
ghost use Rattle.radio_model.specs.Marks.{comes_close};
ghost use Rattle.radio_model.specs.declared.station.Station.{Station};
ghost use Rattle.radio_model.specs.Meetings.{IsCrowd, no_crowd, both_crowds};
ghost use Rattle.radio_model.specs.Meetings.{IsFrom, AddsTo, AreSpoiled, HasBitsOf, TellsAt, IsNear, AreThose};

use crate::brought::brought_from;
use crate::ending::Ending;
use crate::mark::{Mark, Origin};
use crate::rivals::{Key, reach_of};
use crate::sending::Sending;
use link_trace::{Links, NodeSet};

/// What keeps a transmission from being received: to which nodes other packets come while it does, and to which its own packet
/// comes out of time.
#[derive(Clone, Copy)]
pub struct Crowd {
    pub mixed: NodeSet,
    pub spoiled: NodeSet,
}

impl Crowd {
    fn none() -> Crowd
        ensures { result ≡ no_crowd }
    {
        Crowd {
            mixed: NodeSet::EMPTY,
            spoiled: NodeSet::EMPTY,
        }
    }

    fn with(self, other: Crowd) -> Crowd
        ensures { result ≡ both_crowds self other }
    {
        Crowd {
            mixed: self.mixed.or(other.mixed),
            spoiled: self.spoiled.or(other.spoiled),
        }
    }

    /// Those of the nodes to which the packet does not come out of time.
    #[inline(always)]
    pub(crate) fn left_of(&self, nodes: NodeSet) -> NodeSet
        ensures { (i : ℕ) → bit_at result i ≡ min (bit_at nodes i) (1 - bit_at self.now.spoiled i) }
    {
        nodes.except(self.spoiled)
    }
}

// What the station at that place brings that keeps the nodes of `among` from receiving x. Mostly its mark tells that there is nothing, or that
// its packet is the one of x and comes before it.
fn crowd_at<M: Links>(links: &M, ending: &Ending, place: u8, among: NodeSet) -> Crowd
    requires ending { IsEnding (M.nodes links.now) ending.now }
    requires place { place < length ending.now.stations.now }
    ensures { (d : Station) → IsCrowd (M.lines links.now) (M.nodes links.now) among
        (rivals_at ending.now (slice_index_or ending.now.stations.now place d)) result }
{
    let x = ending.x;
    let i = usize::from(place);
    let station = &ending.stations[i];
    let mark = &ending.marks[i];
    if mark.comes_along(x, station.node, ending.origin, ending.delta)
        || mark.is_aside(x.start, x.end)
    {
        return Crowd::none();
    }
    if mark.comes_early(x, station.node, ending.origin, ending.opens) {
        return Crowd {
            mixed: NodeSet::EMPTY,
            spoiled: reach_of(links, ending.key, station.place, among),
        };
    }
    let brought = brought_from(links, ending.profile, station, x, among);
    Crowd {
        mixed: brought.mixed,
        spoiled: brought.spoiled,
    }
}

// With what is known, what the stations at these places bring that keeps the nodes that are ready for x from receiving it. Each is
// asked only for those to which the packet does not yet come out of time. None comes only where it does to each of them.
fn crowd_with<M: Links>(
    links: &M,
    ending: &Ending,
    places: NodeSet,
    ready: NodeSet,
    known: Crowd,
) -> Option<Crowd>
    requires ending { IsEnding (M.nodes links.now) ending.now }
    requires within { (k : ℕ) → bit_at places k ≡ 1 → k < length ending.now.stations.now }
    requires known { IsFrom (M.lines links.now) (M.nodes links.now) (rivals_of ending.now) known }
    ensures from { IfSome result (IsFrom (M.lines links.now) (M.nodes links.now) (rivals_of ending.now)) }
    ensures adds { IfSome result (AddsTo known) }
    ensures tells { IfSome result
        (TellsAt (M.lines links.now) (M.nodes links.now) ending.now.profile.now ending.now.x.now ending.now.stations.now ready (λ k. bit_at places k ≡ 1)) }
    ensures none { IfNone result (AreSpoiled (M.lines links.now) (M.nodes links.now) (rivals_of ending.now) ready) }
{
    let mut crowd = known;
    let mut rest = places;
    while !rest.is_empty() {
        let place = rest.lowest();
        rest = rest.without(place);
        let asked = crowd.left_of(ready);
        let other = crowd_at(links, ending, place, asked);
        crowd = crowd.with(other);
        if crowd.left_of(ready).is_empty() {
            return None;
        }
    }
    Some(crowd)
}

// Places among which are all from which a link passes at the key to one of those that are ready.
fn near_of<M: Links>(links: &M, key: Key, ready: NodeSet) -> NodeSet
    requires within { (i : ℕ) → bit_at ready i ≡ 1 → i < length (M.nodes links.now) }
    ensures { IsNear (M.lines links.now) key (M.nodes links.now) (λ i. bit_at ready i ≡ 1) result }
{
    let mut near = NodeSet::EMPTY;
    let mut rest = ready;
    while !rest.is_empty() {
        let place = rest.lowest();
        rest = rest.without(place);
        let from = links.may_reach(key.frame, key.slot, key.counter, place);
        near = near.or(from);
    }
    near
}

// Those of the places whose marks do not show that what is sent there next to x is the packet of x, and begins at one of
// the ticks from `opens` to `latest`.
fn strangers(
    marks: &[Mark],
    places: NodeSet,
    x: &Sending,
    origin: Origin,
    opens: u64,
    latest: u64,
) -> NodeSet
    requires within { (k : ℕ) → bit_at places k ≡ 1 → k < length marks.now }
    ensures { (d : Mark) → AreThose (λ k. not (comes_close opens latest x.now origin (slice_index_or marks.now k d))) places result }
{
    let mut strange = places;
    let mut rest = places;
    while !rest.is_empty() {
        let place = rest.lowest();
        rest = rest.without(place);
        if marks[usize::from(place)].comes_close(x, origin, opens, latest) {
            strange = strange.without(place);
        }
    }
    strange
}

/// What keeps x from being received by the nodes that are ready for it. Returns `None` only if its packet comes out of time to
/// each of these nodes. First come the stations from which a link may pass to one of them. For the others a look at their marks
/// is mostly enough.
pub fn crowd_of<M: Links>(links: &M, ending: &Ending, ready: NodeSet) -> Option<Crowd>
    requires ending { IsEnding (M.nodes links.now) ending.now }
    requires within { (i : ℕ) → bit_at ready i ≡ 1 → i < length (M.nodes links.now) }
    ensures from { IfSome result (IsFrom (M.lines links.now) (M.nodes links.now) (rivals_of ending.now)) }
    ensures tells { IfSome result (λ c. (i : ℕ) → bit_at ready i ≡ 1
        → HasBitsOf (M.lines links.now) (M.nodes links.now) (rivals_of ending.now) i c) }
    ensures none { IfNone result (AreSpoiled (M.lines links.now) (M.nodes links.now) (rivals_of ending.now) ready) }
{
    if ready.is_empty() {
        return None;
    }
    let near = near_of(links, ending.key, ready);
    let crowd = crowd_with(links, ending, ending.places.and(near), ready, Crowd::none())?;
    let far = ending.places.except(near);
    if ending.close {
        return Some(crowd);
    }
    let latest = ending.x.start + ending.delta;
    let strange = strangers(
        ending.marks,
        far,
        ending.x,
        ending.origin,
        ending.opens,
        latest,
    );
    if strange.is_empty() {
        return Some(crowd);
    }
    crowd_with(links, ending, strange, ready, crowd)
}

/// Those of the nodes of `among` at which an earlier copy from the node that began the packet of x spoils x, as far as the mark of that node shows.
/// Where many receive each other, these are nearly all.
pub fn lost_early<M: Links>(links: &M, ending: &Ending, among: NodeSet) -> NodeSet
    requires ending { IsEnding (M.nodes links.now) ending.now }
    ensures { AreSpoiled (M.lines links.now) (M.nodes links.now) (rivals_of ending.now) result }
{
    let x = ending.x;
    let first = usize::from(ending.origin.place);
    if first >= ending.stations.len() {
        return NodeSet::EMPTY;
    }
    let station = &ending.stations[first];
    let mark = &ending.marks[first];
    if mark.is_aside(x.start, x.end)
        || !mark.comes_early(x, station.node, ending.origin, ending.opens)
    {
        return NodeSet::EMPTY;
    }
    reach_of(links, ending.key, station.place, among)
}
