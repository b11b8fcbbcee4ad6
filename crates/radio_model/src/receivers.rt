//! Which nodes receive a transmission, decided over a list of transmissions. Nodes are those of the seal of a trace, and
//! place i of a set is that of node i.

ghost use Rattle.std.specs.Prelude.{Bool, ◌≡◌, ◌==◌, ◌&&◌, ◌↔◌, ◌<◌, ◌≤◌, ◌^◌, ℕ, List, All, Contains, length, slice_index, not, true, IfSome, IfNone};
ghost use Rattle.std.specs.List.{list_any};
ghost use Rattle.std.specs.Int.{bit_at};
ghost use Rattle.std.specs.Str.{bytes_eq};
ghost use Rattle.lwb_base.specs.declared.limits.TheConstants.{MOST_NODES};
ghost use Rattle.lwb_base.specs.Profile.{Numbers};
ghost use Rattle.link_trace.specs.Masks.{AreNodes, IsMask};
ghost use Rattle.link_trace.specs.Passes.{Lines, captured};
ghost use Rattle.radio_model.specs.Hearing.{Scene, HearsInScene, TunedThrough, frame_of_sending, slot_of_sending, counter_of_sending};
ghost use Rattle.radio_model.specs.Meetings.{comes_in_time as in_time};
ghost use Rattle.radio_model.specs.Reaches.{IsReach, AreReaches, AreDisturbed, IsAmong};
ghost use Rattle.radio_model.specs.Receptions.{AreNear, arrives as arrival, transmits, spoils, differs, is_captured as captured_by};
ghost use Rattle.radio_model.specs.Receptions.{repeats as repetition, meets_on as meets_on_channel};

use crate::captured::{arrives, is_captured};
use crate::meeting::{comes_in_time, meets_on, overlap, repeats};
use crate::sending::Sending;
use link_trace::{NodeSet, Trace};
use lwb_base::{NodeId, Profile};

/// Of a transmission, its sender, and the nodes to which a link passes from it.
#[derive(Clone, Copy)]
pub struct Reach {
    pub from: NodeSet,
    pub to: NodeSet,
}

/// The sender of y, and the nodes to which a link passes from it.
pub(crate) fn reach_of(profile: &Profile, trace: &Trace, nodes: &[NodeId], y: &Sending) -> Reach
    requires nodes { AreNodes nodes.now }
    requires sealed { nodes.now ≡ trace.now.nodes }
    requires start { y.now.start ≤ 2 ^ 46 }
    ensures { IsReach profile.now trace.now.lines nodes.now y.now result }
{
    match nodes.binary_search(&y.node) {
        Ok(place) => Reach {
            from: NodeSet::EMPTY.with(place as u8),
            to: reached_from(profile, trace, y, place as u8),
        },
        Err(_) => Reach {
            from: NodeSet::EMPTY,
            to: reached_by_other(profile, trace, nodes, y),
        },
    }
}

/// The nodes to which x comes and where nothing on the air keeps it from being received, where all transmissions are near
/// that overlap it. So a node that is tuned to the channel of x as long as x lasts receives it if and only if its place is in the set.
pub(crate) fn receivers(
    profile: &Profile,
    trace: &Trace,
    nodes: &[NodeId],
    near: &[Sending],
    reaches: &[Reach],
    x: &Sending,
    reach: Reach,
) -> NodeSet
    requires nodes { AreNodes nodes.now }
    requires start { x.now.start ≤ 2 ^ 46 }
    requires starts { All (λ y. y.start ≤ 2 ^ 46) near.now }
    requires reaches { AreReaches profile.now trace.now.lines nodes.now near.now reaches.now }
    requires reach { IsReach profile.now trace.now.lines nodes.now x.now reach }
    ensures { (a : Scene) (v : ℕ) → a.numbers ≡ profile.now → a.lines ≡ trace.now.lines → AreNear a.sendings x.now near.now → Contains a.sendings x.now
        → Contains nodes.now v → TunedThrough a v x.now → (IsAmong nodes.now result v ↔ HearsInScene a v x.now) }
{
    let Some(Disturbed { busy, late, mixed }) = disturbance(profile, near, reaches, x, reach.to)
    else {
        return NodeSet::EMPTY;
    };
    let lost = lost(profile, trace, nodes, near, x, mixed);
    let quiet = reach.to.except(busy);
    let clean = quiet.except(late);
    clean.except(lost)
}

/// Whether the node is one of these, and its place is in the set.
pub fn is_among(nodes: &[NodeId], places: NodeSet, node: NodeId) -> bool
    requires { AreNodes nodes.now }
    ensures { result ≡ true ↔ IsAmong nodes.now places node }
{
    match nodes.binary_search(&node) {
        Ok(place) => places.has(place as u8),
        Err(_) => false,
    }
}

/// What those that overlap x do to it, by nodes.
#[derive(Clone, Copy)]
pub struct Disturbed {
    /// They transmit themselves.
    pub busy: NodeSet,
    /// The packet of x comes to them earlier than x, or too late after it.
    pub late: NodeSet,
    /// Another packet comes to them on the channel of x.
    pub mixed: NodeSet,
}

// What the transmissions near x do to it at these nodes, which x reaches. Returns `None` if none of the nodes can receive x:
// each of them transmits itself, or the packet of x comes to it at another time.
fn disturbance(
    profile: &Profile,
    near: &[Sending],
    reaches: &[Reach],
    x: &Sending,
    to: NodeSet,
) -> Option<Disturbed>
    requires start { x.now.start ≤ 2 ^ 46 }
    requires one_each { length reaches.now ≡ length near.now }
    ensures some { IfSome result (λ d. (lines : Lines) (nodes : List ℕ) → AreReaches profile.now lines nodes near.now reaches.now
        → AreDisturbed profile.now lines nodes x.now near.now d) }
    ensures none { IfNone result ((lines : Lines) (nodes : List ℕ) (m : ℕ → Bool) → length nodes ≤ MOST_NODES
        → AreReaches profile.now lines nodes near.now reaches.now → IsMask m nodes to
        → IsMask (λ v. m v && not (list_any (transmits v x.now) near.now) && not (list_any (spoils profile.now lines v x.now) near.now)) nodes 0) }
{
    let mut busy = NodeSet::EMPTY;
    let mut late = NodeSet::EMPTY;
    let mut mixed = NodeSet::EMPTY;
    for (k, y) in near.iter().enumerate() {
        let by = disturbed_by(profile, x, y, &reaches[k]);
        busy = busy.or(by.busy);
        late = late.or(by.late);
        mixed = mixed.or(by.mixed);
        let quiet = to.except(busy);
        let left = quiet.except(late);
        if left.is_empty() {
            return None;
        }
    }
    Some(Disturbed { busy, late, mixed })
}

// What y does to x. Packets are compared last, and only if y overlaps x and comes to some node.
fn disturbed_by(profile: &Profile, x: &Sending, y: &Sending, reach: &Reach) -> Disturbed
    requires start { x.now.start ≤ 2 ^ 46 }
    ensures busy { (nodes : List ℕ) → IsMask (λ v. y.now.node == v) nodes reach.now.from → IsMask (λ v. transmits v x.now y.now) nodes result.busy }
    ensures late { (lines : Lines) (nodes : List ℕ) → IsMask (λ v. arrival profile.now lines v y.now) nodes reach.now.to
        → IsMask (λ v. spoils profile.now lines v x.now y.now) nodes result.late }
    ensures mixed { (lines : Lines) (nodes : List ℕ) → IsMask (λ v. arrival profile.now lines v y.now) nodes reach.now.to
        → IsMask (λ v. differs profile.now lines v x.now y.now) nodes result.mixed }
{
    if !overlap(x, y) {
        return Disturbed {
            busy: NodeSet::EMPTY,
            late: NodeSet::EMPTY,
            mixed: NodeSet::EMPTY,
        };
    }
    if reach.to.is_empty() {
        return Disturbed {
            busy: reach.from,
            late: NodeSet::EMPTY,
            mixed: NodeSet::EMPTY,
        };
    }
    let same = repeats(x, y);
    Disturbed {
        busy: reach.from,
        late: late_by(profile, x, y, same, reach),
        mixed: mixed_by(x, y, same, reach),
    }
}

// The nodes to which y comes, if it repeats x but doesn't come in time.
fn late_by(profile: &Profile, x: &Sending, y: &Sending, same: bool, reach: &Reach) -> NodeSet
    requires start { x.now.start ≤ 2 ^ 46 }
    requires same { same ≡ repetition x.now y.now }
    ensures { (lines : Lines) (nodes : List ℕ) → IsMask (λ v. arrival profile.now lines v y.now) nodes reach.now.to
        → IsMask (λ v. spoils profile.now lines v x.now y.now) nodes result }
{
    if is_late(profile, x, y, same) {
        reach.to
    } else {
        NodeSet::EMPTY
    }
}

// Whether y repeats x, but doesn't come in time.
fn is_late(profile: &Profile, x: &Sending, y: &Sending, same: bool) -> bool
    requires start { x.now.start ≤ 2 ^ 46 }
    requires same { same ≡ repetition x.now y.now }
    ensures { result ≡ (repetition x.now y.now && not (in_time profile.now x.now y.now)) }
{
    same && !comes_in_time(profile, x, y)
}

// The nodes to which y comes, if it has another packet than x.
fn mixed_by(x: &Sending, y: &Sending, same: bool, reach: &Reach) -> NodeSet
    requires { same ≡ repetition x.now y.now }
    ensures { (p : Numbers) (lines : Lines) (nodes : List ℕ) → IsMask (λ v. arrival p lines v y.now) nodes reach.now.to
        → IsMask (λ v. differs p lines v x.now y.now) nodes result }
{
    if is_other(x, y, same) {
        reach.to
    } else {
        NodeSet::EMPTY
    }
}

// Whether y has another packet on the channel of x while x is on the air.
fn is_other(x: &Sending, y: &Sending, same: bool) -> bool
    requires { same ≡ repetition x.now y.now }
    ensures { result ≡ (meets_on_channel x.now y.now && not (bytes_eq y.now.packet x.now.packet)) }
{
    !same && meets_on(x, y)
}

// Those of the nodes that capture no sender of the packet of x.
fn lost(
    profile: &Profile,
    trace: &Trace,
    nodes: &[NodeId],
    near: &[Sending],
    x: &Sending,
    mixed: NodeSet,
) -> NodeSet
    requires nodes { AreNodes nodes.now }
    requires start { x.now.start ≤ 2 ^ 46 }
    requires starts { All (λ y. y.start ≤ 2 ^ 46) near.now }
    ensures { (m : ℕ → Bool) → IsMask m nodes.now mixed → IsMask (λ v. m v && not (captured_by profile.now trace.now.lines v x.now near.now
        (captured trace.now.lines (frame_of_sending profile.now x.now) (slot_of_sending x.now) (counter_of_sending x.now) v))) nodes.now result }
{
    if mixed.is_empty() {
        return NodeSet::EMPTY;
    }
    let mut places = NodeSet::EMPTY;
    for (i, node) in nodes.iter().enumerate() {
        if is_lost(profile, trace, near, x, mixed, i as u8, *node) {
            places = places.with(i as u8);
        }
    }
    places
}

// Whether the node at that place is one of these, and the trace names no sender for it from which the packet of x comes.
fn is_lost(
    profile: &Profile,
    trace: &Trace,
    near: &[Sending],
    x: &Sending,
    mixed: NodeSet,
    place: u8,
    node: NodeId,
) -> bool
    requires place { place < MOST_NODES }
    requires start { x.now.start ≤ 2 ^ 46 }
    requires starts { All (λ y. y.start ≤ 2 ^ 46) near.now }
    ensures { result ≡ ((bit_at mixed place == 1) && not (captured_by profile.now trace.now.lines node x.now near.now
        (captured trace.now.lines (frame_of_sending profile.now x.now) (slot_of_sending x.now) (counter_of_sending x.now) node))) }
{
    mixed.has(place) && !is_captured(profile, trace, near, node, x)
}

// The nodes of the seal to which a link passes from the sender of y, the node at that place.
fn reached_from(profile: &Profile, trace: &Trace, y: &Sending, place: u8) -> NodeSet
    requires place { place < length trace.now.nodes }
    requires sender { slice_index trace.now.nodes place ≡ y.now.node }
    requires start { y.now.start ≤ 2 ^ 46 }
    ensures { IsMask (λ v. arrival profile.now trace.now.lines v y.now) trace.now.nodes result }
{
    let frame = (y.start / profile.frame()) as u32;
    NodeSet::of_word(trace.to_mask(frame, y.packet.slot(), y.packet.counter(), place))
}

// The nodes to which a link passes from the sender of y, whoever that is.
fn reached_by_other(profile: &Profile, trace: &Trace, nodes: &[NodeId], y: &Sending) -> NodeSet
    requires nodes { AreNodes nodes.now }
    requires start { y.now.start ≤ 2 ^ 46 }
    ensures { IsMask (λ v. arrival profile.now trace.now.lines v y.now) nodes.now result }
{
    let mut places = NodeSet::EMPTY;
    for (i, node) in nodes.iter().enumerate() {
        if arrives(profile, trace, *node, y) {
            places = places.with(i as u8);
        }
    }
    places
}
