//! A flood from step to step.

ghost use Rattle.std.specs.Prelude.{◌≡◌, ◌<◌, ◌≤◌, ◌+◌, ◌++◌, ◌∷◌, [], ℕ, Option, All, length, map, take, is_some, Some, None};
ghost use Rattle.lwb_base.specs.declared.limits.TheConstants.{MOST_NODES};
ghost use Rattle.bus_terms.specs.Flooding.{Setting, Moment, moment, beginning, next as next_moment, STEPS};
ghost use Rattle.link_trace.specs.Sealed.{Traced};
ghost use Rattle.scenario_text.specs.FloodParts.{IsSealed};
ghost use Rattle.plain_bus.specs.FloodMasks.{AreAt, AreSenders, IsMaskedFlood, SendsForInitiators, IsLone, heard_alone, station_at, station_after};
ghost use Rattle.plain_bus.specs.FloodMasks.{AddsSender, station_first, traced};

use crate::hearing::{hears, hears_alone};
use crate::reaching::reached_by;
use crate::station::{Flood, Station, Stations};
use arrayvec::ArrayVec;
use link_trace::{Links, NodeSet};
use lwb_base::NodeId;
use scenario_text::NodeLine;

// A flood has the steps 0 to 11.
const LAST_STEP: u8 = 11;

// A node after the step in which it received this, if it received something.
fn after(station: &Station, step: u8, heard: Option<NodeId>) -> Station
    requires step { step ≤ 11 }
    requires times { station.now.times ≤ step }
    ensures { result ≡ station_after step station.now heard }
{
    let first = match (station.heard, heard) {
        (None, Some(origin)) => Some((origin, step)),
        (first, _) => first,
    };
    Station {
        node: station.node,
        sends: if step < LAST_STEP { heard } else { None },
        times: station.times + u8::from(station.sends.is_some()),
        heard: first,
    }
}

impl Stations {
    fn none() -> Stations
        ensures each { result.each.items ≡ [] }
        ensures senders { result.senders ≡ 0 }
    {
        Stations {
            each: ArrayVec::new(),
            senders: NodeSet::EMPTY,
        }
    }

    // With one node more.
    fn push(&mut self, station: Station)
        requires { length self.old.each.items < MOST_NODES }
        ensures each { self.new.each.items ≡ self.old.each.items ++ station ∷ [] }
        ensures senders { AddsSender self.old.senders (length self.old.each.items) station self.new.senders }
    {
        if station.sends.is_some() {
            self.senders = self.senders.with(self.each.len() as u8);
        }
        self.each.push(station);
    }

    // All nodes after a step.
    fn next<M: Links>(&self, links: &M, flood: &Flood, step: u8) -> Stations
        requires step { step ≤ 11 }
        requires sealed { length self.now.each.items ≡ length (M.nodes links.now) }
        requires few { length (M.nodes links.now) ≤ MOST_NODES }
        requires times { All (λ x. x.times ≤ step) self.now.each.items }
        ensures at { (s : Setting) (m : Moment) → IsMaskedFlood s (traced (M.lines links.now) (M.nodes links.now)) flood.now → SendsForInitiators s m
            → AreAt m (M.nodes links.now) self.now
            → AreAt (next_moment s step m) (M.nodes links.now) result }
        ensures length { length result.each.items ≡ length (M.nodes links.now) }
        ensures times { All (λ x. x.times ≤ step + 1) result.each.items }
    {
        let mut next = Stations::none();
        for place in 0..self.each.len() as u8 {
            let heard = hears(links, flood, self, step, place);
            let station = self.each[usize::from(place)];
            next.push(after(&station, step, heard));
        }
        next
    }
}

// Takes a node that does not send past a step in which it received this origin.
fn receive(station: &mut Station, step: u8, origin: NodeId)
    requires step { step ≤ 11 }
    requires rests { station.old.sends ≡ None }
    ensures { station.new ≡ station_after step station.old (Some origin) }
{
    if step < LAST_STEP {
        station.sends = Some(origin);
    }
    if station.heard.is_none() {
        station.heard = Some((origin, step));
    }
}

// Takes a node past a step in which this origin alone is sent, and reaches these nodes.
fn pass(station: &mut Station, flood: &Flood, step: u8, place: u8, reached: NodeSet, origin: NodeId)
    requires step { step ≤ 11 }
    requires place { place < MOST_NODES }
    requires times { station.old.times ≤ step }
    ensures { station.new ≡ station_after step station.old (heard_alone flood.now reached place origin station.old) }
{
    if station.sends.is_some() {
        *station = after(station, step, None);
        return;
    }
    if let Some(origin) = hears_alone(flood, station, place, reached, origin) {
        receive(station, step, origin);
    }
}

impl Stations {
    // Takes all nodes past a step in which this origin alone is sent.
    fn pass_all<M: Links>(&mut self, links: &M, flood: &Flood, step: u8, origin: NodeId)
        requires step { step ≤ 11 }
        requires sealed { length self.old.each.items ≡ length (M.nodes links.now) }
        requires few { length (M.nodes links.now) ≤ MOST_NODES }
        requires times { All (λ x. x.times ≤ step) self.old.each.items }
        ensures at { (s : Setting) (m : Moment) → IsMaskedFlood s (traced (M.lines links.now) (M.nodes links.now)) flood.now → IsLone s origin
            → SendsForInitiators s m
            → AreAt m (M.nodes links.now) self.old → AreAt (next_moment s step m) (M.nodes links.now) self.new }
        ensures length { length self.new.each.items ≡ length (M.nodes links.now) }
        ensures times { All (λ x. x.times ≤ step + 1) self.new.each.items }
    {
        let quiet = flood.everyone.except(self.senders);
        let reached = reached_by(links, flood, step, self.senders, quiet, self.each.len());
        let mut senders = NodeSet::EMPTY;
        let mut place = 0;
        for station in self.each.iter_mut() {
            pass(station, flood, step, place, reached, origin);
            if station.sends.is_some() {
                senders = senders.with(place);
            }
            place += 1;
        }
        self.senders = senders;
    }

    /// Takes all nodes past a step. If nobody sends in it, they stay as they are. In a flood of one initiator no other origin
    /// is sent.
    pub fn go_on<M: Links>(&mut self, links: &M, flood: &Flood, step: u8)
        requires step { step ≤ 11 }
        requires sealed { length self.old.each.items ≡ length (M.nodes links.now) }
        requires few { length (M.nodes links.now) ≤ MOST_NODES }
        requires times { All (λ x. x.times ≤ step) self.old.each.items }
        ensures at { (s : Setting) (m : Moment) → IsMaskedFlood s (traced (M.lines links.now) (M.nodes links.now)) flood.now → SendsForInitiators s m
            → AreAt m (M.nodes links.now) self.old
            → AreAt (next_moment s step m) (M.nodes links.now) self.new }
        ensures length { length self.new.each.items ≡ length (M.nodes links.now) }
        ensures times { All (λ x. x.times ≤ step + 1) self.new.each.items }
    {
        if self.senders.is_empty() {
            return;
        }
        match flood.lone {
            Some(origin) => self.pass_all(links, flood, step, origin),
            None => *self = self.next(links, flood, step),
        }
    }
}

/// The flood with its initiator, if there is one alone.
pub fn with_lone(flood: &Flood, nodes: &[NodeLine]) -> Flood
    requires { length nodes.now ≤ MOST_NODES }
    ensures { (s : Setting) (t : Traced) → t.nodes ≡ map (λ n. n.node) nodes.now → IsMaskedFlood s t flood.now → IsMaskedFlood s t result }
{
    let mut flood = *flood;
    if flood.initiators.is_empty() {
        return flood;
    }
    let place = flood.initiators.lowest();
    if flood.initiators.without(place).is_empty() && usize::from(place) < nodes.len() {
        flood.lone = Some(nodes[usize::from(place)].node);
    }
    flood
}

/// All nodes at the beginning of the flood: the initiators send.
pub fn first(flood: &Flood, nodes: &[NodeLine]) -> Stations
    requires few { length nodes.now ≤ MOST_NODES }
    ensures at { (s : Setting) (t : Traced) → t.nodes ≡ map (λ n. n.node) nodes.now → IsMaskedFlood s t flood.now → AreAt (beginning s) t.nodes result }
    ensures length { length result.each.items ≡ length nodes.now }
    ensures times { All (λ x. x.times ≤ 0) result.each.items }
{
    let mut first = Stations::none();
    for (i, line) in nodes.iter().enumerate() {
        first.push(initiator(flood, i as u8, line.node));
    }
    first
}

// A node at the beginning, at this place.
fn initiator(flood: &Flood, place: u8, node: NodeId) -> Station
    requires { place < MOST_NODES }
    ensures { result ≡ station_first flood.now place node }
{
    Station {
        node,
        sends: if flood.initiators.has(place) {
            Some(node)
        } else {
            None
        },
        times: 0,
        heard: None,
    }
}

/// A flood that has ended.
#[derive(Drop)]
pub struct FloodEnd {
    /// All nodes after it.
    pub stations: Stations,
    /// Those that sent in each of its 12 steps.
    pub senders: ArrayVec<NodeSet, 12>,
}

/// The flood among all nodes, which are those that the links are sealed with.
pub fn flooded<M: Links>(links: &M, flood: &Flood, nodes: &[NodeLine]) -> FloodEnd
    requires sealed { IsSealed (traced (M.lines links.now) (M.nodes links.now)) nodes.now }
    requires few { length nodes.now ≤ MOST_NODES }
    ensures each { (s : Setting) → IsMaskedFlood s (traced (M.lines links.now) (M.nodes links.now)) flood.now
        → result.stations.each.items ≡ map (station_at (moment s STEPS)) (M.nodes links.now) }
    ensures senders { (s : Setting) → IsMaskedFlood s (traced (M.lines links.now) (M.nodes links.now)) flood.now
        → AreSenders s (M.nodes links.now) result.senders.items }
    ensures length { length result.stations.each.items ≡ length nodes.now }
    ensures steps { length result.senders.items ≡ STEPS }
    ensures times { All (λ x. x.times ≤ STEPS) result.stations.each.items }
{
    let flood = with_lone(flood, nodes);
    let mut now = first(&flood, nodes);
    let mut senders = ArrayVec::new();
    for step in 0..12 {
        senders.push(now.senders);
        now.go_on(links, &flood, step);
    }
    FloodEnd {
        stations: now,
        senders,
    }
}
