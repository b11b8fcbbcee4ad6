//! The world of a flood, and what changes in it.

ghost use Rattle.std.specs.Prelude.{◌≡◌, ◌<◌, ◌≤◌, ◌^◌, OnOk, IfSome, IfNone, All, Contains, length, map, slice_index_or, Some, None, true, if◌then◌else◌};
ghost use Rattle.lwb_base.specs.Profile.{one};
ghost use Rattle.radio_model.specs.declared.sending.Sending.{Sending};
ghost use Rattle.radio_model.specs.Hearing.{Scene};
ghost use Rattle.radio_model.specs.Holding.{Holds};
ghost use Rattle.radio_model.specs.Stations.{IsTime, Ends, nodes_of, sending_of_station, station_of};
ghost use Rattle.air_log.specs.FloodLaw.{sending_at};
ghost use Rattle.lwb_flood.specs.FloodWorlds.{World, node_of_member, moment_of, ActsNext, world_after_start, gone, world_after_reception, sooner as sooner_of};
ghost use Rattle.lwb_flood.specs.FloodWorlds.{moment_comes_before as comes_before_of, heard_by_all, readings_of_node, Ended, CanStep, WorldSteps};
ghost use Rattle.lwb_flood.specs.FloodWorlds.{world_closed_at, closed_all};
ghost use Rattle.air_log.specs.Entries.{heard_entry as heard_entry_of};
ghost use Rattle.lwb_flood.specs.declared.member.Member.{Member};
ghost use Rattle.glossy_relay.specs.declared.flood.After.TheVariants.{More};

use crate::flood_nodes::{end_own, hear_at, place_of, set_act};
use crate::member::{Act, Member, copy_of_act, is_off};
use air_log::{Air, Entry, HeardEntry, TunedEntry};
use glossy_relay::After;
use link_trace::Trace;
use lwb_base::{Memory, NodeId, Packet, Profile, Rank};
use radio_model::sending::Sending;
use radio_model::{Hearers, Medium};
use std::marker::Model;
use tick_clock::DriftClock;

// The true tick at which the nodes tune in.
const OPENING: u64 = 1_344_000_000;

// The true tick at which the nodes go off that have not sent as often as they may.
const CLOSING: u64 = 1_346_096_000;

// One flood as it runs: the medium, the nodes by ascending ids, and the log.
#[derive(Drop)]
pub(crate) struct FloodWorld {
    pub(crate) medium: Medium,
    pub(crate) members: Vec<Member>,
    pub(crate) air: Air,
}

impl Model for FloodWorld {
    ghost use Rattle.lwb_flood.specs.FloodWorlds.{World, IsShape};

    ghost Value = { World };

    ghost view = { λ w. record { medium = w.medium; members = w.members.items; air = w.air } };

    ghost invariant = { λ w. IsShape (record { medium = w.medium; members = w.members.items; air = w.air }) };
}

impl FloodWorld {
    // The place of the node that is the next to do something, or of one of them. None if and only if none has anything to do.
    pub(crate) fn next(&self) -> Option<usize>
        ensures none { IfNone result (All (λ m. moment_of m.act ≡ None) self.now.members) }
        ensures some { IfSome result (λ i. (i < length self.now.members) × ((d : Member) → ActsNext self.now.members (slice_index_or self.now.members i d))) }
    {
        let mut next = None;
        for (i, member) in self.members.iter().enumerate() {
            next = sooner(next, i, &member.act);
        }
        match next {
            Some((place, _, _)) => Some(place),
            None => None,
        }
    }

    // The node at that place does the next thing that it is about to do.
    pub(crate) fn step<C: DriftClock>(
        &mut self,
        trace: &Trace,
        clocks: &[C],
        place: usize,
    ) -> Result<(), Memory>
        requires place { place < length self.old.members }
        requires seal { trace.now.nodes ≡ nodes_of self.old.medium }
        requires clocks { length clocks.now ≡ length self.old.members }
        requires can { (d : Member) → CanStep trace.now.lines self.old (slice_index_or self.old.members place d) (slice_index_or self.old.members place d).act }
        ensures { (d : Member) → OnOk result
            (WorldSteps trace.now.lines (readings_of_node C.readings clocks.now (map node_of_member self.old.members)) self.old self.new
            (slice_index_or self.old.members place d) (slice_index_or self.old.members place d).act) }
    {
        let node = self.members[place].node;
        match copy_of_act(&self.members[place].act) {
            Act::Waits(start, packet) => self.begin(node, start, packet),
            Act::Sends(x) => self.end(trace, clocks, x),
            Act::Listens | Act::Off => Ok(()),
        }
    }

    // Those that are still tuned in go off.
    pub(crate) fn close(&mut self) -> Result<(), Memory>
        requires { IsTime self.old.medium 1346096000 }
        ensures { OnOk result (self.new ≡ closed_all (map node_of_member self.old.members) self.old) }
    {
        for place in 0..self.members.as_slice().len() {
            self.close_one(place)?;
        }
        Ok(())
    }

    fn close_one(&mut self, place: usize) -> Result<(), Memory>
        requires place { place < length self.old.members }
        requires time { IsTime self.old.medium 1346096000 }
        ensures { (d : Member) → OnOk result (self.new ≡ world_closed_at (slice_index_or self.old.members place d).node self.old) }
    {
        let node = self.members[place].node;
        if is_off(&self.members[place].act) {
            return Ok(());
        }
        self.leave(node, CLOSING)
    }

    pub(crate) fn into_air(self) -> Air
        ensures { result ≡ self.air }
    {
        self.air
    }

    // The node's ordered transmission starts.
    pub(crate) fn begin(&mut self, node: NodeId, start: u64, packet: Packet) -> Result<(), Memory>
        requires node { Contains (nodes_of self.old.medium) node }
        requires time { IsTime self.old.medium start }
        ensures { OnOk result (self.new ≡ world_after_start (sending_at node start packet) self.old) }
    {
        let x = Sending {
            rank: channel(),
            node,
            start,
            end: start + Profile::one().airtime(packet.length()),
            packet,
        };
        self.air.push(Entry::Sent(x.copy()))?;
        self.medium.start(node, start, &x.packet);
        set_act(&mut self.members, node, Act::Sends(x));
        Ok(())
    }

    // The node goes off.
    pub(crate) fn leave(&mut self, node: NodeId, t: u64) -> Result<(), Memory>
        requires node { Contains (nodes_of self.old.medium) node }
        requires time { IsTime self.old.medium t }
        ensures { OnOk result (self.new ≡ gone node t self.old) }
    {
        let entry = TunedEntry {
            rank: channel(),
            node,
            start: OPENING,
            end: t,
        };
        self.air.push(Entry::Tuned(entry))?;
        self.medium.tune(node, None, t);
        set_act(&mut self.members, node, Act::Off);
        Ok(())
    }

    // The transmission ends: at its node, which goes off if it was the last, and then at those who receive it.
    pub(crate) fn end<C: DriftClock>(
        &mut self,
        trace: &Trace,
        clocks: &[C],
        x: Sending,
    ) -> Result<(), Memory>
        requires node { Contains (nodes_of self.old.medium) x.node }
        requires time { IsTime self.old.medium x.end }
        requires ends { Ends self.old.medium x.node x.end }
        requires sends { sending_of_station (station_of self.old.medium x.node) ≡ Some x }
        requires held { (a : Scene) × Holds self.old.medium a × (a.lines ≡ trace.now.lines) }
        requires seal { trace.now.nodes ≡ nodes_of self.old.medium }
        requires waits { All (λ m. m.node ≡ x.node → m.flood.waiting ≡ true) self.old.members }
        requires early { x.end ≤ 2 ^ 45 }
        requires clocks { length clocks.now ≡ length self.old.members }
        ensures { OnOk result (Ended trace.now.lines (readings_of_node C.readings clocks.now (map node_of_member self.old.members)) x self.old self.new) }
    {
        let hearers = self.medium.end(trace, x.node, x.end);
        match end_own(&mut self.members, x.node) {
            After::More => self.hear_all(clocks, &hearers, &x),
            After::Off => {
                self.leave(x.node, x.end)?;
                self.hear_all(clocks, &hearers, &x)
            }
        }
    }

    // These nodes receive the transmission that has ended.
    fn hear_all<C: DriftClock>(
        &mut self,
        clocks: &[C],
        hearers: &Hearers,
        x: &Sending,
    ) -> Result<(), Memory>
        requires nodes { All (λ p. Contains (nodes_of self.old.medium) p.0) hearers.now }
        requires early { x.now.end ≤ 2 ^ 45 }
        requires clocks { length clocks.now ≡ length self.old.members }
        ensures { OnOk result
            (self.new ≡ heard_by_all (readings_of_node C.readings clocks.now (map node_of_member self.old.members)) x.now (map (λ p. p.0) hearers.now)
            self.old) }
    {
        for i in 0..usize::from(hearers.count()) {
            let (node, _) = hearers.at(i).unwrap();
            let place = place_of(&self.members, node);
            self.hear(place, &clocks[place], x)?;
        }
        Ok(())
    }

    // The node at that place receives it.
    fn hear<C: DriftClock>(&mut self, place: usize, clock: &C, x: &Sending) -> Result<(), Memory>
        requires place { place < length self.old.members }
        requires early { x.now.end ≤ 2 ^ 45 }
        ensures { (d : Member) → OnOk result
            (self.new ≡ world_after_reception (C.readings clock.now) x.now (slice_index_or self.old.members place d).node self.old) }
    {
        let node = self.members[place].node;
        self.air.push(heard_entry(node, x))?;
        hear_at(&mut self.members, place, clock, x);
        Ok(())
    }
}

// When a node does something next, and whether it starts a transmission then (`true`) or ends one.
fn moment(act: &Act) -> Option<(u64, bool)>
    ensures { result ≡ moment_of act.now }
{
    match act {
        Act::Waits(t, _) => Some((*t, true)),
        Act::Sends(x) => Some((x.end, false)),
        Act::Listens | Act::Off => None,
    }
}

// The earlier of the first so far, with its place, and what the node at place i does next.
fn sooner(next: Option<(usize, u64, bool)>, i: usize, act: &Act) -> Option<(usize, u64, bool)>
    ensures { result ≡ sooner_of next i (moment_of act.now) }
{
    match (moment(act), next) {
        (None, _) => next,
        (Some((t, starts)), None) => Some((i, t, starts)),
        (Some((t, starts)), Some((_, u, waits))) => {
            if comes_before(t, starts, u, waits) {
                Some((i, t, starts))
            } else {
                next
            }
        }
    }
}

// At one tick transmissions end before others start.
fn comes_before(t: u64, starts: bool, u: u64, waits: bool) -> bool
    ensures { result ≡ comes_before_of (t, starts) (u, waits) }
{
    t < u || (t == u && !starts && waits)
}

// All is on the channel of rank 0.
pub(crate) fn channel() -> Rank
    ensures { result ≡ 0 }
{
    Rank::new(0).unwrap()
}

fn heard_entry(node: NodeId, x: &Sending) -> Entry
    ensures { result ≡ heard_entry_of node x.now }
{
    Entry::Heard(HeardEntry {
        rank: x.rank,
        node,
        from: x.node,
        start: x.start,
        end: x.end,
        packet: x.packet.copy(),
    })
}
