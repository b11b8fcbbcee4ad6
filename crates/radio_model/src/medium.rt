//! The radio medium that all nodes share.

ghost use Rattle.std.specs.Prelude.{◌≡◌, ◌≤◌, ◌<◌, ◌^◌, ℕ, IfOk, IfSome, All, AllPairs, Contains, ◌↔◌, length, List, slice_index, Some, option_copied};
ghost use Rattle.lwb_base.specs.declared.limits.TheConstants.{MOST_NODES, PLACES_BY_ID};
ghost use Rattle.link_trace.specs.Masks.{AreNodes};
ghost use Rattle.link_trace.specs.Passes.{Lines};
ghost use Rattle.radio_model.specs.Hearing.{Scene, HearsInScene};
ghost use Rattle.radio_model.specs.Holding.{Holds, nothing_yet, after_tuning, after_starting, as_it_stands};
ghost use Rattle.radio_model.specs.Stations.{MediumState, nodes_of, station_of, can_send, sending_of_station, station_after_tuning};
ghost use Rattle.radio_model.specs.Stations.{station_after_start, station_after_end, tuning_at, over_after, medium_after_change, first_state};
ghost use Rattle.radio_model.specs.Stations.{stations_from, IsTime, IsMedium, Ends};
ghost use Rattle.radio_model.specs.Meetings.{hearers_to};
ghost use Rattle.radio_model.specs.Marks.{ArePlaces};
ghost use Rattle.radio_model.specs.declared.sending.Sending.{Sending};

use crate::ending::Ending;
use crate::hearers::Hearers;
use crate::listeners::listeners;
use crate::mark::{Mark, origin_of, raise};
use crate::recent::Recent;
use crate::rivals::{Key, frame_start};
use crate::sending::Sending;
use crate::station::Station;
use crate::tuning::{Past, RadioTuning};
use link_trace::Links;
use lwb_base::{Memory, NodeId, PLACES_BY_ID, Packet, Profile, Rank};
use std::alloc::Global;
use std::marker::Model;

/// The radio medium that all nodes share. It keeps, for each node, what it is tuned to and sends now, the tuning that ended
/// last, and the last ended transmissions, which are all that can overlap one that still runs. Contracts see that.
///
/// Times are true ticks of 1/64 µs, at most 2^46. They never fall, and none is after the end of a transmission that runs.
#[derive(Drop)]
pub struct Medium {
    profile: Profile,
    // The greatest displacement at which equal transmissions are received as one, by the profile.
    delta: u64,
    time: u64,
    stations: Vec<Station>,
    // By ids, the places of the nodes.
    places: Vec<u8>,
    // By places, the transmissions of the nodes in short.
    marks: Vec<Mark>,
    // The nodes that may overlap a transmission that still runs.
    recent: Recent,
}

impl Model for Medium {
    ghost use Rattle.std.specs.Prelude.{◌≡◌, ◌≤◌, ◌^◌, All};
    ghost use Rattle.radio_model.specs.Stations.{MediumState, IsMedium, nodes_of};
    ghost use Rattle.radio_model.specs.Marks.{AreAlike, AreMarks, ArePlaces};
    ghost use Rattle.radio_model.specs.Recent.{AreRecent};
    ghost use Rattle.radio_model.specs.Ages.{IsAged};

    ghost Value = { MediumState };

    ghost view = { λ m. record { numbers = m.profile; now = m.time; stations = m.stations.items } };

    ghost invariant = { λ m. IsMedium (record { numbers = m.profile; now = m.time; stations = m.stations.items })
        × ArePlaces (nodes_of (record { numbers = m.profile; now = m.time; stations = m.stations.items })) m.places.items
        × AreMarks m.stations.items m.marks.items
        × AreAlike m.time m.stations.items m.marks.items
        × ((m.delta ≡ m.profile.delta) × (m.delta ≤ 2 ^ 32))
        × All (λ st. IsAged m.time st.ended.items) m.stations.items
        × AreRecent m.time m.stations.items m.marks.items m.recent };
}

impl Medium {
    /// A medium of these nodes, 1 to 64 ascending ids, that are tuned to nothing and send nothing. No later call takes
    /// memory.
    pub fn new(alloc: Global, profile: &Profile, nodes: &[NodeId]) -> Result<Medium, Memory>
        requires { AreNodes nodes.now }
        ensures state { IfOk result (λ m. m ≡ first_state profile.now nodes.now) }
        ensures holds { IfOk result (λ m. (lines : Lines) → Holds m (nothing_yet profile.now lines)) }
    {
        let delta = profile.delta();
        let stations = new_stations(alloc, nodes)?;
        let places = places_of(alloc, nodes)?;
        let marks = vec![in alloc; Mark::none(); nodes.len()]?;
        Ok(Medium {
            profile: *profile,
            delta,
            time: 0,
            stations,
            places,
            marks,
            recent: Recent::none(),
        })
    }

    /// The node is tuned to that channel from t on, or to nothing. Its tuning that goes on no more by this is given back
    /// (`RadioTuning::tune`).
    #[inline(always)]
    pub fn tune(&mut self, node: NodeId, rank: Option<Rank>, t: u64) -> Option<Past>
        requires node { Contains (nodes_of self.old) node }
        requires time { IsTime self.old t }
        ensures over { result ≡ over_after rank t (tuning_at (station_of self.old node)) }
        ensures state { self.new ≡ medium_after_change t node (station_after_tuning rank t) self.old }
        ensures holds { (a : Scene) → Holds self.old a → Holds self.new (after_tuning self.old node rank t a) }
    {
        let place = place_of(&self.places, node);
        let station = &mut self.stations[place];
        let over = station.tuning.tune(rank, t);
        self.time = t;
        over
    }

    /// What the node is tuned to.
    pub fn tuning(&self, node: NodeId) -> RadioTuning
        requires { Contains (nodes_of self.now) node }
        ensures { result ≡ tuning_at (station_of self.now node) }
    {
        let place = place_of(&self.places, node);
        let station = &self.stations[place];
        station.tuning
    }

    /// The node begins to send at t, for the packet's airtime. Returns `false` if and only if it is not tuned or already sends,
    /// and then nothing changes but the time.
    #[inline(always)]
    pub fn start(&mut self, node: NodeId, t: u64, packet: &Packet) -> bool
        requires node { Contains (nodes_of self.old) node }
        requires time { IsTime self.old t }
        ensures value { result ≡ can_send (station_of self.old node) }
        ensures state { self.new ≡ medium_after_change t node (station_after_start self.old.numbers t packet.now) self.old }
        ensures holds { (a : Scene) → Holds self.old a
            → Holds self.new (after_starting self.old node t packet.now a) }
    {
        let place = place_of(&self.places, node);
        let end = t + self.profile.airtime(packet.length());
        let origin = origin_of(
            &self.stations,
            &self.marks,
            self.recent.places,
            place,
            t,
            packet,
        );
        let station = &mut self.stations[place];
        let rank = station.start(t, end, packet);
        raise(&mut self.marks, place, rank, t, end, origin);
        let starts = rank.is_some();
        self.recent = self.recent.next(starts, place as u8, t, end, origin);
        self.time = t;
        starts
    }

    /// What the node sends. Returns `None` if and only if it sends nothing.
    pub fn sending(&self, node: NodeId) -> Option<&Sending>
        requires { Contains (nodes_of self.now) node }
        ensures { option_copied result ≡ sending_of_station (station_of self.now node) }
    {
        let place = place_of(&self.places, node);
        let station = &self.stations[place];
        station.sending.as_ref()
    }

    /// The node's transmission ends at t: who receives it now, including a node whose tuning ends at this very tick. Which
    /// links pass is asked of `links`, whose seal has the nodes of the medium.
    pub fn end<M: Links>(&mut self, links: &M, node: NodeId, t: u64) -> Hearers
        requires node { Contains (nodes_of self.old) node }
        requires time { IsTime self.old t }
        requires sends { Ends self.old node t }
        requires seal { M.nodes links.now ≡ nodes_of self.old }
        ensures state { self.new ≡ medium_after_change t node station_after_end self.old }
        ensures holds { (a : Scene) → Holds self.old a → Holds self.new a }
        ensures hearers { (a : Scene) (x : Sending) → Holds self.old a → a.lines ≡ M.lines links.now
            → sending_of_station (station_of self.old node) ≡ Some x → (v : ℕ) → Contains result (v, node)
            ↔ (Contains (nodes_of self.old) v × HearsInScene (as_it_stands self.old t a) v x) }
        ensures sender { All (λ p. p.1 ≡ node) result }
        ensures ascending { AllPairs (λ p q. p.0 < q.0) result }
    {
        let hearers = self.hearers(links, node, t);
        let place = place_of(&self.places, node);
        let station = &mut self.stations[place];
        station.finish();
        self.time = t;
        hearers
    }

    // Who receives the node's transmission, which ends at t, as it is worked out from what is kept.
    fn hearers<M: Links>(&self, links: &M, node: NodeId, t: u64) -> Hearers
        requires node { Contains (nodes_of self.now) node }
        requires small { t ≤ 2 ^ 46 }
        requires later { self.now.now ≤ t }
        requires sends { Ends self.now node t }
        requires seal { M.nodes links.now ≡ nodes_of self.now }
        ensures list { IfSome (sending_of_station (station_of self.now node)) (λ x. result
            ≡ hearers_to self.now.numbers (M.lines links.now) node x self.now.stations) }
        ensures kept { IsMedium self.now }
    {
        let place = place_of(&self.places, node);
        let from = &self.stations[place];
        let Some(x) = &from.sending else {
            unreachable!()
        };
        let origin = self.marks[place].origin;
        let opens = frame_start(&self.profile, x.start);
        let ending = Ending {
            x,
            key: Key::of(&self.profile, x),
            origin,
            opens,
            places: self.recent.places,
            busy: self.recent.busy(x.start, x.end),
            close: self.recent.is_close(origin, opens, x.start + self.delta),
            stations: &self.stations,
            marks: &self.marks,
            profile: &self.profile,
            delta: self.delta,
        };
        listeners(links, &ending, from)
    }
}

fn new_stations(alloc: Global, nodes: &[NodeId]) -> Result<Vec<Station>, Memory>
    requires { length nodes.now ≤ MOST_NODES }
    ensures { IfOk result (λ s. s.items ≡ stations_from 0 nodes.now) }
{
    let mut stations = Vec::new(alloc);
    for (i, node) in nodes.iter().enumerate() {
        let station = Station::new(alloc, *node, i as u8)?;
        stations.push(station)?;
    }
    Ok(stations)
}

// By ids, the places of the nodes.
fn places_of(alloc: Global, nodes: &[NodeId]) -> Result<Vec<u8>, Memory>
    requires { AreNodes nodes.now }
    ensures { IfOk result (λ p. ArePlaces nodes.now p.items) }
{
    let mut places = vec![in alloc; 0u8; PLACES_BY_ID]?;
    for (i, node) in nodes.iter().enumerate() {
        places[usize::from(node.number())] = i as u8;
    }
    Ok(places)
}

// The place of a node, by the list of places.
fn place_of(places: &[u8], node: NodeId) -> usize
    requires { length places.now ≡ PLACES_BY_ID }
    ensures { (nodes : List ℕ) → ArePlaces nodes places.now → Contains nodes node → (result < length nodes) × (slice_index nodes result ≡ node) }
{
    usize::from(places[usize::from(node.number())])
}
