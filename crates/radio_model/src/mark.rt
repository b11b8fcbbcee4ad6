//! The transmissions of one node in short.

ghost use Rattle.std.specs.Int.{bit_at};
ghost use Rattle.std.specs.Prelude.{ℕ, ◌≡◌, ◌≤◌, ◌<◌, ◌^◌, if◌then◌else◌, length, slice_index_or, slice_set};
ghost use Rattle.lwb_base.specs.declared.limits.TheConstants.{MOST_NODES};
ghost use Rattle.radio_model.specs.Marks.{no_mark, next_mark, next_marks, comes_close, comes_early, is_aside, is_same, comes_along, IsOrigin};
ghost use Rattle.radio_model.specs.Marks.{sends_packet as packet_sent};

use crate::sending::Sending;
use crate::station::Station;
use link_trace::NodeSet;
use lwb_base::{NodeId, Packet, Rank};

/// Where a packet on the air comes from: the first that began of those that have it and ran on, one into the next, by the place
/// of its node and its start. So transmissions that overlap and have one origin have one packet.
#[derive(Clone, Copy)]
pub struct Origin {
    pub place: u8,
    pub start: u64,
}

impl Origin {
    pub(crate) fn is_same(self, other: Origin) -> bool
        ensures { result ≡ is_same self other }
    {
        self.place == other.place && self.start == other.start
    }
}

/// The transmissions of one node in short, so that most need no look at them: the channel of the newest, which runs or ended
/// last, when it begins and ends, when those before it were over, and the origin of its packet. All numbers are 0 where there
/// was none.
#[derive(Clone, Copy)]
pub struct Mark {
    pub rank: Rank,
    pub start: u64,
    pub end: u64,
    pub before: u64,
    pub origin: Origin,
}

impl Mark {
    /// Nothing was sent.
    pub(crate) fn none() -> Mark
        ensures { result ≡ no_mark }
    {
        Mark {
            rank: Rank::new(1).unwrap(),
            start: 0,
            end: 0,
            before: 0,
            origin: Origin { place: 0, start: 0 },
        }
    }

    /// Another transmission begins.
    pub(crate) fn next(self, rank: Rank, start: u64, end: u64, origin: Origin) -> Mark
        ensures { result ≡ next_mark rank start end origin self }
    {
        Mark {
            rank,
            start,
            end,
            before: self.end,
            origin,
        }
    }

    /// Whether the mark shows that no transmission of the node overlaps one with these times: all were over at its start, or
    /// the newest begins after it and the others were over.
    pub(crate) fn is_aside(&self, start: u64, end: u64) -> bool
        ensures { result ≡ is_aside start end self.now }
    {
        self.end <= start || self.before <= start && end <= self.start
    }

    /// Whether the mark shows that what this node sends next to x, whose packet has that origin, is the packet of x, and that x
    /// comes first and in time, so that it is received as one with it.
    pub(crate) fn comes_along(&self, x: &Sending, node: NodeId, origin: Origin, delta: u64) -> bool
        requires start { x.now.start ≤ 2 ^ 46 }
        requires delta { delta ≤ 2 ^ 32 }
        ensures { result ≡ comes_along delta x.now origin node self.now }
    {
        let comes_first = x.start < self.start || x.start == self.start && x.node <= node;
        self.before <= x.start
            && self.origin.is_same(origin)
            && comes_first
            && self.start <= x.start + delta
    }

    /// Whether the mark shows that what this node sends next to x, whose packet has that origin, is the packet of x on its
    /// channel, and that it comes before x, though not before the tick `opens`.
    pub(crate) fn comes_early(&self, x: &Sending, node: NodeId, origin: Origin, opens: u64) -> bool
        ensures { result ≡ comes_early opens x.now origin node self.now }
    {
        let comes_first = self.start < x.start || self.start == x.start && node < x.node;
        self.before <= x.start
            && self.origin.is_same(origin)
            && self.rank == x.rank
            && (opens <= self.start && comes_first)
    }

    /// Whether the mark shows that what this node sends next to x, whose packet has that origin, is the packet of x, and that
    /// it begins at one of the ticks from `opens` to `latest`.
    pub(crate) fn comes_close(&self, x: &Sending, origin: Origin, opens: u64, latest: u64) -> bool
        ensures { result ≡ comes_close opens latest x.now origin self.now }
    {
        self.before <= x.start
            && self.origin.is_same(origin)
            && (opens <= self.start && self.start <= latest)
    }
}

/// The mark at that place, where another transmission may begin on the channel of a rank.
pub(crate) fn raise(
    marks: &mut Vec<Mark>,
    place: usize,
    rank: Option<Rank>,
    start: u64,
    end: u64,
    origin: Origin,
)
    requires { place < length marks.old.items }
    ensures { (d : Mark) → marks.new.items ≡ next_marks rank start end origin place marks.old.items d }
{
    if let Some(rank) = rank {
        marks[place] = marks[place].next(rank, start, end, origin);
    }
}

/// The origin of a packet whose transmission begins at t at that place: that of the same packet on the air, from one of
/// these places, or else its own.
pub(crate) fn origin_of(
    stations: &[Station],
    marks: &[Mark],
    places: NodeSet,
    place: usize,
    t: u64,
    packet: &Packet,
) -> Origin
    requires place { place < MOST_NODES }
    requires one_each { length marks.now ≡ length stations.now }
    requires within { (k : ℕ) → bit_at places k ≡ 1 → k < length stations.now }
    ensures { IsOrigin stations.now marks.now place t packet.now result }
{
    let mut rest = places;
    while !rest.is_empty() {
        let next = rest.lowest();
        rest = rest.without(next);
        let i = usize::from(next);
        if t < marks[i].end && sends_packet(&stations[i], t, packet) {
            return marks[i].origin;
        }
    }
    Origin {
        place: place as u8,
        start: t,
    }
}

// Whether the station sends that packet past t.
fn sends_packet(station: &Station, t: u64, packet: &Packet) -> bool
    ensures { result ≡ packet_sent t packet.now station.now.sending }
{
    match &station.sending {
        Some(y) => t < y.end && y.packet.bytes() == packet.bytes(),
        None => false,
    }
}
