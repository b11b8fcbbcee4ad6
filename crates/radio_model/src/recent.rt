//! The nodes whose transmissions can still matter.

ghost use Rattle.std.specs.Prelude.{◌≡◌, ◌<◌, true, false};
ghost use Rattle.lwb_base.specs.declared.limits.TheConstants.{MOST_NODES};
ghost use Rattle.radio_model.specs.Recent.{no_recent, is_joined, is_close_by, is_of, busy_with, IsRecentAfter};

use crate::mark::Origin;
use link_trace::NodeSet;

/// The nodes whose transmissions may overlap one that still runs, by their places, and when all that was sent is over. What a node
/// that is not among them sent was over before `since`, and before any that runs began. Where each of them has sent but once since
/// then, and all of them packets of one origin, that is known too, with the tick at which the newest began. The newest transmission
/// of none of them ends before `soonest`.
#[derive(Clone, Copy)]
pub struct Recent {
    pub places: NodeSet,
    pub latest: u64,
    pub since: u64,
    pub newest: u64,
    pub soonest: u64,
    pub origin: Option<Origin>,
}

impl Recent {
    /// Nothing was sent.
    pub(crate) fn none() -> Recent
        ensures { result ≡ no_recent }
    {
        Recent {
            places: NodeSet::EMPTY,
            latest: 0,
            since: 0,
            newest: 0,
            soonest: 0,
            origin: None,
        }
    }

    /// Another transmission may begin at that place, of a packet with that origin.
    pub(crate) fn next(
        self,
        starts: bool,
        place: u8,
        start: u64,
        end: u64,
        origin: Origin,
    ) -> Recent
        requires { place < MOST_NODES }
        ensures starts { starts ≡ true → IsRecentAfter place start end origin self result }
        ensures stays { starts ≡ false → result ≡ self }
    {
        if starts {
            self.with(place, start, end, origin)
        } else {
            self
        }
    }

    // Where all others were over before, only this one can matter from now on.
    fn with(self, place: u8, start: u64, end: u64, origin: Origin) -> Recent
        requires { place < MOST_NODES }
        ensures { IsRecentAfter place start end origin self result }
    {
        if self.latest < start {
            return Recent {
                places: NodeSet::EMPTY.with(place),
                latest: self.latest.max(end),
                since: start,
                newest: start,
                soonest: end,
                origin: Some(origin),
            };
        }
        Recent {
            places: self.places.with(place),
            latest: self.latest.max(end),
            since: self.since,
            newest: start,
            soonest: self.soonest.min(end),
            origin: if self.is_joined(place, origin) {
                self.origin
            } else {
                None
            },
        }
    }

    // Whether that place is a new one, and the origin is that of all others.
    fn is_joined(&self, place: u8, origin: Origin) -> bool
        requires { place < MOST_NODES }
        ensures { result ≡ is_joined self.now place origin }
    {
        !self.places.has(place) && is_of(self.origin, origin)
    }

    /// All of them, if each has a transmission that overlaps one with these times by what is known, else none.
    pub(crate) fn busy(&self, start: u64, end: u64) -> NodeSet
        ensures { result ≡ busy_with self.now start end }
    {
        if start < self.soonest && self.newest < end {
            self.places
        } else {
            NodeSet::EMPTY
        }
    }

    /// Whether all of them have sent packets of that origin alone, from the tick `opens` on and not after `latest`.
    pub(crate) fn is_close(&self, origin: Origin, opens: u64, latest: u64) -> bool
        ensures { result ≡ is_close_by self.now origin opens latest }
    {
        is_of(self.origin, origin) && opens <= self.since && self.newest <= latest
    }
}

// Whether there is an origin, and it is the other one.
fn is_of(one: Option<Origin>, other: Origin) -> bool
    ensures { result ≡ is_of one other }
{
    match one {
        Some(one) => one.is_same(other),
        None => false,
    }
}
