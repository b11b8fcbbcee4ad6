//! The acknowledgements of a schedule.

ghost use Rattle.std.specs.Prelude.{◌≡◌, ◌≤◌, ◌++◌, ◌∷◌, [], length, true, if◌then◌else◌, slice_get};
ghost use Rattle.lwb_base.specs.Messages.{code_of};
ghost use Rattle.schedule_codec.specs.AckLists.{are_acks, takes_ack, may_follow};
ghost use Rattle.std.specs.Option.{option_copied};

use arrayvec::ArrayVec;
use lwb_base::NodeId;
use std::marker::Model;

/// The acknowledgement of a request, with the request's own fields.
#[derive(Clone, Copy, Debug, PartialEq, Eq)]
pub struct Ack {
    /// The node that asked.
    pub node: NodeId,
    /// The boot of the node, 1 to `MOST_BOOTS`.
    pub boot: u8,
    /// The stream of the node, 0 to 3.
    pub stream: u8,
    /// The interval granted, 1 to 120 seconds; 0 ends the stream.
    pub interval: u8,
}

impl Model for Ack {
    ghost use Rattle.lwb_base.specs.Messages.{Ask};

    ghost Value = { Ask };

    ghost view = { λ a. record { node = a.node; boot = a.boot; stream = a.stream; interval = a.interval } };

    ghost inverse = { λ a. record { node = a.node; boot = a.boot; stream = a.stream; interval = a.interval } };
}

impl Ack {
    /// The code of the stream's owner, 4 times the node plus the stream.
    fn code(&self) -> u16
        ensures { result ≡ code_of self.now }
    {
        let stream = self.stream;
        u16::from(self.node.number()) * 4 + u16::from(stream)
    }
}

// A place of the list, which holds some acknowledgement also where it is not used.
#[derive(Clone, Copy)]
pub(crate) struct Place {
    pub(crate) ack: Ack,
}

impl Default for Place {
    fn default() -> Place
        ensures { result ≡ record { node = 1; boot = 1; stream = 0; interval = 0 } }
    {
        Place {
            ack: Ack {
                node: NodeId::new(1).unwrap(),
                boot: 1,
                stream: 0,
                interval: 0,
            },
        }
    }
}

impl Model for Place {
    ghost use Rattle.lwb_base.specs.Messages.{Ask};

    ghost Value = { Ask };

    ghost view = { λ p. p.ack };

    ghost inverse = { λ a. record { ack = a } };
}

/// The acknowledgements of a schedule, at most 4 with strictly ascending owner codes. Contracts see their list.
#[derive(Drop)]
pub struct Acks {
    places: ArrayVec<Place, 4>,
}

impl Model for Acks {
    ghost use Rattle.std.specs.Prelude.{◌≡◌, List, true};
    ghost use Rattle.lwb_base.specs.Messages.{Ask};
    ghost use Rattle.schedule_codec.specs.AckLists.{are_acks};

    ghost Value = { List Ask };

    ghost view = { λ a. a.places.items };

    ghost invariant = { λ a. are_acks a.places.items ≡ true };
}

impl Acks {
    /// An empty list.
    pub fn new() -> Acks
        ensures { result ≡ [] }
    {
        Acks {
            places: ArrayVec::new(),
        }
    }

    /// Adds one at the end. Returns `false`, and nothing changes, if and only if 4 are there or its code is not above the last.
    pub fn add(&mut self, a: Ack) -> bool
        ensures answer { result ≡ takes_ack self.old a }
        ensures list { self.new ≡ (if result then self.old ++ a ∷ [] else self.old) }
    {
        if self.places.is_full() || !follows(self.places.as_slice().last(), &a) {
            return false;
        }
        self.places.push(Place { ack: a });
        true
    }

    /// The acknowledgement at this place, counted from 0. Returns `None` if and only if it is not below the count.
    pub fn at(&self, i: usize) -> Option<Ack>
        ensures { result ≡ slice_get self.now i }
    {
        let place = self.places.as_slice().get(i)?;
        Some(place.ack)
    }

    /// How many there are.
    pub fn count(&self) -> u8
        ensures value { result ≡ length self.now }
        ensures acks { are_acks self.now ≡ true }
    {
        self.places.len() as u8
    }

    // The places that are used, in order.
    pub(crate) fn places(&self) -> &[Place]
        ensures value { result.now ≡ self.now }
        ensures acks { are_acks self.now ≡ true }
    {
        self.places.as_slice()
    }
}

// Whether this one may be after the last.
fn follows(last: Option<&Place>, a: &Ack) -> bool
    ensures { result ≡ may_follow (option_copied last.entry) a.now }
{
    match last {
        Some(last) => last.ack.code() < a.code(),
        None => true,
    }
}
