//! What a device orders of its radio in one event.

ghost use Rattle.std.specs.Prelude.{◌≡◌, ◌≤◌, ◌∷◌, [], length, slice_get, option_map, option_copied, is_some, Some, None, true};
ghost use Rattle.lwb_base.specs.Orders.{Gives};
ghost use Rattle.lwb_base.specs.declared.order.Order.{Order as OrderOf};
ghost use Rattle.air_log.specs.EventOrders.{no_orders, order_of, order_with};

use lwb_base::{Packet, Radio, Rank};
use std::marker::Model;

// An order whose packet is elsewhere.
#[derive(Clone, Copy)]
pub(crate) enum OrderRef<'a> {
    Listen(Rank),
    Off,
    SendAt(u64, &'a Packet),
    Alarm(u64),
}

// An order but for its packet.
#[derive(Clone, Copy)]
enum Kept {
    Listen(Rank),
    Off,
    SendAt(u64),
    Alarm(u64),
}

// A place for an order. A packet is long, so that of a SendAt is alone, and the other orders leave it alone.
// Contracts see the order that is kept there, if one is.
#[derive(Drop)]
struct Place {
    kept: Option<Kept>,
    packet: Option<Packet>,
}

impl Model for Place {
    ghost use Rattle.std.specs.declared.option.Option.{Option};
    ghost use Rattle.lwb_base.specs.declared.order.Order.{Order};
    ghost use Rattle.air_log.specs.EventOrders.{order_with};

    ghost Value = { Option Order };

    ghost view = { λ p. order_with p.kept p.packet };
}

impl Place {
    fn empty() -> Place
        ensures { result ≡ None }
    {
        Place {
            kept: None,
            packet: None,
        }
    }

    // No order is kept here. A packet that no order names may stay, since to blank it takes long.
    #[inline]
    fn clear(&mut self)
        ensures { self.new ≡ None }
    {
        self.kept = None;
    }

    #[inline]
    fn order(&self) -> Option<OrderRef<'_>>
        ensures { option_map order_of result ≡ self.now }
    {
        match self.kept? {
            Kept::Listen(rank) => Some(OrderRef::Listen(rank)),
            Kept::Off => Some(OrderRef::Off),
            Kept::SendAt(local) => {
                let packet = self.packet.as_ref()?;
                Some(OrderRef::SendAt(local, packet))
            }
            Kept::Alarm(local) => Some(OrderRef::Alarm(local)),
        }
    }

    // With the packet of a SendAt. What was here goes.
    #[inline]
    fn fill(&mut self, kept: Kept, packet: Option<&Packet>)
        ensures { (order : OrderOf) → order_with (Some kept) (option_copied packet.entry) ≡ Some order → self.new ≡ Some order }
    {
        self.kept = Some(kept);
        if let Some(packet) = packet {
            put(&mut self.packet, packet);
        }
    }
}

// A copy of the packet goes there. It is alone, since the room for it is only to be made ready where one comes.
fn put(there: &mut Option<Packet>, packet: &Packet)
    ensures { there.new ≡ Some packet.now }
{
    *there = Some(packet.copy());
}

/// A radio that keeps the orders of one event, at most 4. Contracts see the list of those it keeps, and how many more it takes.
#[derive(Drop)]
pub struct EventRadio {
    first: Place,
    second: Place,
    third: Place,
    fourth: Place,
    // How many of them are filled.
    count: u8,
}

impl Model for EventRadio {
    ghost use Rattle.lwb_base.specs.Orders.{Told};
    ghost use Rattle.std.specs.Prelude.{◌≡◌, ◌+◌};
    ghost use Rattle.air_log.specs.EventOrders.{kept_in, room_in, IsFilled};

    ghost Value = { Told };

    ghost view = { λ r. record { given = kept_in r.first r.second r.third r.fourth; room = room_in r.first r.second r.third r.fourth } };

    ghost invariant = { λ r. IsFilled r.first r.second r.third r.fourth × (r.count + room_in r.first r.second r.third r.fourth ≡ 4) };
}

impl EventRadio {
    /// It keeps no orders.
    pub fn new() -> EventRadio
        ensures { result ≡ no_orders }
    {
        EventRadio {
            first: Place::empty(),
            second: Place::empty(),
            third: Place::empty(),
            fourth: Place::empty(),
            count: 0,
        }
    }

    /// It keeps no orders any more.
    pub fn clear(&mut self)
        ensures { self.new ≡ no_orders }
    {
        self.first.clear();
        self.second.clear();
        self.third.clear();
        self.fourth.clear();
        self.count = 0;
    }

    // The order at that place, counted from 0. None comes if and only if it keeps no more than this many. Its callers name the
    // place, so that nothing is left of the choice between places.
    #[inline(always)]
    pub(crate) fn at(&self, place: usize) -> Option<OrderRef<'_>>
        ensures order { option_map order_of result ≡ slice_get self.now.given place }
        ensures few { length self.now.given ≤ 4 }
    {
        match place {
            0 => self.first.order(),
            1 => self.second.order(),
            2 => self.third.order(),
            3 => self.fourth.order(),
            _ => None,
        }
    }

    // One more order, after all others, with the packet of a SendAt.
    #[inline]
    #[tactic(auto, using(crate::proofs::FilledPlaces::first_filled))]
    fn keep(&mut self, kept: Kept, packet: Option<&Packet>)
        requires room { 1 ≤ self.old.room }
        requires order { is_some (order_with (Some kept) (option_copied packet)) ≡ true }
        ensures { (order : OrderOf) → order_with (Some kept) (option_copied packet.entry) ≡ Some order → Gives self.old self.new (order ∷ []) }
    {
        match self.count {
            0 => self.first.fill(kept, packet),
            1 => self.second.fill(kept, packet),
            2 => self.third.fill(kept, packet),
            _ => self.fourth.fill(kept, packet),
        }
        self.count += 1;
    }
}

impl Radio for EventRadio {
    ghost told = { λ r. r };

    fn listen(&mut self, rank: Rank) {
        self.keep(Kept::Listen(rank), None);
    }

    fn off(&mut self) {
        self.keep(Kept::Off, None);
    }

    fn send_at(&mut self, local: u64, packet: &Packet) {
        self.keep(Kept::SendAt(local), Some(packet));
    }

    fn alarm(&mut self, local: u64) {
        self.keep(Kept::Alarm(local), None);
    }
}
