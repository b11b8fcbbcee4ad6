//! A radio that keeps the orders that it was given.

ghost use Rattle.std.specs.Prelude.{◌≡◌, ◌≤◌, ◌+◌, ◌-◌, ◌++◌, ◌∷◌, [], length, drop, slice_get};
ghost use Rattle.lwb_base.specs.declared.order.Order.TheVariants.{Listen, Off, SendAt, Alarm};

use crate::{Order, Packet, Radio, Rank};
use arrayvec::ArrayVec;
use std::marker::Model;

/// A radio that keeps the orders given to it, at most 8 at a time. Contracts see the list of those it keeps.
#[derive(Drop)]
pub struct RecordingRadio {
    orders: ArrayVec<Order, 8>,
}

impl Model for RecordingRadio {
    ghost use Rattle.std.specs.Prelude.{List, ◌≤◌, length};
    ghost use Rattle.lwb_base.specs.declared.order.Order.{Order};

    ghost Value = { List Order };

    ghost view = { λ r. r.orders.items };

    ghost invariant = { λ r. length r.orders.items ≤ 8 };

    ghost inverse = { λ xs. record { orders = record { items = xs } } };
}

impl RecordingRadio {
    /// One that keeps no orders.
    pub fn new() -> RecordingRadio
        ensures { result ≡ [] }
    {
        RecordingRadio {
            orders: ArrayVec::new(),
        }
    }

    /// Gives the first order back. Returns `None` if and only if it keeps none.
    pub fn take(&mut self) -> Option<Order>
        ensures first { result ≡ slice_get self.old 0 }
        ensures rest { self.new ≡ drop 1 self.old }
    {
        self.orders.pop_at(0)
    }
}

impl Radio for RecordingRadio {
    ghost told = { λ r. record { given = r; room = 8 - length r } };

    fn listen(&mut self, rank: Rank) {
        self.orders.push(Order::Listen(rank));
    }

    fn off(&mut self) {
        self.orders.push(Order::Off);
    }

    fn send_at(&mut self, local: u64, packet: &Packet) {
        self.orders.push(Order::SendAt(local, packet.copy()));
    }

    fn alarm(&mut self, local: u64) {
        self.orders.push(Order::Alarm(local));
    }
}
