//! A sorted queue of the orders of one class.

ghost use Rattle.std.specs.Prelude.{◌≡◌, ◌<◌, ◌≤◌, ℕ, List, [], Contains, length, slice_get, slice_index_or, IfOk, true};
ghost use Rattle.event_calendar.specs.declared.placed_order.PlacedOrder.{PlacedOrder as PlacedOrderOf};
ghost use Rattle.event_calendar.specs.Waiting.{IsBefore, EntriesAreInOrder, IsAdded, IsRemoved};

use crate::placed_order::PlacedOrder;
use lwb_base::Memory;
use std::alloc::Global;
use std::collections::VecDeque;
use std::marker::Model;

/// The orders of one class, the earliest first, and at one tick by place.
#[derive(Drop)]
pub struct Queue {
    entries: VecDeque<PlacedOrder>,
}

impl Model for Queue {
    ghost use Rattle.std.specs.VecDeque.{deque_capacity};
    ghost use Rattle.event_calendar.specs.Waiting.{WaitingEntries};

    ghost Value = { WaitingEntries };

    ghost view = { λ q. record { entries = q.entries.items; room = deque_capacity q.entries } };
}

impl Queue {
    /// An empty queue with room for that many orders.
    pub fn new(alloc: Global, room: usize) -> Result<Queue, Memory>
        ensures entries { IfOk result (λ q. q.entries ≡ []) }
        ensures room { IfOk result (λ q. room ≤ q.room) }
    {
        let entries = VecDeque::with_capacity(alloc, room)?;
        Ok(Queue { entries })
    }

    /// The earliest order, if there is one.
    pub fn first(&self) -> Option<PlacedOrder>
        ensures { result ≡ slice_get self.now.entries 0 }
    {
        self.entries.front().copied()
    }

    /// Adds an order at its place in time. No memory is taken.
    #[inline(always)]
    pub fn add(&mut self, entry: PlacedOrder)
        requires room { length self.old.entries < self.old.room }
        requires order { EntriesAreInOrder self.old.entries }
        requires apart { Contains self.old.entries entry → ⊥ }
        ensures { IsAdded entry self.old self.new }
    {
        if self.comes_last(&entry) {
            self.entries.push_back_reserved(entry);
        } else {
            self.insert(entry);
        }
    }

    /// Removes an order that is in it.
    #[inline(always)]
    pub fn remove(&mut self, entry: PlacedOrder)
        requires order { EntriesAreInOrder self.old.entries }
        requires there { Contains self.old.entries entry }
        ensures { IsRemoved entry self.old self.new }
    {
        if self.comes_first(&entry) {
            self.entries.pop_front();
        } else {
            self.remove_later(entry);
        }
    }

    // Whether each order comes before that one, as a new order mostly comes last.
    #[inline(always)]
    fn comes_last(&self, entry: &PlacedOrder) -> bool
        requires { EntriesAreInOrder self.now.entries }
        ensures { result ≡ true → (k : ℕ) (d : PlacedOrderOf) → k < length self.now.entries → IsBefore (slice_index_or self.now.entries k d) entry.now }
    {
        match self.entries.back() {
            Some(last) => last.is_before(entry),
            None => true,
        }
    }

    // Whether that order is the first, as one that is removed mostly is.
    #[inline(always)]
    fn comes_first(&self, entry: &PlacedOrder) -> bool
        ensures { result ≡ true → (0 < length self.now.entries) × ((d : PlacedOrderOf) → slice_index_or self.now.entries 0 d ≡ entry.now) }
    {
        match self.entries.front() {
            Some(first) => *first == *entry,
            None => false,
        }
    }

    // Adds an order that comes before others. It stands alone, so that the usual order is added in a few instructions.
    #[inline(never)]
    fn insert(&mut self, entry: PlacedOrder)
        requires room { length self.old.entries < self.old.room }
        requires order { EntriesAreInOrder self.old.entries }
        requires apart { Contains self.old.entries entry → ⊥ }
        ensures { IsAdded entry self.old self.new }
    {
        let at = self.place_of(&entry);
        if self.entries.insert(at, entry).is_err() {
            // there is room
            unreachable!();
        }
    }

    // Removes an order that is after others.
    #[inline(never)]
    fn remove_later(&mut self, entry: PlacedOrder)
        requires order { EntriesAreInOrder self.old.entries }
        requires there { Contains self.old.entries entry }
        ensures { IsRemoved entry self.old self.new }
    {
        let at = self.index_of(&entry);
        self.entries.remove(at);
    }

    // How many orders come before that one, which are most of them.
    fn place_of(&self, entry: &PlacedOrder) -> usize
        requires order { EntriesAreInOrder self.now.entries }
        requires apart { Contains self.now.entries entry.now → ⊥ }
        ensures bound { result ≤ length self.now.entries }
        ensures before { (k : ℕ) (d : PlacedOrderOf) → k < result → IsBefore (slice_index_or self.now.entries k d) entry.now }
        ensures after { (k : ℕ) (d : PlacedOrderOf) → result ≤ k → k < length self.now.entries
            → IsBefore entry.now (slice_index_or self.now.entries k d) }
    {
        let mut at = self.entries.len();
        while at > 0 {
            if self.entries[at - 1].is_before(entry) {
                return at;
            }
            at -= 1;
        }
        0
    }

    // Where that order is.
    fn index_of(&self, entry: &PlacedOrder) -> usize
        requires there { Contains self.now.entries entry.now }
        ensures bound { result < length self.now.entries }
        ensures there { (d : PlacedOrderOf) → slice_index_or self.now.entries result d ≡ entry.now }
    {
        let mut at = 0;
        while self.entries[at] != *entry {
            at += 1;
        }
        at
    }
}
