//! The queues of all classes.

ghost use Rattle.std.specs.Prelude.{◌≡◌, ◌<◌, ◌≤◌, ℕ, List, [], Contains, length, IfOk, Some};
ghost use Rattle.std.specs.declared.option.Option.{Option as OptionOf};
ghost use Rattle.event_calendar.specs.Orders.{Order};
ghost use Rattle.event_calendar.specs.Waiting as waiting;
ghost use Rattle.event_calendar.specs.Waiting.{EntriesAreInOrder};
ghost use Rattle.event_calendar.specs.Queues as queues;
ghost use Rattle.event_calendar.specs.Queues.{queue_of, IsEmpty, AddsOne, RemovesOne, first_order};

use crate::Class;
use crate::placed_order::PlacedOrder;
use crate::queue::Queue;
use lwb_base::Memory;
use std::alloc::Global;

/// A queue for each class of orders.
#[derive(Drop)]
pub struct Queues {
    ends: Queue,
    alarms: Queue,
    starts: Queue,
}

impl Queues {
    /// Empty queues, each with room for that many orders.
    pub fn new(alloc: Global, room: usize) -> Result<Queues, Memory>
        ensures { IfOk result (λ q. IsEmpty room q) }
    {
        let ends = Queue::new(alloc, room)?;
        let alarms = Queue::new(alloc, room)?;
        let starts = Queue::new(alloc, room)?;
        Ok(Queues {
            ends,
            alarms,
            starts,
        })
    }

    /// Adds an order of that class.
    #[inline(always)]
    pub fn add(&mut self, class: Class, entry: PlacedOrder)
        requires room { length (queue_of class self.old).entries < (queue_of class self.old).room }
        requires order { EntriesAreInOrder (queue_of class self.old).entries }
        requires apart { Contains (queue_of class self.old).entries entry → ⊥ }
        ensures { AddsOne class entry self.old self.new }
    {
        match class {
            Class::SendingEnd => self.ends.add(entry),
            Class::Alarm => self.alarms.add(entry),
            Class::SendingStart => self.starts.add(entry),
        }
    }

    /// Removes an order of that class that is there.
    #[inline(always)]
    pub fn remove(&mut self, class: Class, entry: PlacedOrder)
        requires order { EntriesAreInOrder (queue_of class self.old).entries }
        requires there { Contains (queue_of class self.old).entries entry }
        ensures { RemovesOne class entry self.old self.new }
    {
        match class {
            Class::SendingEnd => self.ends.remove(entry),
            Class::Alarm => self.alarms.remove(entry),
            Class::SendingStart => self.starts.remove(entry),
        }
    }

    /// The first of the first orders of the classes.
    pub fn next(&self) -> Option<(u64, Class, u8)>
        ensures { result ≡ first_order self.now }
    {
        let end = order(Class::SendingEnd, self.ends.first());
        let start = order(Class::SendingStart, self.starts.first());
        // Each node whose power is on has an alarm, so that mostly there is one.
        let Some(alarm) = order(Class::Alarm, self.alarms.first()) else {
            return earlier(earlier(end, None), start);
        };
        let first = with_second(end, alarm);
        Some(with_first(first, start))
    }
}

fn order(class: Class, entry: Option<PlacedOrder>) -> Option<(u64, Class, u8)>
    ensures { result ≡ queues.order class entry }
{
    let entry = entry?;
    Some((entry.tick, class, entry.place))
}

// As `earlier`, where there is a second.
#[inline(always)]
fn with_second(first: Option<(u64, Class, u8)>, second: (u64, Class, u8)) -> (u64, Class, u8)
    ensures { Some result ≡ queues.earlier_order first (Some second) }
{
    match first {
        Some(one) => { if second.0 < one.0 { second } else { one } }
        None => second,
    }
}

// As `earlier`, where there is a first.
#[inline(always)]
fn with_first(first: (u64, Class, u8), second: Option<(u64, Class, u8)>) -> (u64, Class, u8)
    ensures { Some result ≡ queues.earlier_order (Some first) second }
{
    match second {
        Some(other) => { if other.0 < first.0 { other } else { first } }
        None => first,
    }
}

// The earlier of two by tick. At one tick it is the first, whose class comes before the other's.
fn earlier(
    first: Option<(u64, Class, u8)>,
    second: Option<(u64, Class, u8)>,
) -> Option<(u64, Class, u8)>
    ensures { result ≡ queues.earlier_order first second }
{
    match (first, second) {
        (None, other) => other,
        (one, None) => one,
        (Some(one), Some(other)) => Some(if other.0 < one.0 { other } else { one }),
    }
}
