//! The calendar: orders in a sorted queue for each class.

ghost use Rattle.std.specs.Prelude.{◌≡◌, ◌<◌, ◌≤◌, IfOk, IfSome, length, replicate, Some, None};
ghost use Rattle.lwb_base.specs.declared.limits.TheConstants.{MOST_NODES};
ghost use Rattle.event_calendar.specs.Orders.{nothing_due, changed, IsNext};

use crate::Class;
use crate::due::Due;
use crate::placed_order::PlacedOrder;
use crate::queues::Queues;
use lwb_base::Memory;
use std::alloc::Global;
use std::marker::Model;

/// Orders at up to 64 places, in a sorted queue for each class. Contracts see the finite map from a place and a class
/// to a tick.
#[derive(Drop)]
pub struct Calendar {
    due: Vec<Due>,
    queues: Queues,
}

impl Model for Calendar {
    ghost use Rattle.std.specs.Prelude.{List};
    ghost use Rattle.event_calendar.specs.Orders.{Due as DueOf};
    ghost use Rattle.event_calendar.specs.Queues.{HasQueues};

    ghost Value = { List DueOf };

    ghost view = { λ c. c.due.items };

    ghost invariant = { λ c. HasQueues c.due.items c.queues };
}

impl Calendar {
    /// An empty calendar of that many places, 1 to 64. No later call takes memory.
    pub fn new(alloc: Global, places: u8) -> Result<Calendar, Memory>
        requires { (1 ≤ places) × (places ≤ MOST_NODES) }
        ensures { IfOk result (λ c. c ≡ replicate places nothing_due) }
    {
        let due = vec![in alloc; Due::nothing(); usize::from(places)]?;
        let queues = Queues::new(alloc, usize::from(places))?;
        Ok(Calendar { due, queues })
    }

    /// The map has that tick of 1/64 µs there, and all else stays. Places are counted from 0.
    #[inline(always)]
    pub fn set(&mut self, place: u8, class: Class, tick: u64)
        requires { place < length self.old }
        ensures { self.new ≡ changed self.old place class (Some tick) }
    {
        self.clear(place, class);
        self.due[usize::from(place)].set(class, Some(tick));
        self.queues.add(class, PlacedOrder { tick, place });
    }

    /// The map has nothing there, and all else stays. Places are counted from 0.
    #[inline(always)]
    pub fn clear(&mut self, place: u8, class: Class)
        requires { place < length self.old }
        ensures { self.new ≡ changed self.old place class None }
    {
        if let Some(tick) = self.due[usize::from(place)].get(class) {
            self.due[usize::from(place)].set(class, None);
            self.queues.remove(class, PlacedOrder { tick, place });
        }
    }

    /// The least order by tick, then class, then place. Returns `None` if and only if the map is empty.
    pub fn next(&self) -> Option<(u64, Class, u8)>
        ensures least { IsNext self.now result }
        ensures within { IfSome result (λ x. x.2 < length self.now) }
    {
        self.queues.next()
    }
}
