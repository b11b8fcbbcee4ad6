//! Orders as a finite map, as a trait.

ghost use Rattle.std.specs.Prelude.{◌≡◌, ◌<◌, List, IfSome, Some, None, length};
ghost use Rattle.event_calendar.specs.Orders.{Due, changed, IsNext};

use crate::{Calendar, Class};

/// Orders as a finite map from a place and a class to a tick of 1/64 µs. The map is the list of its places, which are
/// counted from 0, so their number is its length.
pub trait Orders {
    ghost map: { Self → List Due };

    /// The map has that tick there, and all else stays.
    fn set(&mut self, place: u8, class: Class, tick: u64)
        requires { place < length (map self.old) }
        ensures { map self.new ≡ changed (map self.old) place class (Some tick) };

    /// The map has nothing there, and all else stays.
    fn clear(&mut self, place: u8, class: Class)
        requires { place < length (map self.old) }
        ensures { map self.new ≡ changed (map self.old) place class None };

    /// The least by tick, then class, then place. Returns `None` if and only if the map is empty.
    fn next(&self) -> Option<(u64, Class, u8)>
        ensures least { IsNext (map self.now) result }
        ensures within { IfSome result (λ x. x.2 < length (map self.now)) };
}

impl Orders for Calendar {
    ghost map = { λ c. c };

    #[inline(always)]
    fn set(&mut self, place: u8, class: Class, tick: u64) {
        Calendar::set(self, place, class, tick);
    }

    #[inline(always)]
    fn clear(&mut self, place: u8, class: Class) {
        Calendar::clear(self, place, class);
    }

    fn next(&self) -> Option<(u64, Class, u8)> {
        Calendar::next(self)
    }
}
