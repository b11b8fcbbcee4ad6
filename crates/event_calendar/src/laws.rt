//! Laws of orders as a finite map, each a function that does nothing and has the law as its contract.

ghost use Rattle.std.specs.Prelude.{◌≡◌, ◌≢◌, ◌<◌, ◌⊎◌, ℕ, List, Option, None, length, replicate};
ghost use Rattle.event_calendar.specs.declared.class.Class.{Class};
ghost use Rattle.event_calendar.specs.Orders.{Due, Order, IsNext, at, changed, nothing_due};

/// At first a map is empty.
pub fn nothing_stands_at_first()
    ensures { (places place : ℕ) (class : Class) → at (replicate places nothing_due) place class ≡ None }
{}

/// A change of one order gives that place and class their new tick. All else stays, and the number of places.
pub fn changes_one_order()
    ensures there { (map : List Due) (place : ℕ) (class : Class) (tick : Option ℕ) → place < length map
        → at (changed map place class tick) place class ≡ tick }
    ensures elsewhere { (map : List Due) (place other : ℕ) (class another : Class) (tick : Option ℕ)
        → (other ≢ place) ⊎ (another ≢ class) → at (changed map place class tick) other another ≡ at map other another }
    ensures places { (map : List Due) (place : ℕ) (class : Class) (tick : Option ℕ)
        → length (changed map place class tick) ≡ length map }
{}

/// A map has one next order.
pub fn one_order_is_next()
    ensures { (map : List Due) (x y : Option Order) → IsNext map x → IsNext map y → x ≡ y }
{}

/// A map has None as its next order if and only if it is empty: it has no order at any place and class.
pub fn none_is_next_in_an_empty_map()
    ensures empty { (map : List Due) → IsNext map None → (place : ℕ) (class : Class) → at map place class ≡ None }
    ensures none { (map : List Due) (x : Option Order) → ((place : ℕ) (class : Class) → at map place class ≡ None)
        → IsNext map x → x ≡ None }
{}
