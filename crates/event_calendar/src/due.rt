//! The orders at one place.

ghost use Rattle.std.specs.Prelude.{◌≡◌};
ghost use Rattle.event_calendar.specs.Orders.{nothing_due, tick_of, with_tick};

use crate::Class;
use std::marker::Model;

/// The orders at one place, as ticks by class.
#[derive(Clone, Copy)]
pub struct Due {
    sending_end: Option<u64>,
    alarm: Option<u64>,
    sending_start: Option<u64>,
}

impl Model for Due {
    ghost use Rattle.event_calendar.specs.Orders.{Due as DueOf};

    ghost Value = { DueOf };

    ghost view = { λ d. record { sending_end = d.sending_end; alarm = d.alarm; sending_start = d.sending_start } };

    ghost inverse = { λ d. record { sending_end = d.sending_end; alarm = d.alarm; sending_start = d.sending_start } };
}

impl Due {
    /// No orders at all.
    pub fn nothing() -> Due
        ensures { result ≡ nothing_due }
    {
        Due {
            sending_end: None,
            alarm: None,
            sending_start: None,
        }
    }

    /// The class has that tick, or none, and the others stay.
    pub fn set(&mut self, class: Class, tick: Option<u64>)
        ensures { self.new ≡ with_tick class tick self.old }
    {
        match class {
            Class::SendingEnd => self.sending_end = tick,
            Class::Alarm => self.alarm = tick,
            Class::SendingStart => self.sending_start = tick,
        }
    }

    /// The tick of that class, if there is one.
    pub fn get(&self, class: Class) -> Option<u64>
        ensures { result ≡ tick_of class self.now }
    {
        match class {
            Class::SendingEnd => self.sending_end,
            Class::Alarm => self.alarm,
            Class::SendingStart => self.sending_start,
        }
    }
}
