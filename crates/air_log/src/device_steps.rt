//! The parts of a tick at a device.

ghost use Rattle.std.specs.Prelude.{◌≡◌, ◌≤◌, ◌^◌, ℕ, None, is_some, option_map, Option, All, if◌then◌else◌, fold};
ghost use Rattle.std.specs.Option.{option_or};
ghost use Rattle.radio_model.specs.declared.sending.Sending.{Sending};
ghost use Rattle.node_core.specs.Rows.{orders_by};
ghost use Rattle.lwb_base.specs.Orders.{Gives};
ghost use Rattle.air_log.specs.Devices.{Made, obeyed, event as event_at};
ghost use Rattle.air_log.specs.Trails.{alarm_is_due, device_after_start, device_after_end};
ghost use Rattle.air_log.specs.DeviceStates.{whole, IsSameNode, row_of, state_after_row, made_by, with_sent, told_of};
ghost use Rattle.air_log.specs.Tunings.{Tunings, channel_in};
ghost use Rattle.air_log.specs.DeviceStates.{IsTimely, RunsUntil, running, sending_end, ends_now};

use crate::device::{Device, Ordered};
use bus_rules::Delivery;
use lwb_base::{Event, Packet, Radio};
use radio_model::sending::Sending;
use tick_clock::{At, DriftClock};

impl Device {
    // An event at tick t; its orders go to a radio that has room for 4. At a node that is off it has no effect.
    pub(crate) fn react<C: DriftClock, R: Radio>(
        &mut self,
        clock: &C,
        t: u64,
        event: &Event,
        radio: &mut R,
    )
        requires early { t ≤ 2 ^ 45 }
        requires room { 4 ≤ (R.told radio.old).room }
        ensures after { self.new ≡ state_after_row self.old (row_of (C.readings clock.now) t event.now self.old) }
        ensures orders { Gives (R.told radio.old) (R.told radio.new) (orders_by (row_of (C.readings clock.now) t event.now self.old)) }
        ensures timely { All IsTimely (orders_by (row_of (C.readings clock.now) t event.now self.old)) }
        ensures whole { (x : Tunings) (made : Made) (ended : Option Sending)
            → event_at (C.readings clock.now) self.old.setup t event.now ended (whole self.old x made)
            ≡ fold (obeyed (C.readings clock.now) self.old.setup.id t)
            (whole self.new x (made_by t event.now ended self.old.power (row_of (C.readings clock.now) t event.now self.old) made))
            (orders_by (row_of (C.readings clock.now) t event.now self.old)) }
        ensures channel { self.new.channel ≡ self.old.channel }
    {
        if self.on {
            self.core.handle(&At::new(clock, t), radio, event);
        }
    }

    // Whether the last event that had an effect delivered something that is not yet taken.
    pub(crate) fn has_delivered(&self) -> bool
        ensures { result ≡ is_some self.now.delivery }
    {
        self.core.has_delivered()
    }

    // The delivery of the last event that had an effect, once. Returns `None` if and only if it delivered nothing.
    pub(crate) fn delivered(&mut self) -> Option<Delivery>
        ensures delivery { result ≡ self.old.delivery }
        ensures once { self.new ≡ record self.old { delivery = None } }
    {
        self.core.delivered()
    }

    // Whether the alarm is due at tick t; it is not set any more then.
    pub(crate) fn take_alarm(&mut self, t: u64) -> bool
        ensures due { result ≡ alarm_is_due t self.old.alarm }
        ensures after { self.new ≡ record self.old { alarm = if result then None else self.old.alarm } }
    {
        let due = match self.alarm {
            Some(tick) => tick == t,
            None => false,
        };
        if due {
            self.alarm = None;
        }
        due
    }

    /// The transmission that starts at tick t. Returns `None` if and only if none does: nothing is ordered for this tick, the radio
    /// is off, or the node still sends.
    pub fn start(&mut self, t: u64) -> Option<Sending>
        requires early { t ≤ 2 ^ 45 }
        ensures whole { (x : Tunings) (made : Made) → RunsUntil self.old.busy_until made.sent → channel_in x ≡ self.old.channel
            → device_after_start self.old.setup t (whole self.old x made) ≡ whole self.new x (with_sent result made) }
        ensures until { self.new.busy_until ≡ option_or (option_map sending_end result) self.old.busy_until }
        ensures channel { self.new.channel ≡ self.old.channel }
        ensures node { IsSameNode self.old self.new }
        ensures core { self.new.core ≡ self.old.core }
    {
        match &self.ordered {
            Some(ordered) if ordered.tick == t => (),
            Some(_) | None => return None,
        }
        let Ordered { packet, .. } = self.ordered.take()?;
        let rank = self.channel?;
        if self.busy_until.is_some() {
            return None;
        }
        let end = t + self.profile.airtime(packet.length());
        self.busy_until = Some(end);
        Some(Sending {
            rank,
            node: self.node,
            start: t,
            end,
            packet,
        })
    }

    /// Whether its running transmission ends at tick t, of which the node has to be notified. It runs no more then.
    pub fn end_sending(&mut self, t: u64) -> bool
        ensures ended { result ≡ ends_now t self.old.busy_until }
        ensures after { self.new ≡ record self.old { busy_until = if result then None else self.old.busy_until } }
        ensures whole { (clock : ℕ → ℕ) (x : Tunings) (made : Made) → RunsUntil self.old.busy_until made.sent
            → device_after_end clock self.old.setup t (whole self.old x made)
            ≡ told_of clock self.old.setup t (if result then running self.old.busy_until made.sent else None) (whole self.new x made) }
    {
        let ends = match self.busy_until {
            Some(end) => end == t,
            None => false,
        };
        if ends {
            self.busy_until = None;
        }
        ends
    }
}
