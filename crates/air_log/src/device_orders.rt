//! What a device does by an order of its core: its radio, its alarm, and what it is to send.

ghost use Rattle.std.specs.Prelude.{◌≡◌, ◌<◌, ◌^◌, [], Some, All, fold, max};
ghost use Rattle.tick_clock.specs.Clocks.{due};
ghost use Rattle.air_log.specs.Devices.{obeyed};
ghost use Rattle.air_log.specs.DeviceStates.{IsTimely};
ghost use Rattle.air_log.specs.DeviceChanges.{DeviceIsShown, DeviceGoes};
ghost use Rattle.air_log.specs.EventOrders.{order_of};

use crate::EventRadio;
use crate::device::{Device, Ordered};
use crate::event_radio::OrderRef;
use lwb_base::Packet;
use tick_clock::DriftClock;

impl Device {
    // An order at tick t: of its radio, its alarm or its next transmission.
    pub(crate) fn obey<C: DriftClock>(&mut self, clock: &C, t: u64, order: OrderRef<'_>)
        requires shown { DeviceIsShown t self.old }
        requires timely { IsTimely (order_of order) }
        ensures { DeviceGoes t (λ q d. obeyed (C.readings clock.now) q.id t d (order_of order.entry)) self.old self.new [] }
    {
        match order {
            OrderRef::Listen(rank) => self.channel = Some(rank),
            OrderRef::Off => self.channel = None,
            OrderRef::SendAt(local, packet) => self.order_sending(clock, t, local, packet),
            OrderRef::Alarm(local) => self.set_alarm(clock, t, local),
        }
    }

    // The orders that it gave to its radio, at tick t, one after another.
    pub(crate) fn obey_all<C: DriftClock>(&mut self, clock: &C, t: u64, radio: &EventRadio)
        requires shown { DeviceIsShown t self.old }
        requires timely { All IsTimely radio.now.given }
        ensures { DeviceGoes t (λ q d. fold (obeyed (C.readings clock.now) q.id t) d radio.now.given) self.old self.new [] }
    {
        // Most events give one order or two, and to look for one by a count takes longer than to do what it says.
        let Some(first) = radio.at(0) else { return };
        self.obey(clock, t, first);
        let Some(second) = radio.at(1) else { return };
        self.obey(clock, t, second);
        let Some(third) = radio.at(2) else { return };
        self.obey(clock, t, third);
        let Some(fourth) = radio.at(3) else { return };
        self.obey(clock, t, fourth);
    }

    // A packet is to be sent at a local time, or at tick t if that has passed.
    fn order_sending<C: DriftClock>(&mut self, clock: &C, t: u64, local: u64, packet: &Packet)
        requires timely { local < 2 ^ 47 }
        ensures { self.new ≡ record self.old { ordered = Some (record { tick = max (due (C.readings clock.now) local) t; packet = packet.now }) } }
    {
        let tick = clock.due(local).max(t);
        self.ordered = Some(Ordered {
            tick,
            packet: packet.copy(),
        });
    }

    // The alarm is set to a local time, or to tick t if that has passed.
    fn set_alarm<C: DriftClock>(&mut self, clock: &C, t: u64, local: u64)
        requires timely { local < 2 ^ 47 }
        ensures { self.new ≡ record self.old { alarm = Some (max (due (C.readings clock.now) local) t) } }
    {
        let tick = clock.due(local).max(t);
        self.alarm = Some(tick);
    }
}
