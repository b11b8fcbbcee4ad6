//! The devices of a run on the medium that they share: which events one of them receives, and what it orders.

ghost use Rattle.std.specs.Prelude.{◌≡◌, ◌≤◌, ◌^◌, ◌++◌, ℕ, List, [], Some, OnOk, option_copied};
ghost use Rattle.event_calendar.specs.Orders.{at};
ghost use Rattle.event_calendar.specs.declared.class.Class.TheVariants.{SendingStart as StartOf};
ghost use Rattle.bus_rules.specs.Cores.{Setup};
ghost use Rattle.radio_model.specs.Stations.{IsTime};
ghost use Rattle.radio_model.specs.declared.sending.Sending.{Sending as SendingOf};
ghost use Rattle.air_log.specs.AlarmRuns.{IsAlarmRun};
ghost use Rattle.air_log.specs.Devices.{Device as DeviceOf, event as event_at};
ghost use Rattle.air_log.specs.Trails.{alarmed, device_after_start as begun_at, sendings_starting};
ghost use Rattle.world_engine.specs.Fields.{FieldShows, FieldIsShown, entries_of};
ghost use Rattle.world_engine.specs.FieldSteps.{Acts};

use air_log::{Air, Device, Entry, EventRadio, Notice, TunedEntry};
use bus_rules::{Delivery, DropLine};
use event_calendar::{Class, Orders};
use lwb_base::{Memory, NodeId};
use radio_model::Medium;
use radio_model::tuning::Past;
use std::marker::Model;
use tick_clock::DriftClock;

// The medium, the devices by ascending ids, and what is in the lists so far, in the order in which it was made.
#[derive(Drop)]
pub(crate) struct Field {
    pub(crate) medium: Medium,
    pub(crate) devices: Vec<Device>,
    pub(crate) air: Air,
    pub(crate) deliveries: Vec<Delivery>,
    pub(crate) drops: Vec<DropLine>,
}

impl Model for Field {
    ghost use Rattle.world_engine.specs.Fields.{FieldState, IsField};

    ghost Value = { FieldState };

    ghost use Rattle.world_engine.specs.FieldParts.{state_of};

    ghost view = { state_of };

    ghost invariant = { λ w. IsField (state_of w) };
}

impl Field {
    // The device at the place is notified of an event at tick t, and what it orders is done. The radio is passed on to reuse its
    // buffer, which takes long to make.
    pub(crate) fn tell<C: DriftClock, Q: Orders>(
        &mut self,
        orders: &mut Q,
        clock: &C,
        place: u8,
        t: u64,
        notice: &Notice<'_, '_>,
        radio: &mut EventRadio,
    ) -> Result<(), Memory>
        requires shown { FieldIsShown t self.old (Q.map orders.old) place }
        requires time { IsTime self.old.medium t }
        requires early { t ≤ 2 ^ 45 }
        ensures { OnOk result
            (Acts t place (λ s d. event_at (C.readings clock.now) s t notice.now.event.now (option_copied notice.now.ended) d) [] [] self.old (Q.map orders.old)
            self.new (Q.map orders.new)) }
    {
        let device = &mut self.devices[usize::from(place)];
        let before = device.settings();
        device.notify(clock, t, notice, radio, &mut self.deliveries)?;
        self.follow(orders, place, t, before)
    }

    // The alarms of the device at the place that are due at tick t, one after another.
    pub(crate) fn alarm<C: DriftClock, Q: Orders>(
        &mut self,
        orders: &mut Q,
        clock: &C,
        place: u8,
        t: u64,
        radio: &mut EventRadio,
    ) -> Result<(), Memory>
        requires shown { FieldIsShown t self.old (Q.map orders.old) place }
        requires time { IsTime self.old.medium t }
        requires early { t ≤ 2 ^ 45 }
        requires ends { (s : Setup) (d : DeviceOf) → FieldShows s t self.old (Q.map orders.old) place d
            → IsAlarmRun (C.readings clock.now) s t d (alarmed (C.readings clock.now) s t d) }
        ensures { OnOk result (Acts t place (λ s d. alarmed (C.readings clock.now) s t d) [] [] self.old (Q.map orders.old) self.new (Q.map orders.new)) }
    {
        let device = &mut self.devices[usize::from(place)];
        let before = device.settings();
        device.take_alarms(clock, t, radio, &mut self.deliveries)?;
        self.follow(orders, place, t, before)
    }

    // The transmission that the device at the place has ordered for tick t starts, if it can.
    pub(crate) fn begin<Q: Orders>(
        &mut self,
        orders: &mut Q,
        place: u8,
        t: u64,
    ) -> Result<(), Memory>
        requires shown { FieldIsShown t self.old (Q.map orders.old) place }
        requires time { IsTime self.old.medium t }
        requires early { t ≤ 2 ^ 45 }
        requires stands { at (Q.map orders.old) place StartOf ≡ Some t }
        ensures { OnOk result ((begun : List SendingOf) × Acts t place (λ s d. begun_at s t d) begun [] self.old (Q.map orders.old) self.new (Q.map orders.new)
            × ((s : Setup) (d : DeviceOf) → FieldShows s t self.old (Q.map orders.old) place d → begun ≡ sendings_starting s t d)) }
    {
        orders.clear(place, Class::SendingStart);
        let device = &mut self.devices[usize::from(place)];
        let Some(x) = device.start(t) else {
            return Ok(());
        };
        orders.set(place, Class::SendingEnd, x.end);
        self.medium.start(x.node, t, &x.packet);
        self.air.push(Entry::Sent(x))
    }

    // A tuning of the node that goes on no more, if there is one.
    pub(crate) fn log_tuning(&mut self, node: NodeId, over: Option<Past>) -> Result<(), Memory>
        ensures { OnOk result (self.new ≡ record self.old { air = self.old.air ++ entries_of node over }) }
    {
        match over {
            Some(past) => self.air.push(Entry::Tuned(TunedEntry::of(node, past))),
            None => Ok(()),
        }
    }
}
