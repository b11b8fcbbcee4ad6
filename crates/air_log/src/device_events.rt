//! What a device is notified of, and what it does then.

ghost use Rattle.std.specs.Prelude.{◌≡◌, ◌≤◌, ◌++◌, ◌^◌, OnOk, option_copied, option_to_list};
ghost use Rattle.air_log.specs.Devices.{event as event_at};
ghost use Rattle.air_log.specs.DeviceChanges.{DeviceIsShown, Delivers, DeviceIsEnding, TakesAlarms};
ghost use Rattle.air_log.specs.WindowLogs.{is_alarm};
ghost use Rattle.air_log.specs.WindowSums.{power_has_window, noted};

use crate::device::Device;
use crate::{EventRadio, Notice};
use bus_rules::Delivery;
use lwb_base::{Event, Memory, Packet};
use tick_clock::DriftClock;

impl Device {
    /// It is notified of an event at tick t, and what it orders is done. What the radio kept before is cleared first; it is passed
    /// to reuse its buffer, which takes long to make. What it delivers goes to the list. At a node that is off nothing happens.
    pub fn notify<C: DriftClock>(
        &mut self,
        clock: &C,
        t: u64,
        notice: &Notice<'_, '_>,
        radio: &mut EventRadio,
        deliveries: &mut Vec<Delivery>,
    ) -> Result<(), Memory>
        requires shown { DeviceIsShown t self.old }
        requires early { t ≤ 2 ^ 45 }
        ensures goes { OnOk result
            (Delivers t (λ q d. event_at (C.readings clock.now) q t notice.now.event.now (option_copied notice.now.ended) d) self.old self.new
            deliveries.old.items deliveries.new.items) }
        ensures setup { self.new.setup ≡ self.old.setup }
    {
        let by_alarm = is_alarm(notice.event);
        let before = self.is_in_window();
        radio.clear();
        self.react(clock, t, notice.event, radio);
        self.count(before, by_alarm, notice.sent());
        self.log_delivery(deliveries)?;
        self.obey_all(clock, t, radio);
        Ok(())
    }

    /// The alarms that are due at tick t, one after another, each as an event.
    pub fn take_alarms<C: DriftClock>(
        &mut self,
        clock: &C,
        t: u64,
        radio: &mut EventRadio,
        deliveries: &mut Vec<Delivery>,
    ) -> Result<(), Memory>
        requires ends { DeviceIsEnding (C.readings clock.now) t self.old }
        requires early { t ≤ 2 ^ 45 }
        ensures goes { OnOk result (TakesAlarms (C.readings clock.now) t self.old self.new deliveries.old.items deliveries.new.items) }
        ensures setup { self.new.setup ≡ self.old.setup }
    {
        let event = Event::Alarm;
        let notice = Notice {
            event: &event,
            ended: None,
        };
        // The proof bounds the loop; the language needs a limit.
        for _ in 0..u64::MAX {
            if !self.take_alarm(t) {
                return Ok(());
            }
            self.notify(clock, t, &notice, radio, deliveries)?;
        }
        unreachable!()
    }

    // Its windows count an event that found a window open or not. With it the transmission of this packet ended.
    fn count(&mut self, before: bool, by_alarm: bool, sent: Option<&Packet>)
        ensures after { self.new ≡ record self.old {
          windows = noted before (power_has_window self.old.power) by_alarm (option_copied sent.entry) self.old.windows;
        } }
        ensures small { self.new.windows.last ≤ 2 ^ 28 }
    {
        let after = self.is_in_window();
        self.windows.note(before, after, by_alarm, sent);
    }

    // What it delivered is taken, if it did. Most events deliver nothing.
    fn log_delivery(&mut self, deliveries: &mut Vec<Delivery>) -> Result<(), Memory>
        ensures device { self.new ≡ record self.old { delivery = None } }
        ensures deliveries { OnOk result (deliveries.new.items ≡ deliveries.old.items ++ option_to_list self.old.delivery) }
    {
        if self.has_delivered() {
            if let Some(delivery) = self.delivered() {
                deliveries.push(delivery)?;
            }
        }
        Ok(())
    }
}

fn is_alarm(event: &Event) -> bool
    ensures { result ≡ is_alarm event.now }
{
    matches!(event, Event::Alarm)
}
