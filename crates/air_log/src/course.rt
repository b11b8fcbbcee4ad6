//! The trail of one node as code walks it: which events a device receives, and how it responds.

ghost use Rattle.std.specs.Prelude.{◌≡◌, ◌≤◌, ◌^◌, ◌++◌, OnOk, IfOk, option_to_list, option_copied};
ghost use Rattle.bus_rules.specs.Cores.{Setup};
ghost use Rattle.bus_rules.specs.States.{IsAct};
ghost use Rattle.bus_rules.specs.declared.act.Act.TheVariants.{On as OnOf};
ghost use Rattle.air_log.specs.AlarmRuns.{IsAlarmRun};
ghost use Rattle.air_log.specs.Devices.{Device as DeviceOf, at_rest, event as event_at, silenced};
ghost use Rattle.air_log.specs.ScriptedDevices.{device_after_line};
ghost use Rattle.scenario_text.specs.Setups.{setup_of};
ghost use Rattle.air_log.specs.Trails.{alarmed, device_after_start as begun_at, device_after_end as ended_at};
ghost use Rattle.air_log.specs.DeviceStates.{CanBoot};
ghost use Rattle.air_log.specs.Tunings.{one_more};
ghost use Rattle.radio_model.specs.Stations.{tuning_after, over_after};
ghost use Rattle.air_log.specs.Courses.{CourseShows, HasListsOf, CourseIsShown, Goes, IsShownEnding};

use crate::device::Device;
use crate::{EventRadio, Notice, TunedEntry};
use bus_rules::Delivery;
use lwb_base::{Event, Memory, NodeId};
use radio_model::sending::Sending;
use radio_model::tuning::{Past, RadioTuning};
use scenario_text::{Scenario, ScriptLine};
use std::alloc::Global;
use std::marker::Model;
use tick_clock::DriftClock;

// The device of a trail, what its radio is tuned to, what it has made so far, each in the order in which it was made, and the
// buffer of its radio.
#[derive(Drop)]
pub(crate) struct Course {
    pub(crate) device: Device,
    pub(crate) tuning: RadioTuning,
    pub(crate) sent: Vec<Sending>,
    pub(crate) tuned: Vec<TunedEntry>,
    pub(crate) deliveries: Vec<Delivery>,
    radio: EventRadio,
}

impl Model for Course {
    ghost use Rattle.air_log.specs.Courses.{CourseState};
    ghost use Rattle.air_log.specs.CourseParts.{course_of};

    ghost Value = { CourseState };

    ghost view = { course_of };
}

impl Course {
    // The node is off, and nothing has happened.
    pub(crate) fn new(alloc: Global, s: &Scenario, node: NodeId) -> Result<Course, Memory>
        ensures { IfOk result (λ c. CourseShows (setup_of s.now node) 0 c at_rest) }
    {
        let profile = s.profile();
        Ok(Course {
            device: Device::new(alloc, &profile, node, s.hosts(), s.sends())?,
            tuning: RadioTuning::none(),
            sent: Vec::new(alloc),
            tuned: Vec::new(alloc),
            deliveries: Vec::new(alloc),
            radio: EventRadio::new(),
        })
    }

    // The device is notified of an event at tick t, and what it orders is done.
    pub(crate) fn tell<C: DriftClock>(
        &mut self,
        clock: &C,
        t: u64,
        notice: &Notice<'_, '_>,
    ) -> Result<(), Memory>
        requires shown { CourseIsShown t self.old }
        requires early { t ≤ 2 ^ 45 }
        ensures { OnOk result (Goes t (λ q d. event_at (C.readings clock.now) q t notice.now.event.now (option_copied notice.now.ended) d) self.old self.new) }
    {
        self.device
            .notify(clock, t, notice, &mut self.radio, &mut self.deliveries)?;
        self.follow(t)
    }

    // The alarms that are due at tick t, one after another.
    pub(crate) fn alarm<C: DriftClock>(&mut self, clock: &C, t: u64) -> Result<(), Memory>
        requires ends { IsShownEnding (C.readings clock.now) t (λ q d. d) self.old }
        requires early { t ≤ 2 ^ 45 }
        ensures { OnOk result ((q : Setup) (d : DeviceOf) → CourseShows q t self.old d
            → IsAlarmRun (C.readings clock.now) q t d (alarmed (C.readings clock.now) q t d)
            → CourseShows q t self.new (alarmed (C.readings clock.now) q t d)) }
    {
        self.device
            .take_alarms(clock, t, &mut self.radio, &mut self.deliveries)?;
        self.follow(t)
    }

    // The transmission that ends at tick t, if one does.
    pub(crate) fn end_sending<C: DriftClock>(&mut self, clock: &C, t: u64) -> Result<(), Memory>
        requires shown { CourseIsShown t self.old }
        requires early { t ≤ 2 ^ 45 }
        ensures { OnOk result (Goes t (λ q d. ended_at (C.readings clock.now) q t d) self.old self.new) }
    {
        if !self.device.end_sending(t) {
            return Ok(());
        }
        let event = Event::Sent;
        let notice = Notice {
            event: &event,
            ended: self.sent.last(),
        };
        self.device
            .notify(clock, t, &notice, &mut self.radio, &mut self.deliveries)?;
        self.follow(t)
    }

    // The transmission that starts at tick t, if one does.
    pub(crate) fn begin(&mut self, t: u64) -> Result<(), Memory>
        requires shown { CourseIsShown t self.old }
        requires early { t ≤ 2 ^ 45 }
        ensures { OnOk result (Goes t (λ q d. begun_at q t d) self.old self.new) }
    {
        let sending = self.device.start(t);
        self.log_sending(sending)
    }

    // A line of the script is given, at tick t.
    pub(crate) fn act<C: DriftClock>(
        &mut self,
        clock: &C,
        t: u64,
        line: &ScriptLine,
    ) -> Result<(), Memory>
        requires shown { CourseIsShown t self.old }
        requires early { t ≤ 2 ^ 45 }
        requires range { IsAct self.old.device.setup.profile line.now.act }
        requires boots { line.now.act ≡ OnOf → CanBoot self.old.device.power }
        ensures { OnOk result (Goes t (λ q d. device_after_line (C.readings clock.now) q t d line.now) self.old self.new) }
    {
        self.device
            .act(clock, t, line, &mut self.radio, &mut self.deliveries)?;
        self.follow(t)
    }

    // At tick t its tuning ends, and all its tunings are in the list.
    pub(crate) fn close(&mut self, t: u64) -> Result<(), Memory>
        ensures { OnOk result ((q : Setup) (d : DeviceOf) → CourseShows q t self.old d → HasListsOf q self.new (silenced q.id t d)) }
    {
        let over = self.tuning.tune(None, t);
        self.log_tuning(over)?;
        self.log_tuning(self.tuning.last)
    }

    // The radio is tuned to what the device has set at tick t. A tuning that goes on no more by this is in the list.
    fn follow(&mut self, t: u64) -> Result<(), Memory>
        ensures { OnOk result (self.new ≡ record self.old {
          tuning = tuning_after self.old.device.channel t self.old.tuning;
          tuned = one_more self.old.device.setup.id (over_after self.old.device.channel t self.old.tuning) self.old.tuned;
        }) }
    {
        let over = self.tuning.tune(self.device.settings().channel, t);
        self.log_tuning(over)
    }

    // A tuning that goes on no more, if there is one.
    fn log_tuning(&mut self, over: Option<Past>) -> Result<(), Memory>
        ensures { OnOk result (self.new ≡ record self.old { tuned = one_more self.old.device.setup.id over self.old.tuned }) }
    {
        if let Some(past) = over {
            self.tuned.push(TunedEntry::of(self.device.node(), past))?;
        }
        Ok(())
    }

    // A transmission, if there is one.
    fn log_sending(&mut self, sending: Option<Sending>) -> Result<(), Memory>
        ensures { OnOk result (self.new ≡ record self.old { sent = self.old.sent ++ option_to_list sending }) }
    {
        if let Some(x) = sending {
            self.sent.push(x)?;
        }
        Ok(())
    }
}
