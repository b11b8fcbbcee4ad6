//! What script lines do to a device.

ghost use Rattle.std.specs.Prelude.{◌≡◌, ◌<◌, ◌≤◌, ◌^◌, ℕ, None, IfOk, OnOk, false, if◌then◌else◌};
ghost use Rattle.lwb_base.specs.declared.event.Event.TheVariants.{Boot};
ghost use Rattle.bus_rules.specs.States.{IsAct, switch_of};
ghost use Rattle.bus_rules.specs.declared.act.Act.TheVariants.{On, Off};
ghost use Rattle.air_log.specs.Devices.{Made, event, power_is_on};
ghost use Rattle.air_log.specs.ScriptedDevices.{device_after_act};
ghost use Rattle.air_log.specs.DeviceStates.{whole, IsSameNode, CanBoot};
ghost use Rattle.air_log.specs.Tunings.{Tunings, channel_in, retuned};
ghost use Rattle.air_log.specs.DeviceChanges.{DeviceIsShown, Delivers};
ghost use Rattle.air_log.specs.Drops.{drop_of_line};

use crate::device::Device;
use crate::{EventRadio, Notice};
use bus_rules::{Act, Delivery, DropLine, Switch};
use lwb_base::{Event, Memory};
use scenario_text::ScriptLine;
use tick_clock::DriftClock;

impl Device {
    /// An act of a script line, at tick t. What it delivers goes to the list, and a packet that is lost by the act is given back.
    pub fn act<C: DriftClock>(
        &mut self,
        clock: &C,
        t: u64,
        line: &ScriptLine,
        radio: &mut EventRadio,
        deliveries: &mut Vec<Delivery>,
    ) -> Result<Option<DropLine>, Memory>
        requires shown { DeviceIsShown t self.old }
        requires early { t ≤ 2 ^ 45 }
        requires range { IsAct self.old.setup.profile line.now.act }
        requires boots { line.now.act ≡ On → CanBoot self.old.power }
        ensures goes { OnOk result (Delivers t (λ q d. device_after_act (C.readings clock.now) q t d line.now.act d.power) self.old self.new
            deliveries.old.items deliveries.new.items) }
        ensures lost { IfOk result (λ lost. lost ≡ drop_of_line (record line.now { node = self.old.setup.id }) self.old.power) }
        ensures setup { self.new.setup ≡ self.old.setup }
    {
        match line.act.switch() {
            Some(Switch::On) => {
                self.boot(clock, t, radio, deliveries)?;
                Ok(None)
            }
            Some(Switch::Off) => {
                self.switch_off();
                Ok(None)
            }
            None => Ok(self.tell(line.frame, &line.act)),
        }
    }

    // Power comes on at tick t, if it is off.
    fn boot<C: DriftClock>(
        &mut self,
        clock: &C,
        t: u64,
        radio: &mut EventRadio,
        deliveries: &mut Vec<Delivery>,
    ) -> Result<(), Memory>
        requires shown { DeviceIsShown t self.old }
        requires early { t ≤ 2 ^ 45 }
        requires boots { CanBoot self.old.power }
        ensures goes { OnOk result (Delivers t (λ q d. device_after_act (C.readings clock.now) q t d On d.power) self.old self.new
            deliveries.old.items deliveries.new.items) }
        ensures setup { self.new.setup ≡ self.old.setup }
    {
        if !self.switch_on() {
            return Ok(());
        }
        let event = Event::Boot;
        let notice = Notice {
            event: &event,
            ended: None,
        };
        self.notify(clock, t, &notice, radio, deliveries)
    }

    // Power comes on. Returns `true` if and only if it was off; then the node has to be notified of its boot.
    fn switch_on(&mut self) -> bool
        requires { CanBoot self.old.power }
        ensures whole { (clock : ℕ → ℕ) (t : ℕ) (x : Tunings) (made : Made)
            → device_after_act clock self.old.setup t (whole self.old x made) On self.old.power
            ≡ (if result then event clock self.old.setup t Boot None (whole self.new x made) else whole self.new x made) }
        ensures after { self.new ≡ (if result then record self.old { core = self.new.core; power = self.new.power; delivery = None } else self.old) }
        ensures channel { self.new.channel ≡ self.old.channel }
    {
        if self.on {
            return false;
        }
        self.boots += 1;
        self.core.reboot(self.boots);
        self.on = true;
        true
    }

    // Power goes off, and with it the radio, the alarm and what is ordered; a running transmission goes on.
    fn switch_off(&mut self)
        ensures whole { (clock : ℕ → ℕ) (t : ℕ) (x : Tunings) (made : Made) → channel_in x ≡ self.old.channel
            → device_after_act clock self.old.setup t (whole self.old x made) Off self.old.power
            ≡ whole self.new (retuned self.old.setup.id t self.new.channel x) made }
        ensures node { IsSameNode self.old self.new }
        ensures core { self.new.core ≡ self.old.core }
        ensures busy { self.new.busy_until ≡ self.old.busy_until }
    {
        if !self.on {
            return;
        }
        self.on = false;
        self.alarm = None;
        self.ordered = None;
        self.channel = None;
    }

    // An act for one of its streams. Returns the packet that is lost by it: the act puts one, and the node is off or the stream
    // drops it.
    fn tell(&mut self, frame: u32, act: &Act) -> Option<DropLine>
        requires stream { switch_of act.now ≡ None }
        requires range { IsAct self.old.setup.profile act.now }
        ensures whole { (clock : ℕ → ℕ) (t : ℕ) (x : Tunings) (made : Made)
            → device_after_act clock self.old.setup t (whole self.old x made) act.now self.old.power ≡ whole self.new x made }
        ensures lost { result ≡ drop_of_line (record { frame = frame; node = self.old.setup.id; act = act.now }) self.old.power }
        ensures channel { self.new.channel ≡ self.old.channel }
        ensures node { IsSameNode self.old self.new }
        ensures busy { self.new.busy_until ≡ self.old.busy_until }
        ensures off { power_is_on self.old.power ≡ false → self.new ≡ self.old }
    {
        if self.on && !self.core.tell(act) {
            return None;
        }
        Some(DropLine {
            frame,
            node: self.node,
            stream: act.put_stream()?,
        })
    }
}
