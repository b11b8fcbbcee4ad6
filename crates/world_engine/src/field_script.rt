//! What script lines do in a run.

ghost use Rattle.std.specs.Prelude.{◌≡◌, ◌≤◌, ◌^◌, ◌++◌, OnOk, option_to_list};
ghost use Rattle.bus_rules.specs.Cores.{Setup};
ghost use Rattle.bus_rules.specs.States.{IsAct};
ghost use Rattle.bus_rules.specs.declared.act.Act.TheVariants.{On as OnOf};
ghost use Rattle.radio_model.specs.Stations.{IsTime};
ghost use Rattle.air_log.specs.Devices.{Device as DeviceOf};
ghost use Rattle.air_log.specs.DeviceStates.{CanBoot};
ghost use Rattle.world_engine.specs.Fields.{FieldShows, FieldIsShown};
ghost use Rattle.world_engine.specs.FieldSteps.{TakesLine};

use crate::field::Field;
use air_log::EventRadio;
use bus_rules::DropLine;
use event_calendar::Orders;
use lwb_base::Memory;
use scenario_text::ScriptLine;
use tick_clock::DriftClock;

impl Field {
    // A line of the script is given to the device at the place, at tick t.
    pub(crate) fn act<C: DriftClock, Q: Orders>(
        &mut self,
        orders: &mut Q,
        clock: &C,
        place: u8,
        t: u64,
        line: &ScriptLine,
        radio: &mut EventRadio,
    ) -> Result<(), Memory>
        requires shown { FieldIsShown t self.old (Q.map orders.old) place }
        requires time { IsTime self.old.medium t }
        requires early { t ≤ 2 ^ 45 }
        requires node { (s : Setup) (d : DeviceOf) → FieldShows s t self.old (Q.map orders.old) place d → line.now.node ≡ s.id }
        requires range { (s : Setup) (d : DeviceOf) → FieldShows s t self.old (Q.map orders.old) place d → IsAct s.profile line.now.act }
        requires boots { (s : Setup) (d : DeviceOf) → FieldShows s t self.old (Q.map orders.old) place d → line.now.act ≡ OnOf → CanBoot d.power }
        ensures { OnOk result (TakesLine (C.readings clock.now) line.now t place line.now.act self.old (Q.map orders.old) self.new (Q.map orders.new)) }
    {
        let device = &mut self.devices[usize::from(place)];
        let before = device.settings();
        let lost = device.act(clock, t, line, radio, &mut self.deliveries)?;
        self.follow(orders, place, t, before)?;
        self.log_drop(lost)
    }

    // A packet that was lost, if one was.
    fn log_drop(&mut self, lost: Option<DropLine>) -> Result<(), Memory>
        ensures { OnOk result (self.new ≡ record self.old { drops = self.old.drops ++ option_to_list lost }) }
    {
        let Some(drop) = lost else {
            return Ok(());
        };
        self.drops.push(drop)?;
        Ok(())
    }
}
