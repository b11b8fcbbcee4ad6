//! The frames of a run, one after another.

ghost use Rattle.std.specs.Prelude.{◌≡◌, ◌<◌, ◌≤◌, ◌+◌, ℕ, List, [], ◌∷◌, ◌++◌, Some, IfOk, OnOk, length};
ghost use Rattle.event_calendar.specs.Orders.{IsNext};
ghost use Rattle.event_calendar.specs.declared.class.Class.TheVariants.{SendingEnd as EndOf};
ghost use Rattle.scenario_text.specs.ScenarioFacts.{IsSoundScenario};
ghost use Rattle.scenario_text.specs.declared.script.ScriptLine.{ScriptLine as LineOf};
ghost use Rattle.air_log.specs.Trails.{run_end, frame_start};
ghost use Rattle.air_log.specs.ClockLists.{clocks_by};
ghost use Rattle.world_engine.specs.Counting.{TrailsStay, all_scans_before};
ghost use Rattle.air_log.specs.Idling.{all_idle};
ghost use Rattle.world_engine.specs.Moments.{Before, InLines, At};
ghost use Rattle.world_engine.specs.Running.{IsRunning};
ghost use Rattle.world_engine.specs.Frames.{told_before, CountsScriptLinesBefore, IsNextLine, AllComeLater};

use crate::field::Field;
use crate::field_counts::none_scanned;
use air_log::{EventRadio, Idle};
use event_calendar::{Class, Orders};
use link_trace::Links;
use lwb_base::Memory;
use scenario_text::{ScenarioOver, ScriptLine};
use std::alloc::Global;
use tick_clock::DriftClock;

// What is counted of all frames: in how many of them each device scans, by its place, and where nodes are idle.
#[derive(Drop)]
pub(crate) struct FrameCounts {
    pub(crate) scanned: Vec<u32>,
    pub(crate) idle: Vec<Idle>,
}

impl Field {
    // All frames. What is given and what is due in a frame is done before the next one begins.
    pub(crate) fn frames<C: DriftClock, Q: Orders, M: Links>(
        &mut self,
        alloc: Global,
        orders: &mut Q,
        s: &ScenarioOver<'_, M>,
        clocks: &[C],
    ) -> Result<FrameCounts, Memory>
        requires sound { IsSoundScenario s.now }
        requires clocks { length clocks.now ≡ length s.now.nodes }
        requires running { IsRunning s.now (clocks_by C.readings s.now.nodes clocks.now) [] 0 Before self.old (Q.map orders.old) }
        ensures running { OnOk result
            (IsRunning s.now (clocks_by C.readings s.now.nodes clocks.now) s.now.script (run_end s.now) Before self.new (Q.map orders.new)) }
        ensures scanned { IfOk result (λ v. v.scanned.items ≡ all_scans_before s.now (clocks_by C.readings s.now.nodes clocks.now) self.new.air s.now.frames) }
        ensures idle { IfOk result (λ v. v.idle.items ≡ all_idle s.now (clocks_by C.readings s.now.nodes clocks.now) self.new.air) }
    {
        let mut scanned = none_scanned(alloc, s.nodes().len())?;
        let mut idle = Vec::new(alloc);
        let mut radio = EventRadio::new();
        let mut told = 0;
        for frame in 0..s.frames() {
            told = self.lines(orders, s, clocks, frame, told, &mut radio)?;
            self.count_scanners(&mut scanned);
            self.list_idle(&mut idle, frame)?;
            self.events(orders, s, clocks, frame, &mut radio)?;
        }
        Ok(FrameCounts { scanned, idle })
    }

    // The script lines of a frame, of which this is the first. It gives back the first of a later frame.
    fn lines<C: DriftClock, Q: Orders, M: Links>(
        &mut self,
        orders: &mut Q,
        s: &ScenarioOver<'_, M>,
        clocks: &[C],
        frame: u32,
        first: usize,
        radio: &mut EventRadio,
    ) -> Result<usize, Memory>
        requires sound { IsSoundScenario s.now }
        requires clocks { length clocks.now ≡ length s.now.nodes }
        requires frame { frame < s.now.frames }
        requires first { CountsScriptLinesBefore s.now first frame }
        requires running { IsRunning s.now (clocks_by C.readings s.now.nodes clocks.now) (told_before s.now frame) (frame_start s.now frame) Before self.old
            (Q.map orders.old) }
        ensures next { IfOk result (λ told. CountsScriptLinesBefore s.now told (frame + 1)) }
        ensures told { OnOk result (IsRunning s.now (clocks_by C.readings s.now.nodes clocks.now) (told_before s.now (frame + 1)) (frame_start s.now frame)
            (InLines (told_before s.now (frame + 1))) self.new (Q.map orders.new)) }
        ensures running { OnOk result (IsRunning s.now (clocks_by C.readings s.now.nodes clocks.now) (told_before s.now (frame + 1)) (frame_start s.now frame)
            (At EndOf) self.new (Q.map orders.new)) }
        ensures stay { OnOk result (TrailsStay s.now (clocks_by C.readings s.now.nodes clocks.now) (frame_start s.now frame) self.old.air self.new.air) }
    {
        let t = u64::from(frame) * s.profile().frame();
        let mut told = first;
        while let Some(line) = s.script().get(told) {
            if line.frame != frame {
                return Ok(told);
            }
            self.line(orders, s, clocks, t, line, radio)?;
            told += 1;
        }
        Ok(told)
    }

    // The next line of the script is given at tick t.
    fn line<C: DriftClock, Q: Orders, M: Links>(
        &mut self,
        orders: &mut Q,
        s: &ScenarioOver<'_, M>,
        clocks: &[C],
        t: u64,
        line: &ScriptLine,
        radio: &mut EventRadio,
    ) -> Result<(), Memory>
        requires sound { IsSoundScenario s.now }
        requires clocks { length clocks.now ≡ length s.now.nodes }
        requires next { (told : List LineOf) × IsNextLine s.now t told line.now
            × IsRunning s.now (clocks_by C.readings s.now.nodes clocks.now) told t (InLines told) self.old (Q.map orders.old) }
        ensures { (told : List LineOf) → IsNextLine s.now t told line.now
            → IsRunning s.now (clocks_by C.readings s.now.nodes clocks.now) told t (InLines told) self.old (Q.map orders.old)
            → OnOk result (IsRunning s.now (clocks_by C.readings s.now.nodes clocks.now) (told ++ line.now ∷ []) t (InLines (told ++ line.now ∷ [])) self.new
            (Q.map orders.new) × TrailsStay s.now (clocks_by C.readings s.now.nodes clocks.now) t self.old.air self.new.air) }
    {
        let place = self.place_of(line.node);
        self.act(orders, &clocks[usize::from(place)], place, t, line, radio)?;
        Ok(())
    }

    // All that is due in a frame, by tick, class and place.
    fn events<C: DriftClock, Q: Orders, M: Links>(
        &mut self,
        orders: &mut Q,
        s: &ScenarioOver<'_, M>,
        clocks: &[C],
        frame: u32,
        radio: &mut EventRadio,
    ) -> Result<(), Memory>
        requires sound { IsSoundScenario s.now }
        requires clocks { length clocks.now ≡ length s.now.nodes }
        requires frame { frame < s.now.frames }
        requires running { IsRunning s.now (clocks_by C.readings s.now.nodes clocks.now) (told_before s.now (frame + 1)) (frame_start s.now frame)
            (At EndOf) self.old (Q.map orders.old) }
        ensures { OnOk result (IsRunning s.now (clocks_by C.readings s.now.nodes clocks.now) (told_before s.now (frame + 1))
            (frame_start s.now (frame + 1)) Before self.new (Q.map orders.new)
            × TrailsStay s.now (clocks_by C.readings s.now.nodes clocks.now) (frame_start s.now frame) self.old.air self.new.air) }
    {
        let until = (u64::from(frame) + 1) * s.profile().frame();
        while let Some((t, class, place)) = orders.next() {
            if t >= until {
                return Ok(());
            }
            self.event(orders, s, clocks, (t, class, place), radio)?;
        }
        Ok(())
    }

    // What is due next: at a tick, of a class, at a place.
    fn event<C: DriftClock, Q: Orders, M: Links>(
        &mut self,
        orders: &mut Q,
        s: &ScenarioOver<'_, M>,
        clocks: &[C],
        due: (u64, Class, u8),
        radio: &mut EventRadio,
    ) -> Result<(), Memory>
        requires sound { IsSoundScenario s.now }
        requires clocks { length clocks.now ≡ length s.now.nodes }
        requires within { due.0 < run_end s.now }
        requires next { IsNext (Q.map orders.old) (Some due) }
        requires running { (told : List LineOf)
            × IsRunning s.now (clocks_by C.readings s.now.nodes clocks.now) told due.0 (At due.1) self.old (Q.map orders.old) }
        ensures { (told : List LineOf) → IsRunning s.now (clocks_by C.readings s.now.nodes clocks.now) told due.0 (At due.1) self.old (Q.map orders.old)
            → OnOk result (IsRunning s.now (clocks_by C.readings s.now.nodes clocks.now) told due.0 (At due.1) self.new (Q.map orders.new)
            × AllComeLater due.0 due.1 due.2 (Q.map orders.new)
            × TrailsStay s.now (clocks_by C.readings s.now.nodes clocks.now) due.0 self.old.air self.new.air) }
    {
        let (t, class, place) = due;
        match class {
            Class::SendingEnd => self.end(orders, s.links(), clocks, place, t, radio),
            Class::Alarm => self.alarm(orders, &clocks[usize::from(place)], place, t, radio),
            Class::SendingStart => self.begin(orders, place, t),
        }
    }
}
