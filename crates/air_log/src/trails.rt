//! The trail of a node over the entries of a log.

ghost use Rattle.std.specs.Prelude.{◌≡◌, ◌≤◌, ◌<◌, ◌+◌, ◌%◌, ◌^◌, ℕ, true, false, Some, None, OnOk, IfOk, List, map, take};
ghost use Rattle.std.specs.Prelude.{fold, slice_get, min, ◌==◌, if◌then◌else◌, [], ◌∷◌, ◌++◌};
ghost use Rattle.bus_rules.specs.Cores.{Setup};
ghost use Rattle.scenario_text.specs.ScenarioFacts.{IsSoundScenario, turned};
ghost use Rattle.bus_rules.specs.States.{IsAct};
ghost use Rattle.bus_rules.specs.declared.act.Act.TheVariants.{On as OnOf};
ghost use Rattle.air_log.specs.DeviceStates.{CanBoot};
ghost use Rattle.air_log.specs.Charges.{scans_with};
ghost use Rattle.air_log.specs.Devices.{Device as DeviceOf, seen_power};
ghost use Rattle.air_log.specs.ScriptedDevices.{device_after_line};
ghost use Rattle.air_log.specs.Lawful.{by_end, heard_by, reception_of};
ghost use Rattle.scenario_text.specs.Setups.{setup_of};
ghost use Rattle.air_log.specs.Trails.{Reception, frame_start, tune_of, lines_at, device_after_receptions as heard_at, at_frame, before_tick};
ghost use Rattle.air_log.specs.TrailsTold.{trail_told};
ghost use Rattle.scenario_text.specs.AddedLines.{frame_of_line};
ghost use Rattle.air_log.specs.Courses.{CourseShows, CourseIsShown, Goes, IsShownEnding, IsSplitByKey, IsSortedByKey, AlarmsEnd};
ghost use Rattle.air_log.specs.Courses.{end_of_reception, hearing_of, reception_in, before_alarms_in, rest_of_tick, least_of, least_due};

use crate::course::Course;
use crate::hearings::{hearings_by, in_turn};
use crate::{Air, HeardEntry, Notice, Trail};
use bus_rules::Tune;
use lwb_base::{Event, Memory, NodeId};
use scenario_text::{Scenario, ScriptLine};
use std::alloc::Global;
use tick_clock::DriftClock;

/// The trail of a node over its `Heard` entries of any log, valid (`Lawful`) or not, taken by end, then sender, then place in
/// the log. One that ends where the node is off, or not before the end of the run, has no effect.
pub fn trail_of<C: DriftClock>(
    alloc: Global,
    s: &Scenario,
    a: &Air,
    node: NodeId,
    clock: &C,
) -> Result<Trail, Memory>
    ensures { IfOk result (λ t. t ≡ trail_told s.now node (C.readings clock.now) (heard_by a.now node)) }
{
    let heard = hearings_by(alloc, a.entries(), node)?;
    trail_over(alloc, s, node, clock, heard)
}

/// The same over receptions that were picked out of a log, in any order.
pub fn trail_over<C: DriftClock>(
    alloc: Global,
    s: &Scenario,
    node: NodeId,
    clock: &C,
    heard: Vec<HeardEntry>,
) -> Result<Trail, Memory>
    ensures { IfOk result (λ t. t ≡ trail_told s.now node (C.readings clock.now) (map reception_of (by_end (map hearing_of heard.items)))) }
{
    let length = s.profile().frame();
    let heard = in_turn(heard)?;
    let mut course = Course::new(alloc, s, node)?;
    let mut tunes = Vec::new(alloc);
    let mut scanned = 0;
    let mut told = 0;
    let mut next = 0;
    for frame in 0..s.frames() {
        told = course.lines(clock, s, frame, told)?;
        scanned += course.log_tune(&mut tunes)?;
        next = course.frame(clock, s, heard.as_slice(), frame, next)?;
    }
    let end = u64::from(s.frames()) * length;
    course.close(end)?;
    Ok(course.told(scanned, tunes))
}

// 1 for a frame in which a node scans, and 0 for another.
fn count_of(tune: Option<Tune>) -> u32
    ensures value { result ≡ (if scans_with tune then 1 else 0) }
    ensures few { result ≤ 1 }
{
    match tune {
        Some(Tune::Scan(_, _)) => 1,
        Some(Tune::Hold(_, _) | Tune::Host(_, _)) | None => 0,
    }
}

impl Course {
    // Its tune is one more of these. It gives back 1 where the node scans, and 0 where not.
    fn log_tune(&self, tunes: &mut Vec<Option<Tune>>) -> Result<u32, Memory>
        ensures tunes { OnOk result (tunes.new.items ≡ tunes.old.items ++ tune_of self.now.device.power ∷ []) }
        ensures scans { IfOk result (λ n. n ≡ (if scans_with (tune_of self.now.device.power) then 1 else 0)) }
        ensures few { IfOk result (λ n. n ≤ 1) }
    {
        let count = count_of(self.device.current_tune());
        tunes.push(self.device.current_tune())?;
        Ok(count)
    }

    // The trail with these tunes, once the run has come to its end.
    fn told(self, scanned: u32, tunes: Vec<Option<Tune>>) -> Trail
        ensures { result ≡ record {
          sent = self.sent;
          tuned = self.tuned;
          deliveries = self.deliveries;
          windows = (self.device.windows.earlier + self.device.windows.last) % 2 ^ 64;
          scanned = scanned;
          tunes = tunes.items;
        } }
    {
        let windows = self.device.windows();
        Trail {
            sent: self.sent,
            tuned: self.tuned,
            deliveries: self.deliveries,
            windows,
            scanned,
            tunes,
        }
    }

    // The script lines of the node that are of a frame, where `first` is the first line that is not of an earlier one. It
    // gives back the first line of a later frame.
    fn lines<C: DriftClock>(
        &mut self,
        clock: &C,
        s: &Scenario,
        frame: u32,
        first: usize,
    ) -> Result<usize, Memory>
        requires sound { IsSoundScenario s.now }
        requires frame { frame < s.now.frames }
        requires cut { IsSplitByKey frame_of_line s.now.script first frame }
        requires shown { CourseIsShown (frame_start s.now frame) self.old }
        requires profile { self.old.device.setup.profile ≡ s.now.profile }
        requires power { seen_power self.old.device.power ≡ turned self.old.device.setup.id (false, 0) (take first s.now.script) }
        ensures cut { IfOk result (λ told. IsSplitByKey frame_of_line s.now.script told (frame + 1)) }
        ensures power { IfOk result (λ told. seen_power self.new.device.power ≡ turned self.old.device.setup.id (false, 0) (take told s.now.script)) }
        ensures goes { OnOk result (Goes (frame_start s.now frame)
            (λ q d. fold (device_after_line (C.readings clock.now) q (frame_start s.now frame)) d (lines_at s.now q.id (frame_start s.now frame))) self.old
            self.new) }
    {
        let t = u64::from(frame) * s.profile().frame();
        let mut told = first;
        while let Some(line) = s.script().get(told) {
            if line.frame != frame {
                return Ok(told);
            }
            self.line(clock, t, line)?;
            told += 1;
        }
        Ok(told)
    }

    // A line of the script at tick t, which is given if it is the node's.
    fn line<C: DriftClock>(&mut self, clock: &C, t: u64, line: &ScriptLine) -> Result<(), Memory>
        requires shown { CourseIsShown t self.old }
        requires early { t ≤ 2 ^ 45 }
        requires range { IsAct self.old.device.setup.profile line.now.act }
        requires boots { line.now.node ≡ self.old.device.setup.id → line.now.act ≡ OnOf → CanBoot self.old.device.power }
        ensures { OnOk result (Goes t (λ q d. if line.now.node == q.id then device_after_line (C.readings clock.now) q t d line.now else d) self.old self.new) }
    {
        if line.node != self.device.node() {
            return Ok(());
        }
        self.act(clock, t, line)
    }

    // All ticks of a frame, after its script lines. `first` is the first reception that has not ended before the frame, and it
    // gives back the first that has not ended with it.
    fn frame<C: DriftClock>(
        &mut self,
        clock: &C,
        s: &Scenario,
        heard: &[HeardEntry],
        frame: u32,
        first: usize,
    ) -> Result<usize, Memory>
        requires sound { IsSoundScenario s.now }
        requires frame { frame < s.now.frames }
        requires ascends { IsSortedByKey end_of_reception heard.now }
        requires cut { IsSplitByKey end_of_reception heard.now first (frame_start s.now frame) }
        requires shown { (v : ℕ)
            × CourseShows (setup_of s.now v) (frame_start s.now frame) self.old (at_frame s.now v (C.readings clock.now) (map reception_in heard.now) frame) }
        ensures cut { IfOk result (λ k. IsSplitByKey end_of_reception heard.now k (frame_start s.now (frame + 1))) }
        ensures power { OnOk result (seen_power self.new.device.power ≡ seen_power self.old.device.power) }
        ensures shows { (v : ℕ)
            → CourseShows (setup_of s.now v) (frame_start s.now frame) self.old (at_frame s.now v (C.readings clock.now) (map reception_in heard.now) frame)
            → OnOk result (CourseShows (setup_of s.now v) (frame_start s.now (frame + 1)) self.new
            (before_tick s.now v (C.readings clock.now) (map reception_in heard.now) (frame_start s.now (frame + 1)))) }
    {
        let length = s.profile().frame();
        let mut t = u64::from(frame) * length;
        let until = t + length;
        let mut next = first;
        while t < until {
            next = self.tick(clock, heard, t, next)?;
            t = self.next_due(heard, next, until);
        }
        Ok(next)
    }

    // A tick, after its script lines.
    fn tick<C: DriftClock>(
        &mut self,
        clock: &C,
        heard: &[HeardEntry],
        t: u64,
        first: usize,
    ) -> Result<usize, Memory>
        requires early { t ≤ 2 ^ 45 }
        requires ascends { IsSortedByKey end_of_reception heard.now }
        requires cut { IsSplitByKey end_of_reception heard.now first t }
        requires ends { IsShownEnding (C.readings clock.now) t (λ q d. before_alarms_in (C.readings clock.now) q t (map reception_in heard.now) d) self.old }
        ensures cut { IfOk result (λ k. IsSplitByKey end_of_reception heard.now k (t + 1)) }
        ensures goes { OnOk result ((q : Setup) (d : DeviceOf) → CourseShows q t self.old d
            → AlarmsEnd (C.readings clock.now) q t (before_alarms_in (C.readings clock.now) q t (map reception_in heard.now) d)
            → CourseShows q t self.new (rest_of_tick (C.readings clock.now) q t (map reception_in heard.now) d)) }
    {
        let next = self.hear(clock, heard, t, first)?;
        self.end_sending(clock, t)?;
        self.alarm(clock, t)?;
        self.begin(t)?;
        Ok(next)
    }

    // The receptions that end at tick t.
    fn hear<C: DriftClock>(
        &mut self,
        clock: &C,
        heard: &[HeardEntry],
        t: u64,
        first: usize,
    ) -> Result<usize, Memory>
        requires early { t ≤ 2 ^ 45 }
        requires ascends { IsSortedByKey end_of_reception heard.now }
        requires cut { IsSplitByKey end_of_reception heard.now first t }
        requires shown { CourseIsShown t self.old }
        ensures cut { IfOk result (λ k. IsSplitByKey end_of_reception heard.now k (t + 1)) }
        ensures goes { OnOk result (Goes t (λ q d. heard_at (C.readings clock.now) q t (map reception_in heard.now) d) self.old self.new) }
    {
        let mut next = first;
        while let Some(hearing) = heard.get(next) {
            if hearing.end != t {
                return Ok(next);
            }
            let event = Event::Heard(hearing.packet.copy());
            let notice = Notice {
                event: &event,
                ended: None,
            };
            self.tell(clock, t, &notice)?;
            next += 1;
        }
        Ok(next)
    }

    // The tick at which something is due next, a reception from this one on among them, or `until` if that is earlier.
    fn next_due(&self, heard: &[HeardEntry], next: usize, until: u64) -> u64
        ensures { result ≡ least_due self.now.device (slice_get heard.now next) until }
    {
        let due = earlier(until, self.device.alarm);
        let due = match &self.device.ordered {
            Some(ordered) => due.min(ordered.tick),
            None => due,
        };
        let due = earlier(due, self.device.busy_until);
        match heard.get(next) {
            Some(hearing) => due.min(hearing.end),
            None => due,
        }
    }
}

fn earlier(due: u64, tick: Option<u64>) -> u64
    ensures { result ≡ least_of due tick }
{
    match tick {
        Some(tick) => due.min(tick),
        None => due,
    }
}
