//! The schedules in a log that a node would receive.

ghost use Rattle.std.specs.Prelude.{◌≡◌, ◌↔◌, ◌≤◌, ◌<◌, List, true, IfOk, AllPairs, Contains};
ghost use Rattle.schedule_codec.specs.Reading.{is_schedule as is_schedule_of};
ghost use Rattle.radio_model.specs.Hearing.{Before};
ghost use Rattle.radio_model.specs.declared.sending.Sending.{Sending as SendingOf};
ghost use Rattle.scenario_text.specs.ScenarioGrammar.{IsScenario};
ghost use Rattle.scenario_clocks.specs.StatedClocks.{scenario_clock};
ghost use Rattle.air_log.specs.Lawful.{Lawful};
ghost use Rattle.air_log.specs.declared.entry.Entry.{Entry as EntryOf};
ghost use Rattle.host_return.specs.Probes.{Brings, HearsAsProbe, IsOfFrame};
ghost use Rattle.air_log.specs.Trails.{frame_start as start_of_frame};
ghost use Rattle.host_return.specs.Transmissions.{AreSent, IsSearchable};

use crate::Return;
use air_check::sent::{ids, transmissions_of};
use air_log::Air;
use lwb_base::{Memory, NodeId, Packet};
use radio_model::Transmissions;
use radio_model::receivers::is_among;
use radio_model::sending::Sending;
use scenario_text::Scenario;
use schedule_codec::read;
use std::alloc::Global;

/// The transmissions of a log, for a search.
#[derive(Drop)]
pub(crate) struct Search {
    // The ids of the nodes, ascending.
    nodes: Vec<NodeId>,
    sent: Transmissions,
}

impl Search {
    pub(crate) fn of(alloc: Global, s: &Scenario, air: &Air) -> Result<Search, Memory>
        requires said { IsScenario s.now }
        requires lawful { Lawful s.now (scenario_clock s.now) air.now }
        ensures sent { IfOk result (AreSent air.now) }
        ensures searchable { IfOk result (IsSearchable s.now) }
    {
        let nodes = ids(alloc, s)?;
        let sent = transmissions_of(alloc, s, &nodes, air)?;
        Ok(Search { nodes, sent })
    }

    /// Whether the node of r would receive a schedule of the rank of r in the frame of r.
    pub(crate) fn bring_schedule(&self, s: &Scenario, r: &Return) -> bool
        requires frame { r.now.frame < s.now.frames }
        requires searchable { IsSearchable s.now self.now }
        ensures { (air : List EntryOf) → AreSent air self.now
            → (result ≡ true ↔ ((x : SendingOf) × Brings s.now air r.now.frame r.now.node r.now.rank x)) }
    {
        let some = since(self.sent.sent(), frame_start(s, r.frame));
        self.bring_one_of(some, s, r)
    }

    // Whether one of these, which are in order from the start of the frame on, is such a schedule.
    fn bring_one_of(&self, some: &[Sending], s: &Scenario, r: &Return) -> bool
        requires frame { r.now.frame < s.now.frames }
        requires searchable { IsSearchable s.now self.now }
        requires in_order { AllPairs Before some.now }
        requires since { (y : SendingOf) → Contains some.now y → start_of_frame s.now r.now.frame ≤ y.start }
        requires among { (y : SendingOf) → Contains some.now y → Contains self.now.sent.sent y }
        ensures { (air : List EntryOf) → AreSent air self.now
            → (result ≡ true ↔ ((x : SendingOf) × Contains some.now x × Brings s.now air r.now.frame r.now.node r.now.rank x)) }
    {
        for x in some {
            if !is_in_frame(s, r.frame, x.start) {
                return false;
            }
            if self.brings(x, s, r) {
                return true;
            }
        }
        false
    }

    // Whether this one is such a schedule.
    fn brings(&self, x: &Sending, s: &Scenario, r: &Return) -> bool
        requires frame { r.now.frame < s.now.frames }
        requires searchable { IsSearchable s.now self.now }
        requires there { Contains self.now.sent.sent x.now }
        ensures { (air : List EntryOf) → AreSent air self.now → (result ≡ true ↔ Brings s.now air r.now.frame r.now.node r.now.rank x.now) }
    {
        if x.rank != r.rank {
            return false;
        }
        if !is_schedule(&x.packet) {
            return false;
        }
        if !is_in_frame(s, r.frame, x.start) {
            return false;
        }
        if !is_in_frame(s, r.frame, x.end) {
            return false;
        }
        self.comes_through(x, s, r)
    }

    // Whether the node would receive it, tuned to its channel for the whole frame.
    fn comes_through(&self, x: &Sending, s: &Scenario, r: &Return) -> bool
        requires searchable { IsSearchable s.now self.now }
        requires there { Contains self.now.sent.sent x.now }
        ensures { (air : List EntryOf) → AreSent air self.now → x.now.rank ≡ r.now.rank → IsOfFrame s.now r.now.frame x.now.start
            → IsOfFrame s.now r.now.frame x.now.end → (result ≡ true ↔ HearsAsProbe s.now air r.now.frame r.now.node r.now.rank x.now) }
    {
        let mask = self.sent.receivers(&s.profile(), s.trace(), &self.nodes, x);
        is_among(&self.nodes, mask, r.node)
    }
}

fn is_in_frame(s: &Scenario, frame: u32, t: u64) -> bool
    requires { frame < s.now.frames }
    ensures { result ≡ true ↔ IsOfFrame s.now frame t }
{
    let start = frame_start(s, frame);
    start <= t && t - start < s.profile().frame()
}

fn frame_start(s: &Scenario, frame: u32) -> u64
    requires { frame ≤ s.now.frames }
    ensures { result ≡ start_of_frame s.now frame }
{
    u64::from(frame) * s.profile().frame()
}

fn is_schedule(packet: &Packet) -> bool
    ensures { result ≡ is_schedule_of packet.now }
{
    read(packet).is_some()
}

// Those that start at a tick or after it.
fn since(sent: &[Sending], start: u64) -> &[Sending]
    requires { AllPairs Before sent.now }
    ensures among { (y : SendingOf) → Contains result.now y → Contains sent.now y }
    ensures all { (y : SendingOf) → Contains sent.now y → start ≤ y.start → Contains result.now y }
    ensures from { (y : SendingOf) → Contains result.now y → start ≤ y.start }
    ensures in_order { AllPairs Before result.now }
{
    let first = sent.partition_point(|x| x.start < start);
    &sent[first..]
}
