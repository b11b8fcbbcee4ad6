//! The stamps of a run.

ghost use Rattle.std.specs.Prelude.{◌≡◌, ◌≤◌, ◌<◌, ◌^◌, ◌+◌, ◌-◌, ◌*◌, ℕ, List, true, false, IfOk, Some};
ghost use Rattle.radio_model.specs.declared.sending.Sending.{Sending};
ghost use Rattle.scenario_text.specs.FloodParts.{knows};
ghost use Rattle.scenario_text.specs.ScenarioGrammar.{IsScenario};
ghost use Rattle.scenario_clocks.specs.StatedClocks.{scenario_clock};
ghost use Rattle.node_core.specs.Nodes.{zero_from};
ghost use Rattle.time_reference.specs.Reference.{heard_zero};
ghost use Rattle.air_log.specs.declared.entry.Entry.{Entry};
ghost use Rattle.air_log.specs.Lawful.{Lawful};
ghost use Rattle.air_log.specs.Safe.{sender_hosts};
ghost use Rattle.bus_time.specs.Stamps.{AreStamps, IsStamp, IsTick};
ghost use Rattle.bus_time.specs.StampErrors.{AllErrLittle};
ghost use Rattle.bus_time.specs.Stamping.{MayStamp, IsWordFor};
ghost use Rattle.std.specs.Prelude.{slice_get, length, get_or};
ghost use Rattle.scenario_text.specs.declared.lines.NodeLine.{NodeLine as NodeLineOf};
ghost use Rattle.lwb_base.specs.Profile.{airtime};
ghost use Rattle.scenario_text.specs.ScenarioParts.{ScenarioParts};

use crate::Stamp;
use crate::beginning::{Beginning, sort};
use crate::reading::Reading;
use crate::words::{Round, Word};
use air_log::Air;
use lwb_base::{Memory, NodeId, Profile};
use scenario_clocks::stated_clocks;
use scenario_text::Scenario;
use std::alloc::Global;
use tick_clock::DriftClock;
use time_reference::Reference;

/// When each data packet of a run was sent first, in the time of the host that planned its round, as far as its sender knew it by
/// the schedules that it received: by frame, rank and slot. A host's own packets have the time of its clock; the others err by at
/// most 51 ticks, or 58 by a schedule that names its contention slots, and 40 millionths of the time since that schedule was
/// begun: by less than 44,960 ticks in profile 1, and 58,300 in profile 2. `Err` means out of memory.
pub fn stamps(alloc: Global, s: &Scenario, air: &Air) -> Result<Vec<Stamp>, Memory>
    requires lawful { Lawful s.now (scenario_clock s.now) air.now }
    ensures stamps { IfOk result (λ made. AreStamps s.now (scenario_clock s.now) air.now made.items) }
    ensures errors { IfOk result (λ made. AllErrLittle s.now (scenario_clock s.now) air.now made.items) }
{
    let profile = s.profile();
    let clocks = stated_clocks(alloc, s.nodes(), s.rates())?;
    let mut reading = Reading::of(alloc, &profile, air)?;
    sort(&mut reading.beginnings)?;
    let mut stamps = Vec::new(alloc);
    for i in 0..reading.beginnings.len() {
        let begun = reading.beginnings[i];
        let clock = &clocks[place_of(s, begun.node)];
        stamps.push(stamp_of(s, &reading, &begun, clock))?;
    }
    Ok(stamps)
}

// The schedule by which data is stamped, if its sender does not host.
fn word_for(reading: &Reading, begun: &Beginning) -> Word
    requires { (s : ScenarioParts) × (clocks : ℕ → ℕ → ℕ) × (air : List Entry) × (x : Sending)
        × MayStamp s clocks reading.now.present reading.now.ahead begun.now air x × (sender_hosts s clocks air x ≡ false) }
    ensures { (s : ScenarioParts) (clocks : ℕ → ℕ → ℕ) (air : List Entry) (x : Sending)
        → MayStamp s clocks reading.now.present reading.now.ahead begun.now air x → sender_hosts s clocks air x ≡ false → IsWordFor s air x result }
{
    let round = Round {
        node: begun.node.number(),
        rank: begun.rank.number(),
        frame: begun.frame,
    };
    if let Some(word) = reading.present.first(round) {
        if word.end < begun.start {
            return word;
        }
    }
    match reading.ahead.first(round) {
        Some(word) => word,
        None => unreachable!(),
    }
}

// The zero of a round by a schedule whose reception ended at this reading of the clock.
fn zero_by(profile: &Profile, word: &Word, local: u64) -> u64
    requires { local < 2 ^ 46 }
    ensures value { result ≡ heard_zero profile.now (local - airtime profile.now word.now.length) word.now.counter word.now.length word.now.slot }
    ensures range { result < 2 ^ 47 }
{
    let start = local.saturating_sub(profile.airtime(word.length));
    Reference::from_heard(profile, start, word.counter, word.length, word.slot).zero()
}

// Whether the node is the host of the packet's channel.
fn is_host(s: &Scenario, begun: &Beginning) -> bool
    ensures yes { result ≡ true → slice_get s.now.hosts begun.now.rank ≡ Some begun.now.node }
    ensures back { slice_get s.now.hosts begun.now.rank ≡ Some begun.now.node → result ≡ true }
{
    match s.hosts().get(usize::from(begun.rank.number())) {
        Some(host) => *host == begun.node,
        None => false,
    }
}

// When it was sent, by the time of the host as its node knows it.
fn tick_of<C: DriftClock>(s: &Scenario, reading: &Reading, begun: &Beginning, clock: &C) -> u64
    requires { (clocks : ℕ → ℕ → ℕ) × (air : List Entry) × (x : Sending)
        × MayStamp s.now clocks reading.now.present reading.now.ahead begun.now air x × (C.readings clock.now ≡ clocks x.node) }
    ensures { (clocks : ℕ → ℕ → ℕ) (air : List Entry) (x : Sending) → MayStamp s.now clocks reading.now.present reading.now.ahead begun.now air x
        → C.readings clock.now ≡ clocks x.node → IsTick s.now air x clocks result }
{
    let local = clock.reading(begun.start);
    if is_host(s, begun) {
        return local;
    }
    let word = word_for(reading, begun);
    let profile = s.profile();
    let zero = zero_by(&profile, &word, clock.reading(word.end));
    let nominal = begun.frame * profile.frame() + profile.lead();
    (nominal + local).saturating_sub(zero + u64::from(word.ahead) * profile.frame())
}

fn stamp_of<C: DriftClock>(s: &Scenario, reading: &Reading, begun: &Beginning, clock: &C) -> Stamp
    requires { (clocks : ℕ → ℕ → ℕ) × (air : List Entry) × (x : Sending)
        × MayStamp s.now clocks reading.now.present reading.now.ahead begun.now air x × (C.readings clock.now ≡ clocks x.node) }
    ensures { (clocks : ℕ → ℕ → ℕ) (air : List Entry) (x : Sending) → MayStamp s.now clocks reading.now.present reading.now.ahead begun.now air x
        → C.readings clock.now ≡ clocks x.node → IsStamp s.now clocks air x result }
{
    Stamp {
        frame: begun.frame as u32,
        rank: begun.rank,
        slot: begun.slot,
        node: begun.node,
        stream: begun.stream,
        seq: begun.seq,
        tick: tick_of(s, reading, begun, clock),
    }
}

// The place of a node among all, which are by ascending ids.
fn place_of(s: &Scenario, node: NodeId) -> usize
    requires { knows s.now.nodes node ≡ true }
    ensures place { result < length s.now.nodes }
    ensures node { (d : NodeLineOf) → (get_or s.now.nodes result d).node ≡ node }
{
    match s.nodes().binary_search_by_key(&node, |line| line.node) {
        Ok(place) => place,
        Err(_) => unreachable!(),
    }
}
