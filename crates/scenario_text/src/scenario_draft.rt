//! What the lines of a scenario say so far.

ghost use Rattle.std.specs.Prelude.{◌≡◌, ◌≤◌, ◌==◌, if◌then◌else◌, Ok, Err, Some, None, IsOk, IfOk, IfErr, OnOk, length};
ghost use Rattle.std.specs.List.{list_any};
ghost use Rattle.text_readers.specs.Faults.{Refuses, RefusesBy, Finishes};
ghost use Rattle.scenario_text.specs.Network.{rates_by_node};
ghost use Rattle.scenario_text.specs.ScenarioDrafts.{IsScenarioDraft};
ghost use Rattle.scenario_text.specs.ScenarioGrammar.{IsScenario, no_scenario, line_fault, line_added, with_scenario_line};
ghost use Rattle.scenario_text.specs.ScenarioGrammar.{scenario_after_words, last_tick as last_tick_of, is_frame, whole_within};
ghost use Rattle.scenario_text.specs.ScenarioParts.{ScenarioParts};
ghost use Rattle.scenario_text.specs.declared.scenario_line.ScenarioLine.TheVariants.{Profile as ProfileLine, Contend, Frames, Host};

mod script_lines;
mod trace_lines;

use crate::known_nodes::is_id;
use crate::network_draft::NetworkDraft;
use crate::scenario::Scenario;
use crate::scenario_line::ScenarioLine;
use crate::{FaultKind, ScriptLine};
use lwb_base::{LAST_RANK, MOST_FRAMES, NodeId, PLACES_BY_ID, Profile};
use std::alloc::Global;
use std::marker::Model;
use text_readers::{Draft, Refusal};

/// What the lines of a scenario say so far.
#[derive(Drop)]
pub struct ScenarioDraft {
    network: NetworkDraft,
    // No line is above; and the last line above is `profile 2`.
    first: bool,
    after_two: bool,
    profile: Profile,
    frames: Option<u32>,
    hosts: Vec<NodeId>,
    script: Vec<ScriptLine>,
    // For each id, whether the node is on, and how often it booted.
    on: [bool; PLACES_BY_ID],
    boots: [u8; PLACES_BY_ID],
}

impl Model for ScenarioDraft {
    ghost use Rattle.scenario_text.specs.ScenarioGrammar.{Scenario};

    ghost Value = { Scenario };

    ghost view = { λ d. record {
      network = d.network;
      first = d.first;
      after_two = d.after_two;
      profile = d.profile;
      frames = d.frames;
      hosts = d.hosts.items;
      script = d.script.items;
      on = d.on;
      boots = d.boots;
    } };
}

impl Draft for ScenarioDraft {
    ghost after = { scenario_after_words };

    #[tactic(auto, unfolding(crate::specs::ScenarioGrammar::scenario_after_words))]
    fn read(&mut self, words: &[&[u8]]) -> Result<(), Refusal> {
        let line = ScenarioLine::new(words)?;
        self.add(line)
    }
}

impl ScenarioDraft {
    /// A draft of no lines, with the most script lines that there may be. It takes no memory.
    pub fn new(alloc: Global, most_script_lines: u32) -> ScenarioDraft
        ensures { result ≡ no_scenario most_script_lines }
    {
        ScenarioDraft {
            network: NetworkDraft::new(alloc, most_script_lines),
            first: true,
            after_two: false,
            profile: Profile::one(),
            frames: None,
            hosts: Vec::new(alloc),
            script: Vec::new(alloc),
            on: [false; PLACES_BY_ID],
            boots: [0; PLACES_BY_ID],
        }
    }

    fn add(&mut self, line: ScenarioLine) -> Result<(), Refusal>
        ensures fault { Refuses result (line_fault self.old line) }
        ensures added { OnOk result (self.new ≡ with_scenario_line self.old line) }
    {
        let is_two = line.is_profile_two();
        self.add_line(line)?;
        self.first = false;
        self.after_two = is_two;
        Ok(())
    }

    fn add_line(&mut self, line: ScenarioLine) -> Result<(), Refusal>
        ensures fault { Refuses result (line_fault self.old line) }
        ensures added { OnOk result (self.new ≡ line_added self.old line) }
    {
        match line {
            ScenarioLine::InNetwork(line) => self.network.add(last_tick(&self.profile), line),
            ScenarioLine::Profile { number } => self.add_profile(number),
            ScenarioLine::Contend { slots } => self.add_contend(slots),
            ScenarioLine::Frames { count } => self.add_frames(count),
            ScenarioLine::Host { rank, id } => self.add_host(rank, id),
            ScenarioLine::Script { frame, id, act } => self.add_act(frame, id, act),
            ScenarioLine::Lose {
                frame,
                slot,
                step,
                from,
                to,
            } => self.add_loss(frame, slot, step, from, to),
            ScenarioLine::Cut {
                frame,
                slot,
                step,
                id,
            } => self.add_cut(frame, slot, step, id),
            ScenarioLine::Capture {
                frame,
                slot,
                step,
                at,
                from,
            } => self.add_capture(frame, slot, step, at, from),
        }
    }

    /// What the text says, or what it misses at its end, or that nodes times frames is above `most`. The text is one whose
    /// lines say this.
    pub fn finish(self, alloc: Global, most: u32) -> Result<Scenario, Refusal>
        requires said { (s : ScenarioParts) → whole_within most self ≡ Ok s → IsScenario s }
        requires sound { IsScenarioDraft self }
        ensures { Finishes result (whole_within most self) }
    {
        let (sends, frames) = self.whole_numbers(most)?;
        let ScenarioDraft {
            network,
            profile,
            hosts,
            script,
            ..
        } = self;
        let network = network.finish(alloc, sends)?;
        Ok(Scenario::of_network(profile, frames, network, hosts, script))
    }

    // How often a node sends, and the number of frames, unless something is missing or too big.
    fn whole_numbers(&self, most: u32) -> Result<(u8, u32), FaultKind>
        ensures fault { IfErr result (λ k. whole_within most self.now ≡ Err k) }
        ensures two { IsOk result → 2 ≤ length self.now.network.nodes }
        ensures value { IfOk result (λ n. whole_within most self.now ≡ Ok (record {
          profile = self.now.profile;
          frames = n.1;
          sends = n.0;
          nodes = self.now.network.nodes;
          rates = rates_by_node self.now.network.nodes self.now.network.rates;
          hosts = self.now.hosts;
          trace = self.now.network.trace;
          script = self.now.script;
        })) }
    {
        let Some(sends) = self.network.whole_sends() else {
            return Err(FaultKind::Missing);
        };
        let Some(frames) = self.frames else {
            return Err(FaultKind::Missing);
        };
        if self.hosts.is_empty() {
            return Err(FaultKind::Missing);
        }
        if self.network.count().saturating_mul(frames as usize) > most as usize {
            return Err(FaultKind::TooBig);
        }
        Ok((sends, frames))
    }

    fn add_profile(&mut self, profile: u64) -> Result<(), Refusal>
        ensures fault { Refuses result (line_fault self.old (ProfileLine profile)) }
        ensures added { OnOk result (self.new ≡ line_added self.old (ProfileLine profile)) }
    {
        if profile < 1 || profile > 2 {
            return Err(Refusal::Fault(FaultKind::Range));
        }
        if !self.first {
            return Err(Refusal::Fault(FaultKind::Order));
        }
        self.profile = if profile == 2 {
            Profile::two()
        } else {
            Profile::one()
        };
        Ok(())
    }

    fn add_contend(&mut self, slots: u64) -> Result<(), Refusal>
        ensures fault { Refuses result (line_fault self.old (Contend slots)) }
        ensures added { OnOk result (self.new ≡ line_added self.old (Contend slots)) }
    {
        if slots < 1 || slots > 4 {
            return Err(Refusal::Fault(FaultKind::Range));
        }
        if !self.after_two {
            return Err(Refusal::Fault(FaultKind::Order));
        }
        self.profile = Profile::contended(slots as u8);
        Ok(())
    }

    fn add_frames(&mut self, frames: u64) -> Result<(), Refusal>
        ensures fault { Refuses result (line_fault self.old (Frames frames)) }
        ensures added { OnOk result (self.new ≡ line_added self.old (Frames frames)) }
    {
        if frames < 1 || frames > MOST_FRAMES as u64 {
            return Err(Refusal::Fault(FaultKind::Range));
        }
        if self.frames.is_some() {
            return Err(Refusal::Fault(FaultKind::Twice));
        }
        self.frames = Some(frames as u32);
        Ok(())
    }

    fn add_host(&mut self, rank: u64, id: u64) -> Result<(), Refusal>
        ensures fault { Refuses result (line_fault self.old (Host rank id)) }
        ensures added { OnOk result (self.new ≡ line_added self.old (Host rank id)) }
    {
        let node = self.new_host(rank, id)?;
        self.hosts.push(node)?;
        Ok(())
    }

    // The node that becomes the host of that rank.
    fn new_host(&self, rank: u64, id: u64) -> Result<NodeId, FaultKind>
        ensures fault { RefusesBy result (line_fault self.now (Host rank id)) }
        ensures value { IfOk result (λ node. node ≡ id) }
    {
        if rank > u64::from(LAST_RANK) || !is_id(id) {
            return Err(FaultKind::Range);
        }
        let Some(node) = self.network.node(id) else {
            return Err(FaultKind::UnknownNode);
        };
        let count = self.hosts.len() as u64;
        if rank > count {
            return Err(FaultKind::Order);
        }
        if rank < count || is_host(&self.hosts, node) {
            return Err(FaultKind::Twice);
        }
        Ok(node)
    }

    // The frame of that number, which is below the number of frames once that is known.
    fn frame(&self, frame: u64) -> Option<u32>
        ensures { result ≡ (if is_frame self.now.frames frame then Some frame else None) }
    {
        match self.frames {
            Some(frames) => {
                if frame < u64::from(frames) {
                    Some(frame as u32)
                } else {
                    None
                }
            }
            None => {
                if frame <= 4_095 {
                    Some(frame as u32)
                } else {
                    None
                }
            }
        }
    }
}

// The end of the last frame that a scenario may have.
fn last_tick(profile: &Profile) -> u64
    ensures { result ≡ last_tick_of profile.now }
{
    MOST_FRAMES as u64 * profile.frame()
}

fn is_host(hosts: &[NodeId], node: NodeId) -> bool
    ensures { result ≡ list_any (λ h. h == node) hosts.now }
{
    hosts.contains(&node)
}
