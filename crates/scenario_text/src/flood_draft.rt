//! What the lines of a flood text say so far.

ghost use Rattle.std.specs.Prelude.{◌≡◌, IfOk, OnOk};
ghost use Rattle.text_readers.specs.Faults.{Refuses};
ghost use Rattle.scenario_text.specs.FloodGrammar.{no_flood, rule_fault, with_flood_line, flood_after_words, flood_of_parts};
ghost use Rattle.scenario_text.specs.FloodDrafts.{IsFloodDraft};
ghost use Rattle.scenario_text.specs.Network.{network_parts};
ghost use Rattle.scenario_text.specs.declared.flood_line.FloodLine.TheVariants.{Lose, Start};

use crate::flood_line::FloodLine;
use crate::known_nodes::is_id;
use crate::network_draft::NetworkDraft;
use crate::{FaultKind, FloodText};
use lwb_base::{LAST_STEP, MOST_SCRIPT_LINES, Memory, NodeId};
use std::alloc::Global;
use std::marker::Model;
use text_readers::{Draft, Refusal};

/// What the lines of a flood text say so far.
#[derive(Drop)]
pub struct FloodDraft {
    network: NetworkDraft,
    start: Option<NodeId>,
}

impl Model for FloodDraft {
    ghost use Rattle.scenario_text.specs.FloodGrammar.{Flood};

    ghost Value = { Flood };

    ghost view = { λ d. record { network = d.network; start = d.start } };
}

impl Draft for FloodDraft {
    ghost after = { flood_after_words };

    #[tactic(auto, unfolding(crate::specs::FloodGrammar::flood_after_words))]
    fn read(&mut self, words: &[&[u8]]) -> Result<(), Refusal> {
        let line = FloodLine::new(words)?;
        self.add(line)
    }
}

impl FloodDraft {
    /// A draft of no lines. It takes no memory.
    pub fn new(alloc: Global) -> FloodDraft
        ensures { result ≡ no_flood }
    {
        FloodDraft {
            network: NetworkDraft::new(alloc, MOST_SCRIPT_LINES as u32),
            start: None,
        }
    }

    fn add(&mut self, line: FloodLine) -> Result<(), Refusal>
        ensures fault { Refuses result (rule_fault self.old line) }
        ensures added { OnOk result (self.new ≡ with_flood_line self.old line) }
    {
        match line {
            FloodLine::InNetwork(line) => self.network.add(1_048_576_000_000, line),
            FloodLine::Lose { step, from, to } => self.add_loss(step, from, to),
            FloodLine::Start { id } => self.add_start(id),
        }
    }

    fn add_loss(&mut self, step: u64, from: u64, to: u64) -> Result<(), Refusal>
        ensures fault { Refuses result (rule_fault self.old (Lose step from to)) }
        ensures added { OnOk result (self.new ≡ with_flood_line self.old (Lose step from to)) }
    {
        if step > u64::from(LAST_STEP) {
            return Err(Refusal::Fault(FaultKind::Range));
        }
        let (from, to) = self.network.ends(from, to)?;
        self.network.lose(5, 1, step as u8, from, to)
    }

    fn add_start(&mut self, id: u64) -> Result<(), Refusal>
        ensures fault { Refuses result (rule_fault self.old (Start id)) }
        ensures added { OnOk result (self.new ≡ with_flood_line self.old (Start id)) }
    {
        if !is_id(id) {
            return Err(Refusal::Fault(FaultKind::Range));
        }
        let Some(node) = self.network.node(id) else {
            return Err(Refusal::Fault(FaultKind::UnknownNode));
        };
        if self.start.is_some() {
            return Err(Refusal::Fault(FaultKind::Twice));
        }
        self.start = Some(node);
        Ok(())
    }

    /// What the text says. Returns `None` if and only if the number of transmissions, a second node or the start is missing.
    pub fn finish(self, alloc: Global) -> Result<Option<FloodText>, Memory>
        requires { IsFloodDraft self }
        ensures { IfOk result (λ f. f ≡ flood_of_parts (network_parts self.network self.network.sends) self.start) }
    {
        let FloodDraft { network, start } = self;
        let Some(sends) = network.whole_sends() else {
            return Ok(None);
        };
        let Some(start) = start else {
            return Ok(None);
        };
        let network = network.finish(alloc, sends)?;
        Ok(Some(FloodText::of_network(network, start)))
    }
}
