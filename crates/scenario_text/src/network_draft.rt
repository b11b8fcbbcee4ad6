//! What the lines that floods and scenarios have in common say so far.

ghost use Rattle.std.specs.Prelude.{◌≡◌, ◌≢◌, ◌≤◌, ◌&&◌, not, if◌then◌else◌, [], ◌∷◌, Ok, Some, None, true, IfOk, OnOk, IfSome, IfNone, length, nat_lt};
ghost use Rattle.std.specs.Option.{option_map_or};
ghost use Rattle.scenario_text.specs.FloodDrafts.{IsNetwork};
ghost use Rattle.scenario_text.specs.FloodParts.{knows as knows_of};
ghost use Rattle.scenario_text.specs.Network.{no_network, network_parts, network_fault, has_link, has_loss, has_cut, has_capture, has_script_room};
ghost use Rattle.scenario_text.specs.Network.{are_ends, last_rate, rates_by_node};
ghost use Rattle.scenario_text.specs.Network.{with_network_line, with_node, with_link_to, with_loss_at, with_cut_at, with_capture_at, with_script_line};
ghost use Rattle.text_readers.specs.Faults.{first_fault, Refuses, RefusesBy};
ghost use Rattle.text_readers.specs.declared.fault.FaultKind.TheVariants.{Range, UnknownNode, Order, Twice, TooMany};
ghost use Rattle.scenario_text.specs.declared.network_line.NetworkLine.TheVariants.{Sends, Node, Rate, Link, Pair};

use crate::known_nodes::{are_two_ids, count_below, is_id, known, node_id, two_nodes};
use crate::network::Network;
use crate::network_line::NetworkLine;
use crate::rates::{by_node, is_later, ppm};
use crate::sealing::seal;
use crate::{FaultKind, NodeLine, RateLine};
use link_trace::Trace;
use lwb_base::{DRIFT_BOUND, MOST_NODES, MOST_RANKS, Memory, NodeId};
use std::alloc::Global;
use std::marker::Model;
use text_readers::Refusal;

/// What the lines that both texts have say so far. The rates are in the order of the text.
#[derive(Drop)]
pub struct NetworkDraft {
    sends: Option<u8>,
    nodes: Vec<NodeLine>,
    rates: Vec<RateLine>,
    trace: Trace,
    scripted: u32,
    // The most script lines that there may be.
    most: u32,
}

impl Model for NetworkDraft {
    ghost use Rattle.scenario_text.specs.Network.{DraftedNetwork};

    ghost Value = { DraftedNetwork };

    ghost view = { λ d. record { sends = d.sends; nodes = d.nodes.items; rates = d.rates.items; trace = d.trace.lines; scripted = d.scripted; most = d.most } };
}

impl NetworkDraft {
    /// A draft of no lines, with the most script lines that there may be. It takes no memory.
    pub fn new(alloc: Global, most_script_lines: u32) -> NetworkDraft
        ensures { result ≡ no_network most_script_lines }
    {
        NetworkDraft {
            sends: None,
            nodes: Vec::new(alloc),
            rates: Vec::new(alloc),
            trace: Trace::new(alloc),
            scripted: 0,
            most: most_script_lines,
        }
    }

    /// Goes on by one line, unless it is rejected. No tick may be above the last tick.
    pub fn add(&mut self, last_tick: u64, line: NetworkLine) -> Result<(), Refusal>
        ensures fault { Refuses result (network_fault last_tick self.old line) }
        ensures added { OnOk result (self.new ≡ with_network_line self.old line) }
    {
        match line {
            NetworkLine::Sends { count } => self.add_sends(count),
            NetworkLine::Node { id, offset } => self.add_node(id, offset),
            NetworkLine::Rate {
                id,
                tick,
                slow,
                parts,
            } => self.add_rate(last_tick, id, tick, slow, parts),
            NetworkLine::Link { from, to } => self.add_link(from, to),
            NetworkLine::Pair { one, other } => self.add_pair(one, other),
        }
    }

    /// How often a node sends, if that is said and there are two nodes.
    pub fn whole_sends(&self) -> Option<u8>
        ensures some { IfSome result (λ n. (self.now.sends ≡ Some n) × (2 ≤ length self.now.nodes)) }
        ensures none { IfNone result (network_parts self.now self.now.sends ≡ None) }
    {
        let sends = self.sends?;
        if self.nodes.len() < 2 {
            None
        } else {
            Some(sends)
        }
    }

    /// How many nodes there are.
    pub fn count(&self) -> usize
        ensures { result ≡ length self.now.nodes }
    {
        self.nodes.len()
    }

    /// What the lines say of two nodes or more that send that often: the nodes by id, their rates by node and tick, and the trace.
    pub fn finish(mut self, alloc: Global, sends: u8) -> Result<Network, Memory>
        requires sound { IsNetwork self }
        requires two { 2 ≤ length self.nodes }
        ensures { IfOk result (λ p. p ≡ record { sends = sends; nodes = self.nodes; rates = rates_by_node self.nodes self.rates; trace = self.trace }) }
    {
        self.rates = by_node(alloc, &self.nodes, &self.rates)?;
        seal(alloc, &mut self.trace, &self.nodes)?;
        let NetworkDraft {
            nodes,
            rates,
            trace,
            ..
        } = self;
        Ok(Network {
            sends,
            nodes,
            rates,
            trace,
        })
    }

    /// The node of that id, if it has a line.
    pub fn node(&self, id: u64) -> Option<NodeId>
        ensures { result ≡ (if knows_of self.now.nodes id then Some id else None) }
    {
        known(&self.nodes, id)
    }

    /// The two ends of a link, by their ids. `Range` unless these are ids that differ, and else `UnknownNode` unless both have
    /// lines.
    pub fn ends(&self, from: u64, to: u64) -> Result<(NodeId, NodeId), FaultKind>
        ensures fault { RefusesBy result (first_fault ((are_ends from to, Range)
            ∷ (knows_of self.now.nodes from && knows_of self.now.nodes to, UnknownNode) ∷ [])) }
        ensures value { IfOk result (λ ends. ends ≡ (from, to)) }
    {
        if !are_two_ids(from, to) {
            return Err(FaultKind::Range);
        }
        match two_nodes(&self.nodes, from, to) {
            Some(ends) => Ok(ends),
            None => Err(FaultKind::UnknownNode),
        }
    }

    /// Goes on by a script line that loses a link in one step.
    pub fn lose(
        &mut self,
        frame: u32,
        slot: u8,
        step: u8,
        from: NodeId,
        to: NodeId,
    ) -> Result<(), Refusal>
        ensures fault { Refuses result (first_fault ((not (has_loss self.old.trace frame slot step from to), Twice)
            ∷ (has_script_room self.old, TooMany) ∷ [])) }
        ensures added { OnOk result (self.new ≡ with_script_line self.old (with_loss_at frame slot step from to self.old.trace)) }
    {
        let is_new = lose(&mut self.trace, frame, slot, step, from, to)?;
        self.count_new_line(is_new)
    }

    /// Goes on by a script line that cuts a node off from one step on.
    pub fn cut(&mut self, frame: u32, slot: u8, step: u8, node: NodeId) -> Result<(), Refusal>
        ensures fault { Refuses result (first_fault ((not (has_cut self.old.trace frame slot step node), Twice)
            ∷ (has_script_room self.old, TooMany) ∷ [])) }
        ensures added { OnOk result (self.new ≡ with_script_line self.old (with_cut_at frame slot step node self.old.trace)) }
    {
        let is_new = cut(&mut self.trace, frame, slot, step, node)?;
        self.count_new_line(is_new)
    }

    /// Goes on by a script line that names the sender from which a node receives in one step where several meet.
    pub fn capture(
        &mut self,
        frame: u32,
        slot: u8,
        step: u8,
        at: NodeId,
        from: NodeId,
    ) -> Result<(), Refusal>
        ensures fault { Refuses result (first_fault ((not (has_capture self.old.trace frame slot step at), Twice)
            ∷ (has_script_room self.old, TooMany) ∷ [])) }
        ensures added { OnOk result (self.new ≡ with_script_line self.old (with_capture_at frame slot step at from self.old.trace)) }
    {
        let is_new = capture(&mut self.trace, frame, slot, step, at, from)?;
        self.count_new_line(is_new)
    }

    // One script line more, if it is new and there is room.
    fn count_new_line(&mut self, is_new: bool) -> Result<(), Refusal>
        ensures fault { Refuses result (first_fault ((is_new, Twice) ∷ (has_script_room self.old, TooMany) ∷ [])) }
        ensures added { OnOk result (self.new ≡ with_script_line self.old self.old.trace) }
    {
        if !is_new {
            return Err(Refusal::Fault(FaultKind::Twice));
        }
        self.count_script_line()
    }

    /// One script line more, if there is room.
    pub fn count_script_line(&mut self) -> Result<(), Refusal>
        ensures fault { Refuses result (first_fault ((has_script_room self.old, TooMany) ∷ [])) }
        ensures added { OnOk result (self.new ≡ with_script_line self.old self.old.trace) }
    {
        if self.scripted >= self.most {
            return Err(Refusal::Fault(FaultKind::TooMany));
        }
        self.scripted += 1;
        Ok(())
    }

    fn add_sends(&mut self, count: u64) -> Result<(), Refusal>
        ensures fault { Refuses result (network_fault 0 self.old (Sends count)) }
        ensures added { OnOk result (self.new ≡ with_network_line self.old (Sends count)) }
    {
        if count < 1 || count > MOST_RANKS as u64 {
            return Err(Refusal::Fault(FaultKind::Range));
        }
        if self.sends.is_some() {
            return Err(Refusal::Fault(FaultKind::Twice));
        }
        self.sends = Some(count as u8);
        Ok(())
    }

    fn add_node(&mut self, id: u64, offset: u64) -> Result<(), Refusal>
        ensures fault { Refuses result (network_fault 0 self.old (Node id offset)) }
        ensures added { OnOk result (self.new ≡ with_network_line self.old (Node id offset)) }
    {
        let node = self.new_node(id, offset)?;
        let place = count_below(&self.nodes, node);
        self.nodes.insert(place, NodeLine { node, offset })?;
        Ok(())
    }

    // The node that a line adds.
    fn new_node(&self, id: u64, offset: u64) -> Result<NodeId, FaultKind>
        ensures fault { RefusesBy result (network_fault 0 self.now (Node id offset)) }
        ensures value { IfOk result (λ node. node ≡ id) }
    {
        let Some(node) = node_id(id) else {
            return Err(FaultKind::Range);
        };
        if offset > 256_000 {
            return Err(FaultKind::Range);
        }
        if known(&self.nodes, id).is_some() {
            return Err(FaultKind::Twice);
        }
        if self.nodes.len() >= MOST_NODES {
            return Err(FaultKind::TooMany);
        }
        Ok(node)
    }

    fn add_rate(
        &mut self,
        last_tick: u64,
        id: u64,
        tick: u64,
        slow: bool,
        parts: u64,
    ) -> Result<(), Refusal>
        ensures fault { Refuses result (network_fault last_tick self.old (Rate id tick slow parts)) }
        ensures added { OnOk result (self.new ≡ with_network_line self.old (Rate id tick slow parts)) }
    {
        if !is_id(id) || tick > last_tick || parts > u64::from(DRIFT_BOUND) {
            return Err(Refusal::Fault(FaultKind::Range));
        }
        let node = self.node_of_rate(id, tick)?;
        self.count_script_line()?;
        let ppm = ppm(slow, parts as u8);
        self.rates.push(RateLine {
            node,
            from: tick,
            ppm,
        })?;
        Ok(())
    }

    // The node whose clock changes its rate at that tick.
    fn node_of_rate(&self, id: u64, tick: u64) -> Result<NodeId, FaultKind>
        ensures fault { RefusesBy result (first_fault ((knows_of self.now.nodes id, UnknownNode)
            ∷ (option_map_or (λ r. nat_lt r.from tick) (last_rate self.now.rates id) true, Order) ∷ [])) }
        ensures value { IfOk result (λ node. node ≡ id) }
    {
        let Some(node) = known(&self.nodes, id) else {
            return Err(FaultKind::UnknownNode);
        };
        if is_later(&self.rates, node, tick) {
            Ok(node)
        } else {
            Err(FaultKind::Order)
        }
    }

    fn add_link(&mut self, from: u64, to: u64) -> Result<(), Refusal>
        ensures fault { Refuses result (network_fault 0 self.old (Link from to)) }
        ensures added { OnOk result (self.new ≡ with_network_line self.old (Link from to)) }
    {
        let (from, to) = self.ends(from, to)?;
        let is_new = link(&mut self.trace, from, to)?;
        if is_new {
            Ok(())
        } else {
            Err(Refusal::Fault(FaultKind::Twice))
        }
    }

    fn add_pair(&mut self, one_end: u64, other_end: u64) -> Result<(), Refusal>
        ensures fault { Refuses result (network_fault 0 self.old (Pair one_end other_end)) }
        ensures added { OnOk result (self.new ≡ with_network_line self.old (Pair one_end other_end)) }
    {
        let (one, other) = self.ends(one_end, other_end)?;
        let is_new = pair(&mut self.trace, one, other)?;
        if is_new {
            Ok(())
        } else {
            Err(Refusal::Fault(FaultKind::Twice))
        }
    }
}

fn link(trace: &mut Trace, from: NodeId, to: NodeId) -> Result<bool, Memory>
    ensures fresh { IfOk result (λ b. b ≡ not (has_link trace.old.lines from to)) }
    ensures added { result ≡ Ok true → trace.new.lines ≡ with_link_to from to trace.old.lines }
{
    trace.link(from, to)
}

// Both links of two nodes, which differ.
#[tactic(auto, using(crate::proofs::LinksBack::link_back))]
fn pair(trace: &mut Trace, one: NodeId, other: NodeId) -> Result<bool, Memory>
    requires { one ≢ other }
    ensures fresh { IfOk result (λ b. b ≡ (not (has_link trace.old.lines one other) && not (has_link trace.old.lines other one))) }
    ensures added { result ≡ Ok true → trace.new.lines ≡ with_link_to other one (with_link_to one other trace.old.lines) }
{
    if !link(trace, one, other)? {
        return Ok(false);
    }
    link(trace, other, one)
}

fn lose(
    trace: &mut Trace,
    frame: u32,
    slot: u8,
    step: u8,
    from: NodeId,
    to: NodeId,
) -> Result<bool, Memory>
    ensures fresh { IfOk result (λ b. b ≡ not (has_loss trace.old.lines frame slot step from to)) }
    ensures added { result ≡ Ok true → trace.new.lines ≡ with_loss_at frame slot step from to trace.old.lines }
{
    trace.lose(frame, slot, step, from, to)
}

fn cut(trace: &mut Trace, frame: u32, slot: u8, step: u8, node: NodeId) -> Result<bool, Memory>
    ensures fresh { IfOk result (λ b. b ≡ not (has_cut trace.old.lines frame slot step node)) }
    ensures added { result ≡ Ok true → trace.new.lines ≡ with_cut_at frame slot step node trace.old.lines }
{
    trace.cut(frame, slot, step, node)
}

fn capture(
    trace: &mut Trace,
    frame: u32,
    slot: u8,
    step: u8,
    at: NodeId,
    from: NodeId,
) -> Result<bool, Memory>
    ensures fresh { IfOk result (λ b. b ≡ not (has_capture trace.old.lines frame slot step at)) }
    ensures added { result ≡ Ok true → trace.new.lines ≡ with_capture_at frame slot step at from trace.old.lines }
{
    trace.capture(frame, slot, step, at, from)
}
