//! The script lines of a scenario: which nodes are powered on and off, and what they have to do.

ghost use Rattle.std.specs.Prelude.{◌≡◌, ◌&&◌, ◌||◌, [], ◌∷◌, true, IfOk, OnOk, nat_lt, nat_le};
ghost use Rattle.std.specs.Option.{option_map_or};
ghost use Rattle.lwb_base.specs.declared.limits.TheConstants.{MOST_BOOTS};
ghost use Rattle.scenario_text.specs.FloodParts.{knows};
ghost use Rattle.text_readers.specs.Faults.{first_fault, Refuses, RefusesBy};
ghost use Rattle.scenario_text.specs.Network.{has_script_room, is_id as is_id_of};
ghost use Rattle.scenario_text.specs.ScenarioGrammar.{line_fault, line_added, last_script_line, is_frame, in_script_order};
ghost use Rattle.scenario_text.specs.ScenarioGrammar.{may_take, with_act, with_boot, with_power, node_is_on, boots_of};
ghost use Rattle.text_readers.specs.declared.fault.FaultKind.TheVariants.{Range, UnknownNode, Order, TooMany};
ghost use Rattle.scenario_text.specs.declared.scenario_line.ScenarioLine.TheVariants.{Script};

use super::ScenarioDraft;
use crate::known_nodes::is_id;
use crate::written_act::WrittenAct;
use crate::{Act, FaultKind, ScriptLine};
use lwb_base::{MOST_BOOTS, NodeId};
use text_readers::Refusal;

impl ScenarioDraft {
    // A node is given something to do.
    pub(super) fn add_act(&mut self, frame: u64, id: u64, act: WrittenAct) -> Result<(), Refusal>
        ensures fault { Refuses result (line_fault self.old (Script frame id act)) }
        ensures added { OnOk result (self.new ≡ line_added self.old (Script frame id act)) }
    {
        let act = act.in_range(&self.profile)?;
        let (frame, node) = self.told_node(frame, id)?;
        if !self.may_take(node, &act) {
            return Err(Refusal::Fault(FaultKind::TooMany));
        }
        self.switch(node, &act);
        self.push_act(frame, node, act)
    }

    // The frame and the node of a line of the script, where nodes are given something.
    fn told_node(&self, frame: u64, id: u64) -> Result<(u32, NodeId), FaultKind>
        ensures fault { RefusesBy result (first_fault ((is_frame self.now.frames frame && is_id_of id, Range)
            ∷ (knows self.now.network.nodes id, UnknownNode) ∷ (in_script_order self.now frame, Order) ∷ [])) }
        ensures value { IfOk result (λ told. told ≡ (frame, id)) }
    {
        let Some(frame) = self.frame(frame) else {
            return Err(FaultKind::Range);
        };
        if !is_id(id) {
            return Err(FaultKind::Range);
        }
        let Some(node) = self.network.node(id) else {
            return Err(FaultKind::UnknownNode);
        };
        if !self.is_in_order(frame) {
            return Err(FaultKind::Order);
        }
        Ok((frame, node))
    }

    // Whether frames are given, and no line of the script is of a later frame.
    fn is_in_order(&self, frame: u32) -> bool
        ensures { result ≡ in_script_order self.now frame }
    {
        self.frames.is_some() && is_last(&self.script, frame)
    }

    // Whether it does not boot once too often by that.
    fn may_take(&self, node: NodeId, act: &Act) -> bool
        ensures { result ≡ may_take self.now node act.now }
    {
        let id = usize::from(node.number());
        match act {
            Act::On => self.on[id] || self.boots[id] < MOST_BOOTS,
            _ => true,
        }
    }

    // The node is on or off by that, or stays as it is.
    fn switch(&mut self, node: NodeId, act: &Act)
        requires { may_take self.old node act.now ≡ true }
        ensures power { self.new ≡ with_power self.old node act.now }
        ensures network { self.new.network ≡ self.old.network }
    {
        let id = usize::from(node.number());
        match act {
            Act::On => self.boot(node),
            Act::Off => self.on[id] = false,
            _ => {}
        }
    }

    fn boot(&mut self, node: NodeId)
        requires { (node_is_on self.old node || nat_lt (boots_of self.old node) MOST_BOOTS) ≡ true }
        ensures { self.new ≡ with_boot self.old node }
    {
        let id = usize::from(node.number());
        if !self.on[id] {
            self.boots[id] += 1;
        }
        self.on[id] = true;
    }

    // One line of the script more, if there is room.
    fn push_act(&mut self, frame: u32, node: NodeId, act: Act) -> Result<(), Refusal>
        ensures fault { Refuses result (first_fault ((has_script_room self.old.network, TooMany) ∷ [])) }
        ensures added { OnOk result (self.new ≡ with_act self.old frame node act) }
    {
        self.network.count_script_line()?;
        self.script.push(ScriptLine { frame, node, act })?;
        Ok(())
    }
}

// Whether no line is of a later frame, where their frames ascend.
fn is_last(script: &[ScriptLine], frame: u32) -> bool
    ensures { result ≡ option_map_or (λ l. nat_le l.frame frame) (last_script_line script.now) true }
{
    match script.last() {
        Some(line) => line.frame <= frame,
        None => true,
    }
}
