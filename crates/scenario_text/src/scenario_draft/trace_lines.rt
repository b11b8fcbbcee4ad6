//! The lines of a scenario that its trace is of: losses, cuts and captures, each in a step of a slot.

ghost use Rattle.std.specs.Prelude.{◌≡◌, ◌+◌, ◌≤◌, ◌&&◌, true, if◌then◌else◌, is_some, Some, None, IsOk, IfOk, IfErr, OnOk};
ghost use Rattle.lwb_base.specs.declared.limits.TheConstants.{DATA_SLOTS};
ghost use Rattle.text_readers.specs.Faults.{Refuses};
ghost use Rattle.scenario_text.specs.FloodParts.{knows};
ghost use Rattle.scenario_text.specs.Network.{are_ends, is_id as is_id_of};
ghost use Rattle.scenario_text.specs.ScenarioGrammar.{line_fault, line_added, greatest_slot_of as last_slot_of, is_step};
ghost use Rattle.scenario_text.specs.declared.scenario_line.ScenarioLine.TheVariants.{Lose, Cut, Capture};

use super::ScenarioDraft;
use crate::FaultKind;
use crate::known_nodes::is_id;
use lwb_base::{LAST_STEP, NodeId, Profile, greatest_slot};
use text_readers::Refusal;

impl ScenarioDraft {
    pub(super) fn add_loss(
        &mut self,
        frame: u64,
        slot: u64,
        step: u64,
        from: u64,
        to: u64,
    ) -> Result<(), Refusal>
        ensures fault { Refuses result (line_fault self.old (Lose frame slot step from to)) }
        ensures added { OnOk result (self.new ≡ line_added self.old (Lose frame slot step from to)) }
    {
        let ((frame, slot, step), (from, to)) = self.told_link(frame, slot, step, from, to)?;
        self.network.lose(frame, slot, step, from, to)
    }

    pub(super) fn add_cut(
        &mut self,
        frame: u64,
        slot: u64,
        step: u64,
        id: u64,
    ) -> Result<(), Refusal>
        ensures fault { Refuses result (line_fault self.old (Cut frame slot step id)) }
        ensures added { OnOk result (self.new ≡ line_added self.old (Cut frame slot step id)) }
    {
        let ((frame, slot, step), node) = self.told_cut(frame, slot, step, id)?;
        self.network.cut(frame, slot, step, node)
    }

    // The step and the node of a line that cuts a node off.
    fn told_cut(
        &self,
        frame: u64,
        slot: u64,
        step: u64,
        id: u64,
    ) -> Result<((u32, u8, u8), NodeId), FaultKind>
        ensures fault { IfErr result (λ k. line_fault self.now (Cut frame slot step id) ≡ Some k) }
        ensures in_range { IsOk result → (is_step self.now frame slot step && is_id_of id) ≡ true }
        ensures known { IsOk result → knows self.now.network.nodes id ≡ true }
        ensures framed { IsOk result → is_some self.now.frames ≡ true }
        ensures value { IfOk result (λ told. told ≡ ((frame, slot, step), id)) }
    {
        let Some(told_step) = self.step(frame, slot, step) else {
            return Err(FaultKind::Range);
        };
        if !is_id(id) {
            return Err(FaultKind::Range);
        }
        let Some(node) = self.network.node(id) else {
            return Err(FaultKind::UnknownNode);
        };
        if self.frames.is_none() {
            return Err(FaultKind::Order);
        }
        Ok((told_step, node))
    }

    pub(super) fn add_capture(
        &mut self,
        frame: u64,
        slot: u64,
        step: u64,
        at: u64,
        from: u64,
    ) -> Result<(), Refusal>
        ensures fault { Refuses result (line_fault self.old (Capture frame slot step at from)) }
        ensures added { OnOk result (self.new ≡ line_added self.old (Capture frame slot step at from)) }
    {
        let ((frame, slot, step), (at, from)) = self.told_link(frame, slot, step, at, from)?;
        self.network.capture(frame, slot, step, at, from)
    }

    // The step and the two nodes of a line that names these.
    fn told_link(
        &self,
        frame: u64,
        slot: u64,
        step: u64,
        one: u64,
        other: u64,
    ) -> Result<((u32, u8, u8), (NodeId, NodeId)), FaultKind>
        ensures loss { IfErr result (λ k. line_fault self.now (Lose frame slot step one other) ≡ Some k) }
        ensures capture { IfErr result (λ k. line_fault self.now (Capture frame slot step one other) ≡ Some k) }
        ensures in_range { IsOk result → (is_step self.now frame slot step && are_ends one other) ≡ true }
        ensures known { IsOk result → (knows self.now.network.nodes one && knows self.now.network.nodes other) ≡ true }
        ensures framed { IsOk result → is_some self.now.frames ≡ true }
        ensures value { IfOk result (λ told. told ≡ ((frame, slot, step), (one, other))) }
    {
        let Some(told_step) = self.step(frame, slot, step) else {
            return Err(FaultKind::Range);
        };
        let ends = self.network.ends(one, other)?;
        if self.frames.is_none() {
            return Err(FaultKind::Order);
        }
        Ok((told_step, ends))
    }

    // A step of a slot of a frame.
    fn step(&self, frame: u64, slot: u64, step: u64) -> Option<(u32, u8, u8)>
        ensures { result ≡ (if is_step self.now frame slot step then Some (frame, slot, step) else None) }
    {
        let frame = self.frame(frame)?;
        if slot > last_slot(&self.profile) || step > u64::from(LAST_STEP) {
            return None;
        }
        Some((frame, slot as u8, step as u8))
    }
}

fn last_slot(profile: &Profile) -> u64
    ensures value { result ≡ last_slot_of profile.now }
    ensures small { result ≤ DATA_SLOTS + 5 }
{
    u64::from(greatest_slot(profile.contend()))
}
