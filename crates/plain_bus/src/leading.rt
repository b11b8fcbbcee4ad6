//! Who leads the round of a rank, and what its slots are for.

ghost use Rattle.std.specs.Prelude.{◌≡◌, ◌≤◌, ℕ, find, IfOk, IfSome, length};
ghost use Rattle.std.specs.Option.{option_map};
ghost use Rattle.bus_rules.specs.States.{State};
ghost use Rattle.bus_terms.specs.Rounds.{round_plan};
ghost use Rattle.scenario_text.specs.ScenarioParts.{ScenarioParts};
ghost use Rattle.plain_bus.specs.BusNodes.{nodes_in};
ghost use Rattle.plain_bus.specs.Leaders.{leads, holds, parts_at, parts_in, slot_parts};

use crate::node::BusNode;
use bus_rules::{Part, Tune};
use lwb_base::{Memory, Rank};
use lwb_member::Member;
use std::alloc::Global;

/// What the slots are for in the round of this rank and frame, by slot, as its host has it if it is due, or else the
/// synchronized member with the least id. Returns `Ok(None)` if and only if there is no round. `Err` means out of memory.
pub fn parts_of_round(
    alloc: Global,
    nodes: &[BusNode],
    rank: Rank,
    frame: u32,
) -> Result<Option<Vec<Part>>, Memory>
    ensures few { IfOk result (λ o. IfSome o (λ x. length x.items ≤ 46)) }
    ensures parts { IfOk result (λ o. (s : ScenarioParts) (start others : ℕ → State) → nodes.now ≡ nodes_in s rank start start others
        → option_map (λ x. x.items) o ≡ option_map slot_parts (round_plan s rank frame start)) }
{
    match parts_of_host(alloc, nodes, rank, frame)? {
        Some(parts) => Ok(Some(parts)),
        None => parts_of_holder(alloc, nodes, rank, frame),
    }
}

fn parts_of_host(
    alloc: Global,
    nodes: &[BusNode],
    rank: Rank,
    frame: u32,
) -> Result<Option<Vec<Part>>, Memory>
    ensures few { IfOk result (λ o. IfSome o (λ x. length x.items ≤ 46)) }
    ensures parts { IfOk result (λ o. option_map (λ x. x.items) o ≡ option_map parts_at (find (leads rank frame) nodes.now)) }
{
    for node in nodes {
        if node.leads(rank, frame) {
            return Ok(Some(node.parts(alloc)?));
        }
    }
    Ok(None)
}

fn parts_of_holder(
    alloc: Global,
    nodes: &[BusNode],
    rank: Rank,
    frame: u32,
) -> Result<Option<Vec<Part>>, Memory>
    ensures few { IfOk result (λ o. IfSome o (λ x. length x.items ≤ 46)) }
    ensures parts { IfOk result (λ o. option_map (λ x. x.items) o ≡ option_map parts_at (find (holds rank frame) nodes.now)) }
{
    for node in nodes {
        if node.holds(rank, frame) {
            return Ok(Some(node.parts(alloc)?));
        }
    }
    Ok(None)
}

impl BusNode {
    // It hosts this rank, and its round is that of this frame.
    fn leads(&self, rank: Rank, frame: u32) -> bool
        ensures { result ≡ leads rank frame self.now }
    {
        if self.rank != rank || !self.is_on {
            return false;
        }
        match self.member.tune() {
            Tune::Host(own, due) => own == rank && due == frame,
            Tune::Hold(..) | Tune::Scan(..) => false,
        }
    }

    // It holds a plan of this rank for this frame.
    fn holds(&self, rank: Rank, frame: u32) -> bool
        ensures { result ≡ holds rank frame self.now }
    {
        if self.rank != rank || !self.is_on {
            return false;
        }
        match self.member.tune() {
            Tune::Hold(own, due) => own == rank && due == frame,
            Tune::Host(..) | Tune::Scan(..) => false,
        }
    }

    // What the slots of the round of its plan are for; none where it is off.
    fn parts(&self, alloc: Global) -> Result<Vec<Part>, Memory>
        ensures few { IfOk result (λ x. length x.items ≤ 46) }
        ensures parts { IfOk result (λ x. x.items ≡ parts_in self.now.state) }
    {
        if !self.is_on {
            return Ok(Vec::new(alloc));
        }
        parts_of_member(alloc, &self.member)
    }
}

// What the slots of the round of its plan are for.
fn parts_of_member(alloc: Global, member: &Member) -> Result<Vec<Part>, Memory>
    ensures few { IfOk result (λ x. length x.items ≤ 46) }
    ensures parts { IfOk result (λ x. x.items ≡ slot_parts member.now.core.plan) }
{
    let mut parts = Vec::new(alloc);
    let count = member.last_slot() + 1;
    for slot in 0..count {
        parts.push(member.part(slot))?;
    }
    Ok(parts)
}
