//! The rounds of a frame.

ghost use Rattle.std.specs.Prelude.{◌≡◌, ◌≤◌, ◌+◌, ◌*◌, ◌++◌, ◌==◌, ℕ, List, OnOk, filter_map, flat_map, map, length, if◌then◌else◌};
ghost use Rattle.lwb_base.specs.Messages.{Plan};
ghost use Rattle.lwb_base.specs.declared.limits.TheConstants.{LAST_FRAME, LAST_RANK, MOST_RANKS};
ghost use Rattle.bus_rules.specs.Plans.{last_slot};
ghost use Rattle.bus_rules.specs.States.{State};
ghost use Rattle.bus_terms.specs.Bus.{Cost as CostOf};
ghost use Rattle.bus_terms.specs.FloodOfText.{ids};
ghost use Rattle.bus_terms.specs.Packets.{round_sent, sent_in_slot};
ghost use Rattle.bus_terms.specs.Rounds.{before_slot, round_of_rank, rounds, round_deliveries, slot_deliveries, slots_of};
ghost use Rattle.plain_bus.specs.BusNodes.{nodes_in, ranks_in, AreOffOutside, HaveRoom, HaveRoomInRound};
ghost use Rattle.plain_bus.specs.Leaders.{slot_parts};
ghost use Rattle.plain_bus.specs.Networks.{IsReady};
ghost use Rattle.plain_bus.specs.RunFloods.{HasRun, SlotFlood, slot_flood};
ghost use Rattle.bus_model.specs.FrameFloods.{frame_floods, round_floods};
ghost use Rattle.bus_model.specs.FrameNodes.{AreRanked, frame_deliveries, frame_sent, nodes_with};
ghost use Rattle.bus_model.specs.RoundCosts.{with_round, with_slots};

use bus_rules::Part;
use link_trace::Links;
use lwb_base::{Memory, Rank};
use plain_bus::{Network, parts_of_round};
use scenario_text::ScenarioOver;
use std::alloc::Global;

/// The rounds of all ranks in this frame, one after another. `Err` means out of memory.
pub fn run_rounds<M: Links>(
    alloc: Global,
    net: &mut Network,
    s: &ScenarioOver<'_, M>,
    frame: u32,
) -> Result<(), Memory>
    requires frame { frame ≤ LAST_FRAME }
    requires ready { IsReady s.now frame 1000000 net.old }
    ensures ready { OnOk result ((m : ℕ) → IsReady s.now frame m net.old → IsReady s.now frame (m + 184) net.new) }
    ensures nodes { OnOk result ((start : ℕ → State) → AreRanked s.now start → net.old.nodes ≡ nodes_with s.now (ranks_in start) start
        → ((rank : ℕ) → HaveRoomInRound s.now rank frame start) → net.new.nodes ≡ nodes_with s.now (ranks_in start) (rounds s.now frame start)) }
    ensures deliveries { OnOk result ((start : ℕ → State) → AreRanked s.now start → net.old.nodes ≡ nodes_with s.now (ranks_in start) start
        → ((rank : ℕ) → HaveRoomInRound s.now rank frame start) → net.new.deliveries ≡ net.old.deliveries ++ frame_deliveries s.now frame start) }
    ensures sent { OnOk result ((start : ℕ → State) → AreRanked s.now start → net.old.nodes ≡ nodes_with s.now (ranks_in start) start
        → ((rank : ℕ) → HaveRoomInRound s.now rank frame start) → AreOffOutside s.now start
        → net.new.sent ≡ net.old.sent ++ frame_sent s.now frame start) }
    ensures floods { OnOk result ((start : ℕ → State) (before : List SlotFlood) → AreRanked s.now start
        → net.old.nodes ≡ nodes_with s.now (ranks_in start) start → ((rank : ℕ) → HaveRoomInRound s.now rank frame start)
        → HasRun s.now frame before net.old.floods → HasRun s.now frame (before ++ frame_floods s.now frame start) net.new.floods) }
    ensures costs { OnOk result ((start : ℕ → State) (cost : ℕ → CostOf) → AreRanked s.now start → net.old.nodes ≡ nodes_with s.now (ranks_in start) start
        → ((rank : ℕ) → HaveRoomInRound s.now rank frame start) → net.old.costs ≡ map cost (ids s.now.nodes)
        → net.new.costs ≡ map (λ v. with_round s.now (ranks_in start v) frame start v (cost v)) (ids s.now.nodes)) }
{
    let ranks = hosts_of(s);
    for rank in 0..ranks {
        run_round(alloc, net, s, rank_at(rank), frame)?;
    }
    Ok(())
}

// The number of ranks, at least 1.
fn hosts_of<M: Links>(s: &ScenarioOver<'_, M>) -> u8
    ensures value { result ≡ length s.now.hosts }
    ensures few { result ≤ MOST_RANKS }
{
    s.hosts().len() as u8
}

fn rank_at(rank: u8) -> Rank
    requires { rank ≤ LAST_RANK }
    ensures { result ≡ rank }
{
    Rank::new(rank).unwrap()
}

// The round of this rank in this frame, if there is one.
fn run_round<M: Links>(
    alloc: Global,
    net: &mut Network,
    s: &ScenarioOver<'_, M>,
    rank: Rank,
    frame: u32,
) -> Result<(), Memory>
    requires frame { frame ≤ LAST_FRAME }
    requires ready { IsReady s.now frame 1040000 net.old }
    ensures ready { OnOk result ((m : ℕ) → IsReady s.now frame m net.old → IsReady s.now frame (m + 46) net.new) }
    ensures nodes { OnOk result ((start others : ℕ → State) → net.old.nodes ≡ nodes_in s.now rank start start others
        → HaveRoomInRound s.now rank frame start → net.new.nodes ≡ nodes_in s.now rank start (round_of_rank s.now rank frame start) others) }
    ensures deliveries { OnOk result ((start others : ℕ → State) → net.old.nodes ≡ nodes_in s.now rank start start others
        → HaveRoomInRound s.now rank frame start → net.new.deliveries ≡ net.old.deliveries ++ round_deliveries s.now rank frame start) }
    ensures sent { OnOk result ((start others : ℕ → State) → net.old.nodes ≡ nodes_in s.now rank start start others
        → HaveRoomInRound s.now rank frame start → AreOffOutside s.now start → net.new.sent ≡ net.old.sent ++ round_sent s.now rank frame start) }
    ensures floods { OnOk result ((start others : ℕ → State) (before : List SlotFlood) → net.old.nodes ≡ nodes_in s.now rank start start others
        → HaveRoomInRound s.now rank frame start
        → HasRun s.now frame before net.old.floods → HasRun s.now frame (before ++ round_floods s.now rank frame start) net.new.floods) }
    ensures costs { OnOk result
        ((start others : ℕ → State) (cost : ℕ → CostOf) → net.old.nodes ≡ nodes_in s.now rank start start others
        → HaveRoomInRound s.now rank frame start → net.old.costs ≡ map cost (ids s.now.nodes)
        → net.new.costs ≡ map (λ v. if ranks_in start v == rank then with_round s.now rank frame start v (cost v) else cost v) (ids s.now.nodes)) }
{
    let parts = parts_of_round(alloc, &net.nodes, rank, frame)?;
    match parts {
        Some(parts) => run_slots(net, s, rank, frame, &parts),
        None => Ok(()),
    }
}

// The slots of a round, one after another.
fn run_slots<M: Links>(
    net: &mut Network,
    s: &ScenarioOver<'_, M>,
    rank: Rank,
    frame: u32,
    parts: &[Part],
) -> Result<(), Memory>
    requires frame { frame ≤ LAST_FRAME }
    requires few { length parts.now ≤ 46 }
    requires ready { IsReady s.now frame 1040000 net.old }
    ensures ready { OnOk result ((m : ℕ) → IsReady s.now frame m net.old → IsReady s.now frame (m + length parts.now) net.new) }
    ensures nodes { OnOk result ((p : Plan) (start others : ℕ → State) → parts.now ≡ slot_parts p → net.old.nodes ≡ nodes_in s.now rank start start others
        → ((j : ℕ) → HaveRoom s.now rank frame p start j)
        → net.new.nodes ≡ nodes_in s.now rank start (before_slot s.now rank frame p start (last_slot p + 1)) others) }
    ensures deliveries { OnOk result ((p : Plan) (start others : ℕ → State) → parts.now ≡ slot_parts p → net.old.nodes ≡ nodes_in s.now rank start start others
        → ((j : ℕ) → HaveRoom s.now rank frame p start j)
        → net.new.deliveries ≡ net.old.deliveries ++ flat_map (slot_deliveries s.now rank frame p start) (slots_of p)) }
    ensures sent { OnOk result ((p : Plan) (start others : ℕ → State) → parts.now ≡ slot_parts p → net.old.nodes ≡ nodes_in s.now rank start start others
        → ((j : ℕ) → HaveRoom s.now rank frame p start j) → AreOffOutside s.now start
        → net.new.sent ≡ net.old.sent ++ filter_map (sent_in_slot s.now rank frame p start) (slots_of p)) }
    ensures floods { OnOk result ((p : Plan) (start others : ℕ → State) (before : List SlotFlood) → parts.now ≡ slot_parts p
        → net.old.nodes ≡ nodes_in s.now rank start start others → ((j : ℕ) → HaveRoom s.now rank frame p start j)
        → HasRun s.now frame before net.old.floods
        → HasRun s.now frame (before ++ map (slot_flood s.now rank frame p start) (slots_of p)) net.new.floods) }
    ensures costs { OnOk result
        ((p : Plan) (start others : ℕ → State) (cost : ℕ → CostOf) → parts.now ≡ slot_parts p → net.old.nodes ≡ nodes_in s.now rank start start others
        → ((j : ℕ) → HaveRoom s.now rank frame p start j) → net.old.costs ≡ map cost (ids s.now.nodes)
        → net.new.costs
        ≡ map (λ v. if ranks_in start v == rank then with_slots s.now rank frame p start (last_slot p + 1) v (cost v) else cost v) (ids s.now.nodes)) }
{
    for (slot, part) in parts.iter().enumerate() {
        net.run_slot(s, rank, frame, slot as u8, part)?;
    }
    Ok(())
}
