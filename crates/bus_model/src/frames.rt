//! A frame of a scenario at all nodes.

ghost use Rattle.std.specs.Prelude.{◌≡◌, ◌≤◌, ◌<◌, ◌+◌, ℕ, All, IfOk, OnOk, [], length, map};
ghost use Rattle.lwb_base.specs.declared.limits.TheConstants.{LAST_FRAME, MOST_FRAMES};
ghost use Rattle.bus_rules.specs.States.{State};
ghost use Rattle.bus_terms.specs.Bus.{Cost as CostOf, before_frame, state_at};
ghost use Rattle.bus_terms.specs.FloodOfText.{ids};
ghost use Rattle.scenario_text.specs.ScenarioParts.{ScenarioParts};
ghost use Rattle.plain_bus.specs.RunFloods.{HasRun};
ghost use Rattle.bus_model.specs.FrameFloods.{frame_floods};
ghost use Rattle.bus_model.specs.FrameNodes.{HavePower, IsAtFrame, CountsLinesBefore, puts_to, with_round_rank, ended_at, nodes_with};
ghost use Rattle.bus_model.specs.RoundCosts.{with_scan};

use crate::all_nodes::{begin_all, count_scans, end_all};
use crate::rounds::run_rounds;
use crate::script::tell_lines;
use bus_terms::PutLine;
use link_trace::Links;
use lwb_base::Memory;
use plain_bus::Network;
use scenario_text::ScenarioOver;
use std::alloc::Global;

/// This frame at all nodes, which is below the number of frames: the script from its line `told` on, the rounds, and the end.
/// What is put is added at the end of `puts`, and `net.floods` has the floods of the frame. Returns the place of the first line
/// of a later frame. `Err` means out of memory.
pub fn run_frame<M: Links>(
    alloc: Global,
    net: &mut Network,
    s: &ScenarioOver<'_, M>,
    frame: u32,
    told: usize,
    puts: &mut Vec<PutLine>,
) -> Result<usize, Memory>
    requires frame { frame < s.now.frames }
    requires few { s.now.frames ≤ MOST_FRAMES }
    requires at { IsAtFrame s.now frame net.old }
    requires cut { CountsLinesBefore s.now.script frame told }
    requires power { HavePower s.now (before_frame s.now frame) told }
    requires puts { puts.old.items ≡ puts_to s.now told }
    ensures at { OnOk result (IsAtFrame s.now (frame + 1) net.new) }
    ensures cut { IfOk result (CountsLinesBefore s.now.script (frame + 1)) }
    ensures power { IfOk result (HavePower s.now (before_frame s.now (frame + 1))) }
    ensures puts { IfOk result (λ next. puts.new.items ≡ puts_to s.now next) }
    ensures floods { OnOk result (HasRun s.now frame (frame_floods s.now frame (state_at s.now frame)) net.new.floods) }
{
    let next = tell_lines(net, s, frame, told, puts)?;
    begin_rounds(net);
    run_rounds(alloc, net, s, frame)?;
    end_frame(net, frame);
    Ok(next)
}

// The rounds of a frame begin. No flood of the frame before is left.
fn begin_rounds(net: &mut Network)
    requires each { length net.old.nodes ≡ length net.old.costs }
    requires few { All (λ c. c.scanned ≤ MOST_FRAMES) net.old.costs }
    ensures nodes { net.new.nodes ≡ map with_round_rank net.old.nodes }
    ensures costs { (s : ScenarioParts) (ranks : ℕ → ℕ) (states : ℕ → State) (cost : ℕ → CostOf) → net.old.nodes ≡ nodes_with s ranks states
        → net.old.costs ≡ map cost (ids s.nodes)
        → net.new.costs ≡ map (λ v. with_scan (states v) (cost v)) (ids s.nodes) }
    ensures same { length net.new.costs ≡ length net.old.costs }
    ensures floods { net.new.floods ≡ [] }
    ensures rest { (net.new.ids ≡ net.old.ids) × (net.new.deliveries ≡ net.old.deliveries) × (net.new.sent ≡ net.old.sent) }
{
    net.floods.clear();
    count_scans(&mut net.costs, &net.nodes);
    begin_all(&mut net.nodes);
}

// The frame ends.
fn end_frame(net: &mut Network, frame: u32)
    requires { frame ≤ LAST_FRAME }
    ensures nodes { net.new.nodes ≡ map (ended_at frame) net.old.nodes }
    ensures rest { (net.new.ids ≡ net.old.ids) × (net.new.costs ≡ net.old.costs) × (net.new.deliveries ≡ net.old.deliveries)
        × (net.new.floods ≡ net.old.floods) × (net.new.sent ≡ net.old.sent) }
{
    end_all(&mut net.nodes, frame);
}
