//! The worlds of scenarios over the clocks that they state.

ghost use Rattle.std.specs.Prelude.{◌≡◌, ℕ, IfOk, length};
ghost use Rattle.link_trace.specs.Sealed.{traced};
ghost use Rattle.tick_clock.specs.ClockReadings.{segment_clock_reads};
ghost use Rattle.scenario_text.specs.FloodParts.{IsSealed};
ghost use Rattle.scenario_text.specs.OverLines.{over};
ghost use Rattle.scenario_clocks.specs.ClockLists.{clocks_by};
ghost use Rattle.scenario_clocks.specs.StatedClocks.{scenario_clock};
ghost use Rattle.air_log.specs.NodeCharges.{charges_in};
ghost use Rattle.air_log.specs.Idling.{all_idle};
ghost use Rattle.world_engine.specs.Worlds.{new_world, core_of};
ghost use Rattle.lwb_world.specs.Runs.{IsRun};

use crate::world::World;
use link_trace::Links;
use lwb_base::Memory;
use scenario_clocks::stated_clocks;
use scenario_text::{Scenario, ScenarioOver};
use std::alloc::Global;
use tick_clock::SegmentClock;

/// The clocks that a scenario states, one for each of its nodes, in their order.
pub fn clocks_of(alloc: Global, s: &Scenario) -> Result<Vec<SegmentClock>, Memory>
    ensures count { IfOk result (λ cs. length cs.items ≡ length s.now.nodes) }
    ensures stated { IfOk result (λ cs. (v : ℕ) → clocks_by segment_clock_reads s.now.nodes cs.items v ≡ scenario_clock s.now v) }
{
    stated_clocks(alloc, s.nodes(), s.rates())
}

/// The world of a scenario before its run, over the clocks that it states.
pub fn stated_world(alloc: Global, s: &Scenario) -> Result<World<'_, SegmentClock>, Memory>
    ensures new { IfOk result (λ w. w.0 ≡ new_world s.now) }
    ensures clocks { IfOk result (λ w. (v : ℕ) → clocks_by segment_clock_reads s.now.nodes w.1 v ≡ scenario_clock s.now v) }
{
    World::new(alloc, s, clocks_of(alloc, s)?)
}

/// The world of a scenario after its run over the clocks that it states.
pub fn world_after(alloc: Global, s: &Scenario) -> Result<World<'_, SegmentClock>, Memory>
    ensures run { IfOk result (λ w. IsRun s.now (scenario_clock s.now) w.0.air w.0.deliveries w.0.drops (core_of w.0.cores)) }
    ensures charges { IfOk result (λ w. w.0.charges ≡ charges_in s.now (scenario_clock s.now) w.0.air) }
    ensures idle { IfOk result (λ w. w.0.idle ≡ all_idle s.now (scenario_clock s.now) w.0.air) }
{
    let mut world = stated_world(alloc, s)?;
    world.run(alloc)?;
    Ok(world)
}

// The world of a scenario before its run, over the clocks that it states and over links that take the place of its own trace.
fn stated_over<'a, M: Links>(
    alloc: Global,
    s: &'a Scenario,
    links: &'a M,
) -> Result<World<'a, SegmentClock, M>, Memory>
    requires { IsSealed (traced (M.lines links.now) (M.nodes links.now)) s.now.nodes }
    ensures new { IfOk result (λ w. w.0 ≡ new_world (over s.now (M.lines links.now))) }
    ensures clocks { IfOk result (λ w. (v : ℕ) → clocks_by segment_clock_reads s.now.nodes w.1 v ≡ scenario_clock s.now v) }
{
    World::over(alloc, ScenarioOver::new(s, links), clocks_of(alloc, s)?)
}

/// The world of a scenario after its run over the clocks that it states, and over links that take the place of its own trace. They
/// are sealed with its nodes.
pub fn world_over<'a, M: Links>(
    alloc: Global,
    s: &'a Scenario,
    links: &'a M,
) -> Result<World<'a, SegmentClock, M>, Memory>
    requires { IsSealed (traced (M.lines links.now) (M.nodes links.now)) s.now.nodes }
    ensures run { IfOk result
        (λ w. IsRun (over s.now (M.lines links.now)) (scenario_clock s.now) w.0.air w.0.deliveries w.0.drops (core_of w.0.cores)) }
    ensures charges { IfOk result (λ w. w.0.charges ≡ charges_in (over s.now (M.lines links.now)) (scenario_clock s.now) w.0.air) }
    ensures idle { IfOk result (λ w. w.0.idle ≡ all_idle (over s.now (M.lines links.now)) (scenario_clock s.now) w.0.air) }
{
    let mut world = stated_over(alloc, s, links)?;
    world.run(alloc)?;
    Ok(world)
}
