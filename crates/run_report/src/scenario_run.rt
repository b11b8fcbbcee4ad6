//! The run of a scenario.

ghost use Rattle.std.specs.Prelude.{IfOk};
ghost use Rattle.link_trace.specs.Sealed.{traced};
ghost use Rattle.scenario_text.specs.FloodParts.{IsSealed};
ghost use Rattle.scenario_text.specs.OverLines.{over};
ghost use Rattle.run_report.specs.RunsLeft.{IsLeft};

use link_trace::Links;
use lwb_base::Memory;
use lwb_world::{RunParts, world_over};
use scenario_text::Scenario;
use std::alloc::Global;

/// What a run of the scenario leaves, over the clocks that it states. Nothing else of its world is kept.
pub fn run_of(alloc: Global, s: &Scenario) -> Result<RunParts, Memory>
    ensures { IfOk result (IsLeft s.now) }
{
    run_over(alloc, s, s.trace())
}

/// The same over links that take the place of the scenario's trace. They are sealed with its nodes.
pub fn run_over<M: Links>(alloc: Global, s: &Scenario, links: &M) -> Result<RunParts, Memory>
    requires { IsSealed (traced (M.lines links.now) (M.nodes links.now)) s.now.nodes }
    ensures { IfOk result (IsLeft (over s.now (M.lines links.now))) }
{
    let world = world_over(alloc, s, links)?;
    Ok(world.into_parts())
}
