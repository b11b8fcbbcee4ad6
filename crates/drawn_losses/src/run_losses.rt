//! The losses of a whole run that change what somebody receives.

ghost use Rattle.std.specs.Prelude.{◌≡◌, IfOk};
ghost use Rattle.scenario_text.specs.FloodParts.{IsSealed};
ghost use Rattle.scenario_text.specs.OverLines.{over};
ghost use Rattle.plain_bus.specs.FloodMasks.{traced};
ghost use Rattle.drawn_bus.specs.FloodLosses.{losses_of_bus};
ghost use Rattle.drawn_losses.specs.StepLosses.{HaveSameCaptures};

use crate::frame_losses::losses_in_frame;
use bus_model::RunningBus;
use link_trace::{Links, LoseLine};
use lwb_base::Memory;
use scenario_text::{Scenario, ScenarioOver};
use std::alloc::Global;

/// The losses of the scenario's run over `links` that change what somebody receives in it, against the scenario's own trace: by
/// frame, rank, slot, step, sender and receiver. The links are sealed with the nodes, and have the captures of the trace. `Err`
/// means out of memory.
pub fn losses_in_run<M: Links>(
    alloc: Global,
    s: &Scenario,
    links: &M,
) -> Result<Vec<LoseLine>, Memory>
    requires sealed { IsSealed (traced (M.lines links.now) (M.nodes links.now)) s.now.nodes }
    requires captures { HaveSameCaptures s.now.trace (M.lines links.now) }
    ensures { IfOk result (λ lines. lines.items ≡ losses_of_bus s.now (over s.now (M.lines links.now))) }
{
    let mut bus = RunningBus::new(alloc, s)?;
    let mut lines = Vec::new(alloc);
    let nodes = s.nodes();
    let scenario = ScenarioOver::new(s, links);
    for frame in 0..scenario.frames() {
        bus.run_frame(alloc, &scenario, frame)?;
        losses_in_frame(links, s.trace(), &bus.net.floods, nodes, &mut lines)?;
    }
    Ok(lines)
}
