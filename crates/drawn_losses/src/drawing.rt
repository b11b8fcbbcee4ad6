//! The drawn losses of a scenario that change what somebody receives.

ghost use Rattle.std.specs.Prelude.{◌≡◌, IfOk};
ghost use Rattle.scenario_text.specs.FloodParts.{IsSealed};
ghost use Rattle.scenario_text.specs.OverLines.{over};
ghost use Rattle.drawn_bus.specs.FloodLosses.{losses_of_bus};
ghost use Rattle.drawn_links.specs.Drawings.{lines_of};

use crate::run_losses::losses_in_run;
use drawn_links::DrawnLinks;
use link_trace::LoseLine;
use lwb_base::Memory;
use scenario_text::Scenario;
use std::alloc::Global;

/// The losses that the links draw, which are those of the scenario's trace, as far as they change what somebody receives: by frame,
/// rank, slot, step, sender and receiver. `Err` means out of memory.
pub fn draw_losses(
    alloc: Global,
    s: &Scenario,
    links: &DrawnLinks<'_>,
) -> Result<Vec<LoseLine>, Memory>
    requires lines { links.now.trace.lines ≡ s.now.trace }
    requires sealed { IsSealed links.now.trace s.now.nodes }
    ensures { IfOk result (λ lines. lines.items ≡ losses_of_bus s.now (over s.now (lines_of links.now))) }
{
    losses_in_run(alloc, s, links)
}
