//! The losses of a flood that change what somebody receives.

ghost use Rattle.std.specs.Prelude.{◌≡◌, ◌≤◌, ◌++◌, OnOk, length};
ghost use Rattle.lwb_base.specs.declared.limits.TheConstants.{MOST_NODES};
ghost use Rattle.scenario_text.specs.FloodParts.{IsSealed};
ghost use Rattle.bus_terms.specs.Flooding.{Setting};
ghost use Rattle.plain_bus.specs.FloodMasks.{IsMaskedFlood, traced};
ghost use Rattle.drawn_bus.specs.FloodLosses.{losses_of_flood};
ghost use Rattle.drawn_losses.specs.StepLosses.{HaveSameCaptures};

use crate::step_losses::losses_in_step;
use link_trace::{Links, LoseLine};
use lwb_base::Memory;
use plain_bus::{Flood, first, with_lone};
use scenario_text::NodeLine;

/// Adds the losses of the flood, which runs over `links`, by step, sender and receiver: of links that pass by `base` and not by
/// `links`, where the sender transmits and the receiver would receive something else by `base`. Both are sealed with the nodes, and
/// have the same captures. `Err` means out of memory.
pub fn losses_in_flood<M: Links, B: Links>(
    links: &M,
    base: &B,
    flood: &Flood,
    nodes: &[NodeLine],
    lines: &mut Vec<LoseLine>,
) -> Result<(), Memory>
    requires sealed { IsSealed (traced (M.lines links.now) (M.nodes links.now)) nodes.now }
    requires few { length nodes.now ≤ MOST_NODES }
    requires same { B.nodes base.now ≡ M.nodes links.now }
    requires captures { HaveSameCaptures (B.lines base.now) (M.lines links.now) }
    ensures { OnOk result ((x : Setting) → IsMaskedFlood x (traced (M.lines links.now) (M.nodes links.now)) flood.now
        → lines.new.items
        ≡ lines.old.items ++ losses_of_flood (B.lines base.now) flood.now.frame flood.now.slot (M.nodes links.now) x) }
{
    let lone = with_lone(flood, nodes);
    let mut now = first(flood, nodes);
    for step in 0..12 {
        losses_in_step(links, base, flood, &now, step, lines)?;
        now.go_on(links, &lone, step);
    }
    Ok(())
}
