//! The losses of a frame that change what somebody receives.

ghost use Rattle.std.specs.Prelude.{◌≡◌, ◌≤◌, ◌++◌, ℕ, List, OnOk, length};
ghost use Rattle.lwb_base.specs.declared.limits.TheConstants.{MOST_NODES};
ghost use Rattle.scenario_text.specs.FloodParts.{IsSealed};
ghost use Rattle.plain_bus.specs.FloodMasks.{traced};
ghost use Rattle.plain_bus.specs.RunFloods.{AreRunFloods, SlotFlood};
ghost use Rattle.drawn_losses.specs.StepLosses.{HaveSameCaptures, losses_of_floods};

use crate::flood_losses::losses_in_flood;
use link_trace::{Links, LoseLine};
use lwb_base::Memory;
use plain_bus::Flood;
use scenario_text::NodeLine;

/// Adds the losses of the floods of a frame, one after another, as `losses_in_flood` finds those of each. `Err` means out of memory.
pub fn losses_in_frame<M: Links, B: Links>(
    links: &M,
    base: &B,
    floods: &[Flood],
    nodes: &[NodeLine],
    lines: &mut Vec<LoseLine>,
) -> Result<(), Memory>
    requires sealed { IsSealed (traced (M.lines links.now) (M.nodes links.now)) nodes.now }
    requires few { length nodes.now ≤ MOST_NODES }
    requires same { B.nodes base.now ≡ M.nodes links.now }
    requires captures { HaveSameCaptures (B.lines base.now) (M.lines links.now) }
    ensures { OnOk result ((f : ℕ) (ys : List SlotFlood) → AreRunFloods (traced (M.lines links.now) (M.nodes links.now)) f ys floods.now
        → lines.new.items ≡ lines.old.items ++ losses_of_floods (B.lines base.now) f (M.nodes links.now) ys) }
{
    for flood in floods {
        losses_in_flood(links, base, flood, nodes, lines)?;
    }
    Ok(())
}
