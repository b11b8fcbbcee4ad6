//! Random losses.

ghost use Rattle.std.specs.Prelude.{◌≡◌, ◌+◌, ◌*◌, ◌/◌, ◌≤◌, [], OnOk};
ghost use Rattle.std.specs.List.{fold};
ghost use Rattle.lwb_base.specs.declared.limits.TheConstants.{MOST_NODES};
ghost use Rattle.scenario_maker.specs.Drawn.{later};
ghost use Rattle.scenario_maker.specs.Made.{with_new_loss, drawn_losses, drawn_loss, losses as all_losses};

use crate::draws::Draws;
use link_trace::{LoseLine, Trace};
use lwb_base::{FLOOD_STEPS, Memory};

/// Loses random links in random steps, in each frame half the number of nodes.
pub fn add_losses(
    trace: &mut Trace,
    draws: &mut Draws,
    nodes: u32,
    frames: u32,
) -> Result<(), Memory>
    requires nodes { (1 ≤ nodes) × (nodes ≤ MOST_NODES) }
    requires none { trace.old.lines.losses ≡ [] }
    ensures { OnOk result (trace.new.lines ≡ record trace.old.lines { losses = all_losses draws.old nodes frames }) }
{
    for frame in 0..frames {
        add_losses_of(trace, draws, nodes, frame)?;
    }
    Ok(())
}

// The losses of one frame.
fn add_losses_of(trace: &mut Trace, draws: &mut Draws, nodes: u32, frame: u32) -> Result<(), Memory>
    requires { (1 ≤ nodes) × (nodes ≤ MOST_NODES) }
    ensures losses { OnOk result (trace.new.lines
        ≡ record trace.old.lines { losses = fold with_new_loss trace.old.lines.losses (drawn_losses draws.old nodes frame) }) }
    ensures left { OnOk result (draws.new ≡ later (4 * (nodes / 2)) draws.old) }
{
    for k in 0..nodes / 2 {
        let line = draw_loss(draws, nodes, frame);
        add_loss(trace, line)?;
    }
    Ok(())
}

// A slot, a step and two nodes.
fn draw_loss(draws: &mut Draws, nodes: u32, frame: u32) -> LoseLine
    requires { (1 ≤ nodes) × (nodes ≤ MOST_NODES) }
    ensures value { result ≡ drawn_loss draws.old nodes frame 0 }
    ensures left { draws.new ≡ later 4 draws.old }
{
    let slot = draws.below(43) as u8;
    let step = draws.below(u32::from(FLOOD_STEPS)) as u8;
    let from = draws.node(nodes);
    let to = draws.node(nodes);
    LoseLine {
        frame,
        slot,
        step,
        from,
        to,
    }
}

// A line whose nodes differ, unless it is there.
fn add_loss(trace: &mut Trace, line: LoseLine) -> Result<(), Memory>
    ensures { OnOk result (trace.new.lines ≡ record trace.old.lines { losses = with_new_loss trace.old.lines.losses line }) }
{
    if line.from != line.to {
        trace.lose(line.frame, line.slot, line.step, line.from, line.to)?;
    }
    Ok(())
}
