//! A boot of the host of rank 0, and what the lines of its first round's frame say of the nodes that are up by then.

ghost use Rattle.std.specs.Prelude.{◌≡◌, ◌<◌, ◌^◌, true, IfOk};
ghost use Rattle.bus_terms.specs.FloodOfText.{ids};
ghost use Rattle.bus_terms.specs.Flooding.{has};
ghost use Rattle.bus_bounds.specs.JoinRounds.{IsRoundOf};
ghost use Rattle.bus_bounds.specs.PowerLines.{power_lines as power_lines_of};

use crate::breaking_line::BreakingLine;
use crate::finding::Reason;
use crate::power_line::PowerLine;
use crate::ratios_in_force::ratio_line;
use crate::reach::{loss_in, nodes_up, reached};
use drawn_links::Ratios;
use lwb_base::{Memory, NodeId, QUIET_FRAMES};
use scenario_text::Scenario;
use std::alloc::Global;

/// What the lines of a first round's frame say of the nodes that are up.
#[derive(Drop)]
pub enum FirstRound {
    /// A premise is broken of all of them.
    Broken(Reason, BreakingLine),
    /// These are within reach of the host.
    Reaches(Vec<NodeId>),
}

/// A boot.
#[derive(Drop)]
pub struct Boot {
    /// The host of rank 0.
    pub host: NodeId,
    /// The frame.
    pub frame: u32,
    /// Its first round, if it comes.
    pub round: FirstRound,
}

/// The first round after a boot of the host in that frame.
pub(crate) fn first_round(
    alloc: Global,
    scenario: &Scenario,
    ratios: &Ratios,
    lines: &[PowerLine],
    host: NodeId,
    frame: u32,
) -> Result<FirstRound, Memory>
    requires lines { lines.now ≡ power_lines_of scenario.now.script }
    requires early { frame < 2 ^ 31 }
    requires known { has (ids scenario.now.nodes) host ≡ true }
    ensures { IfOk result (IsRoundOf scenario.now ratios.now.lines host frame) }
{
    let trace = scenario.trace();
    let first = frame + u32::from(QUIET_FRAMES);
    if let Some(line) = loss_in(scenario, first) {
        return Ok(FirstRound::Broken(Reason::Loss, line));
    }
    if let Some(line) = ratio_line(ratios, trace.links(), first) {
        return Ok(FirstRound::Broken(Reason::Ratio, BreakingLine::Rated(line)));
    }
    let up = nodes_up(alloc, lines, scenario.nodes(), host, frame)?;
    let reached = reached(alloc, scenario, first, host, &up)?;
    Ok(FirstRound::Reaches(reached))
}
