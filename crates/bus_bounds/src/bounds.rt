//! What is found of a scenario.

ghost use Rattle.std.specs.Prelude.{◌≡◌, List, All, IfOk, flat_map, length, take};
ghost use Rattle.drawn_links.specs.declared.ratio_line.RatioLine.{RatioLine};
ghost use Rattle.law_times.specs.Failovers.{failover_bound};
ghost use Rattle.lwb_base.specs.declared.limits.TheConstants.{QUIET_FRAMES};
ghost use Rattle.bus_bounds.specs.BoundFindings.{findings_of, first_findings as first_findings_of};
ghost use Rattle.bus_bounds.specs.KeptBounds.{AreKept, IsOpen};

use crate::failovers::push_failovers;
use crate::finding::Finding;
use crate::first_rounds::first_findings;
use crate::power_line::PowerLine;
use crate::power_lines::power_lines;
use law_times::{failover_frames, first_round_frames};
use lwb_base::{Memory, NodeId};
use scenario_text::Scenario;
use std::alloc::Global;

/// What is found of the bounds that hold whatever is lost: of each boot of the host of rank 0, and of each host, by rank.
///
/// What holds does so on the bus with the losses of each seed, by whatever ratios (`kept`): the host of rank 0 has its first round in
/// that frame, or the host that is the last one on hosts its rank in it. Of what is open the premise that is named does fail (`unmet`).
pub fn findings(alloc: Global, scenario: &Scenario) -> Result<Vec<Finding>, Memory>
    ensures found { IfOk result (λ found. found.items ≡ findings_of scenario.now) }
    ensures kept { IfOk result (λ found. AreKept scenario.now found.items) }
    ensures unmet { IfOk result (λ found. (ratios : List RatioLine) → All (IsOpen scenario.now ratios) found.items) }
{
    let quiet = u32::from(first_round_frames());
    let most = failover_frames(scenario.hosts().len() as u8);
    let found = found_by(alloc, scenario, quiet, most)?;
    Ok(found)
}

// The same by the frames of the two bounds.
fn found_by(
    alloc: Global,
    scenario: &Scenario,
    quiet: u32,
    most: u32,
) -> Result<Vec<Finding>, Memory>
    requires first { quiet ≡ QUIET_FRAMES }
    requires failover { most ≡ failover_bound (length scenario.now.hosts) }
    ensures { IfOk result (λ found. found.items ≡ findings_of scenario.now) }
{
    let hosts = scenario.hosts();
    let run = scenario.frames();
    let lines = power_lines(alloc, scenario.script())?;
    let mut found = of_first(alloc, &lines, hosts, run, quiet)?;
    push_failovers(&mut found, &lines, hosts, run, most)?;
    Ok(found)
}

// Of the host of rank 0.
fn of_first(
    alloc: Global,
    lines: &[PowerLine],
    hosts: &[NodeId],
    run: u32,
    quiet: u32,
) -> Result<Vec<Finding>, Memory>
    requires { quiet ≡ QUIET_FRAMES }
    ensures { IfOk result (λ found. found.items ≡ flat_map (first_findings_of lines.now run) (take 1 hosts.now)) }
{
    match hosts.first() {
        Some(host) => first_findings(alloc, lines, run, quiet, *host),
        None => Ok(Vec::new(alloc)),
    }
}
