//! The first rounds of the host of rank 0, one for each of its boots.

ghost use Rattle.std.specs.Prelude.{◌≡◌, ◌+◌, ◌++◌, ◌∷◌, [], IfOk, OnOk, if◌then◌else◌, filter, map};
ghost use Rattle.std.specs.List.{range_with_len};
ghost use Rattle.lwb_base.specs.declared.limits.TheConstants.{QUIET_FRAMES};
ghost use Rattle.bus_bounds.specs.BoundFindings.{first_finding as first_finding_of, first_findings as first_findings_of};
ghost use Rattle.bus_bounds.specs.PowerLines.{boots_in as boots_in_of};

use crate::finding::{Bound, Finding, Reason, Verdict};
use crate::power_line::PowerLine;
use crate::power_lines::{boots_in, first_off};
use crate::verdict::verdict;
use lwb_base::{Memory, NodeId};
use std::alloc::Global;

/// What is found of each boot of the host of rank 0 in a run of this number of frames, or that it never boots.
pub(crate) fn first_findings(
    alloc: Global,
    lines: &[PowerLine],
    run: u32,
    quiet: u32,
    host: NodeId,
) -> Result<Vec<Finding>, Memory>
    requires { quiet ≡ QUIET_FRAMES }
    ensures { IfOk result (λ found. found.items ≡ first_findings_of lines.now run host) }
{
    let mut found = boots(alloc, lines, run, quiet, host)?;
    if found.is_empty() {
        found.push(Finding {
            bound: Bound::First,
            node: host,
            frame: None,
            verdict: Verdict::Open {
                reason: Reason::Boots,
            },
        })?;
    }
    Ok(found)
}

fn boots(
    alloc: Global,
    lines: &[PowerLine],
    run: u32,
    quiet: u32,
    host: NodeId,
) -> Result<Vec<Finding>, Memory>
    requires { quiet ≡ QUIET_FRAMES }
    ensures { IfOk result (λ found. found.items ≡ map (first_finding_of lines.now run host) (filter (boots_in_of lines.now host) (range_with_len 0 run))) }
{
    let mut found = Vec::new(alloc);
    for frame in 0..run {
        push_boot(&mut found, lines, run, quiet, host, frame)?;
    }
    Ok(found)
}

// What is found of the frame, if the host boots in it.
fn push_boot(
    found: &mut Vec<Finding>,
    lines: &[PowerLine],
    run: u32,
    quiet: u32,
    host: NodeId,
    frame: u32,
) -> Result<(), Memory>
    requires { quiet ≡ QUIET_FRAMES }
    ensures { OnOk result (found.new.items
        ≡ found.old.items ++ (if boots_in_of lines.now host frame then first_finding_of lines.now run host frame ∷ [] else [])) }
{
    if boots_in(lines, host, frame) {
        found.push(Finding {
            bound: Bound::First,
            node: host,
            frame: Some(frame),
            verdict: verdict(run, first_off(lines, host, frame, quiet), frame, quiet),
        })?;
    }
    Ok(())
}
