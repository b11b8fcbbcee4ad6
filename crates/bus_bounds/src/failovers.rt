//! The hosts that are the last ones on.

ghost use Rattle.std.specs.Prelude.{◌≡◌, ◌+◌, ◌++◌, ◌∷◌, [], ◌&&◌, OnOk, find, length, map};
ghost use Rattle.std.specs.Option.{option_copied};
ghost use Rattle.bus_terms.specs.Flooding.{has};
ghost use Rattle.law_times.specs.Failovers.{failover_bound};
ghost use Rattle.bus_bounds.specs.BoundFindings.{alone_verdict as alone_verdict_of, frame_of as frame_of_line};
ghost use Rattle.bus_bounds.specs.BoundFindings.{failover_finding as failover_finding_of};
ghost use Rattle.bus_bounds.specs.BoundFindings.{failover_verdict as failover_verdict_of, is_other as is_other_of, last_off as last_off_of};
ghost use Rattle.bus_bounds.specs.BoundFindings.{stands_against as stands_against_of, turns_against as turns_against_of};
ghost use Rattle.bus_bounds.specs.PowerLines.{is_within as is_within_of};

use crate::finding::{Bound, Finding, Reason, Verdict};
use crate::power_line::PowerLine;
use crate::power_lines::{is_on_before, is_within, last_line};
use crate::verdict::{against_verdict, verdict};
use lwb_base::{Memory, NodeId};

/// What is found of each host, counted from the last frame in which another host goes off. `most` are the frames of the bound.
pub(crate) fn push_failovers(
    found: &mut Vec<Finding>,
    lines: &[PowerLine],
    hosts: &[NodeId],
    run: u32,
    most: u32,
) -> Result<(), Memory>
    requires { most ≡ failover_bound (length hosts.now) }
    ensures { OnOk result (found.new.items ≡ found.old.items ++ map (failover_finding_of lines.now hosts.now run) hosts.now) }
{
    for host in hosts {
        push_failover(found, lines, hosts, run, most, *host)?;
    }
    Ok(())
}

fn push_failover(
    found: &mut Vec<Finding>,
    lines: &[PowerLine],
    hosts: &[NodeId],
    run: u32,
    most: u32,
    host: NodeId,
) -> Result<(), Memory>
    requires { most ≡ failover_bound (length hosts.now) }
    ensures { OnOk result (found.new.items ≡ found.old.items ++ failover_finding_of lines.now hosts.now run host ∷ []) }
{
    let off = last_off(lines, hosts, host);
    found.push(Finding {
        bound: Bound::Failover,
        node: host,
        frame: frame_of(off),
        verdict: failover_verdict(lines, hosts, run, most, host, off),
    })?;
    Ok(())
}

fn frame_of(line: Option<&PowerLine>) -> Option<u32>
    ensures { result ≡ frame_of_line (option_copied line.entry) }
{
    match line {
        Some(line) => Some(line.frame),
        None => None,
    }
}

fn failover_verdict(
    lines: &[PowerLine],
    hosts: &[NodeId],
    run: u32,
    most: u32,
    host: NodeId,
    off: Option<&PowerLine>,
) -> Verdict
    requires { most ≡ failover_bound (length hosts.now) }
    ensures { result ≡ failover_verdict_of lines.now hosts.now run host (option_copied off.entry) }
{
    let Some(off) = off else {
        return Verdict::Open {
            reason: Reason::Power,
        };
    };
    alone_verdict(lines, hosts, run, host, off.frame, most)
}

// Whether the host alone is on from this frame on, for this number of frames.
fn alone_verdict(
    lines: &[PowerLine],
    hosts: &[NodeId],
    run: u32,
    host: NodeId,
    frame: u32,
    frames: u32,
) -> Verdict
    ensures { result ≡ alone_verdict_of lines.now hosts.now run host frame frames (find (stands_against_of lines.now host frame) hosts.now) }
{
    match against(lines, hosts, host, frame) {
        Some(other) => against_verdict(last_line(lines, *other, u64::from(frame) + 1)),
        None => {
            let turn = first_turn(lines, hosts, host, frame, frames);
            verdict(run, turn, frame, frames)
        }
    }
}

// The first host, by rank, that is not as it is where this host alone is on.
fn against<'a>(
    lines: &[PowerLine],
    hosts: &'a [NodeId],
    host: NodeId,
    frame: u32,
) -> Option<&'a NodeId>
    ensures { option_copied result ≡ find (stands_against_of lines.now host frame) hosts.now }
{
    hosts
        .iter()
        .find(|v| stands_against(lines, host, frame, **v))
}

fn stands_against(lines: &[PowerLine], host: NodeId, frame: u32, node: NodeId) -> bool
    ensures { result ≡ stands_against_of lines.now host frame node }
{
    let on = is_on_before(lines, node, u64::from(frame) + 1);
    if node == host { !on } else { on }
}

// The first line by which the host goes off or another comes on, within this number of frames after the first.
fn first_turn<'a>(
    lines: &'a [PowerLine],
    hosts: &[NodeId],
    host: NodeId,
    first: u32,
    frames: u32,
) -> Option<&'a PowerLine>
    ensures { option_copied result ≡ find (λ l. turns_against_of hosts.now host l && is_within_of first (first + frames) l) lines.now }
{
    lines.iter().find(|l| turns_against(hosts, host, l) && is_within(first, frames, l))
}

fn turns_against(hosts: &[NodeId], host: NodeId, line: &PowerLine) -> bool
    ensures { result ≡ turns_against_of hosts.now host line.now }
{
    if line.node == host {
        !line.on
    } else {
        is_host(hosts, line.node) && line.on
    }
}

// The last line by which another host goes off.
fn last_off<'a>(lines: &'a [PowerLine], hosts: &[NodeId], host: NodeId) -> Option<&'a PowerLine>
    ensures { option_copied result ≡ last_off_of lines.now hosts.now host }
{
    lines
        .iter()
        .rev()
        .find(|l| is_other(hosts, host, l.node) && !l.on)
}

fn is_other(hosts: &[NodeId], host: NodeId, node: NodeId) -> bool
    ensures { result ≡ is_other_of hosts.now host node }
{
    is_host(hosts, node) && node != host
}

fn is_host(hosts: &[NodeId], node: NodeId) -> bool
    ensures { result ≡ has hosts.now node }
{
    hosts.iter().any(|h| *h == node)
}
