//! The nodes that join the first round after each boot of the host of rank 0.

ghost use Rattle.std.specs.Prelude.{◌≡◌, ◌<◌, ◌^◌, ◌+◌, ◌++◌, ◌∷◌, [], true, not, ◌==◌, All, IfOk, OnOk, if◌then◌else◌, Some, filter, flat_map};
ghost use Rattle.std.specs.List.{list_any, range_with_len};
ghost use Rattle.bus_terms.specs.FloodOfText.{ids};
ghost use Rattle.bus_terms.specs.Flooding.{has};
ghost use Rattle.bus_bounds.specs.JoinFindings.{join_findings, joins_to as joins_to_of, never_boots_for, of_node, others as others_of};
ghost use Rattle.bus_bounds.specs.declared.finding.Bound.TheVariants.{Joined, Scanning};
ghost use Rattle.bus_bounds.specs.declared.finding.Reason.TheVariants.{Reach};
ghost use Rattle.bus_bounds.specs.declared.finding.Verdict.TheVariants.{Holds, Open};
ghost use Rattle.bus_bounds.specs.JoinRounds.{both_of, found_of, verdict_by};
ghost use Rattle.bus_bounds.specs.JoinFindings.{JOIN_FRAMES as JOIN_FRAMES_OF, power_verdict as power_verdict_of};
ghost use Rattle.bus_bounds.specs.KeptBounds.{AreKeptBy, IsOpen};
ghost use Rattle.bus_bounds.specs.PowerLines.{boots_in as boots_in_of, power_lines as power_lines_of};

use crate::boot::{Boot, FirstRound, first_round};
use crate::finding::{Bound, Finding, Reason, Verdict};
use crate::power_line::PowerLine;
use crate::power_lines::{boots_in, boots_within, first_off, last_line, power_lines};
use crate::reach::{JOIN_FRAMES, boots_by, has_node, push_if};
use crate::verdict::{against_verdict, broken_by};
use drawn_links::Ratios;
use law_times::{lossy_round_frames, members_stay};
use lwb_base::{GREATEST_GAP, Memory, NodeId};
use scenario_text::{NodeLine, Scenario};
use std::alloc::Global;

/// What is found of the nodes after each boot of the host of rank 0: whether they are members from the frame after its first round on, and
/// for how many frames they scan from then on for each round with losses.
///
/// What holds does so on the bus with the losses of each seed, by these ratios (`kept`), as long as nothing is lost, or no more than three
/// rounds with losses follow one another. Of what is open the premise that is named does fail (`unmet`).
pub fn joins(alloc: Global, scenario: &Scenario, ratios: &Ratios) -> Result<Vec<Finding>, Memory>
    ensures found { IfOk result (λ found. found.items ≡ join_findings scenario.now ratios.now.lines) }
    ensures kept { IfOk result (λ found. AreKeptBy scenario.now ratios.now.lines found.items) }
    ensures unmet { IfOk result (λ found. All (IsOpen scenario.now ratios.now.lines) found.items) }
{
    members_stay();
    let _frames = lossy_round_frames();
    let hosts = scenario.hosts();
    let found = found_joins(alloc, scenario, ratios, hosts)?;
    Ok(found)
}

fn found_joins(
    alloc: Global,
    scenario: &Scenario,
    ratios: &Ratios,
    hosts: &[NodeId],
) -> Result<Vec<Finding>, Memory>
    requires { hosts.now ≡ scenario.now.hosts }
    ensures { IfOk result (λ found. found.items ≡ join_findings scenario.now ratios.now.lines) }
{
    match hosts.first() {
        Some(host) => joins_to(alloc, scenario, ratios, *host),
        None => Ok(Vec::new(alloc)),
    }
}

// Of the host of rank 0.
fn joins_to(
    alloc: Global,
    scenario: &Scenario,
    ratios: &Ratios,
    host: NodeId,
) -> Result<Vec<Finding>, Memory>
    requires { has scenario.now.hosts host ≡ true }
    ensures { IfOk result (λ found. found.items ≡ joins_to_of scenario.now ratios.now.lines host) }
{
    let lines = power_lines(alloc, scenario.script())?;
    let nodes = others(alloc, scenario.nodes(), host)?;
    let found = joins_of(alloc, scenario, ratios, &lines, &nodes, host)?;
    Ok(found)
}

// Of these nodes, by the power lines of its script.
fn joins_of(
    alloc: Global,
    scenario: &Scenario,
    ratios: &Ratios,
    lines: &[PowerLine],
    nodes: &[NodeId],
    host: NodeId,
) -> Result<Vec<Finding>, Memory>
    requires lines { lines.now ≡ power_lines_of scenario.now.script }
    requires nodes { nodes.now ≡ others_of scenario.now host }
    requires known { has (ids scenario.now.nodes) host ≡ true }
    ensures { IfOk result (λ found. found.items ≡ joins_to_of scenario.now ratios.now.lines host) }
{
    if never_boots(lines, scenario.frames(), host) {
        let open = without_boot(alloc, nodes)?;
        return Ok(open);
    }
    let found = after_each(alloc, scenario, ratios, lines, nodes, host)?;
    Ok(found)
}

// After each boot.
fn after_each(
    alloc: Global,
    scenario: &Scenario,
    ratios: &Ratios,
    lines: &[PowerLine],
    nodes: &[NodeId],
    host: NodeId,
) -> Result<Vec<Finding>, Memory>
    requires lines { lines.now ≡ power_lines_of scenario.now.script }
    requires nodes { nodes.now ≡ others_of scenario.now host }
    requires known { has (ids scenario.now.nodes) host ≡ true }
    ensures { IfOk result (λ found. found.items
        ≡ flat_map (λ b. if boots_in_of lines.now host b then flat_map (of_node scenario.now ratios.now.lines host (Some b)) nodes.now else [])
        (range_with_len 0 scenario.now.frames)) }
{
    let mut found = Vec::new(alloc);
    for frame in 0..scenario.frames() {
        let more = after_frame(alloc, scenario, ratios, lines, nodes, host, frame)?;
        push_all(&mut found, more)?;
    }
    Ok(found)
}

fn push_all(found: &mut Vec<Finding>, more: Vec<Finding>) -> Result<(), Memory>
    ensures { OnOk result (found.new.items ≡ found.old.items ++ more.items) }
{
    found.extend_from_slice(&more)?;
    Ok(())
}

// The nodes but the host.
fn others(alloc: Global, nodes: &[NodeLine], host: NodeId) -> Result<Vec<NodeId>, Memory>
    ensures { IfOk result (λ others. others.items ≡ filter (λ v. not (v == host)) (ids nodes.now)) }
{
    let mut others = Vec::new(alloc);
    for line in nodes {
        push_if(&mut others, line.node != host, line.node)?;
    }
    Ok(others)
}

fn never_boots(lines: &[PowerLine], run: u32, host: NodeId) -> bool
    ensures { result ≡ not (list_any (boots_in_of lines.now host) (range_with_len 0 run)) }
{
    !boots_within(lines, host, 0, run)
}

// Of nodes whose host never boots.
fn without_boot(alloc: Global, nodes: &[NodeId]) -> Result<Vec<Finding>, Memory>
    ensures { IfOk result (λ found. found.items ≡ flat_map (λ v. never_boots_for Joined v ∷ never_boots_for Scanning v ∷ []) nodes.now) }
{
    let mut found = Vec::new(alloc);
    for node in nodes {
        push_open(&mut found, Bound::Joined, *node)?;
        push_open(&mut found, Bound::Scanning, *node)?;
    }
    Ok(found)
}

fn push_open(found: &mut Vec<Finding>, bound: Bound, node: NodeId) -> Result<(), Memory>
    ensures { OnOk result (found.new.items ≡ found.old.items ++ never_boots_for bound node ∷ []) }
{
    found.push(Finding {
        bound,
        node,
        frame: None,
        verdict: Verdict::Open {
            reason: Reason::Boots,
        },
    })?;
    Ok(())
}

// Of these nodes after a boot in that frame, if there is one.
fn after_frame(
    alloc: Global,
    scenario: &Scenario,
    ratios: &Ratios,
    lines: &[PowerLine],
    nodes: &[NodeId],
    host: NodeId,
    frame: u32,
) -> Result<Vec<Finding>, Memory>
    requires lines { lines.now ≡ power_lines_of scenario.now.script }
    requires nodes { nodes.now ≡ others_of scenario.now host }
    requires early { frame < 2 ^ 31 }
    requires known { has (ids scenario.now.nodes) host ≡ true }
    ensures { IfOk result (λ found. found.items
        ≡ (if boots_in_of lines.now host frame then flat_map (of_node scenario.now ratios.now.lines host (Some frame)) nodes.now else [])) }
{
    if !boots_in(lines, host, frame) {
        return Ok(Vec::new(alloc));
    }
    let round = first_round(alloc, scenario, ratios, lines, host, frame)?;
    let boot = Boot { host, frame, round };
    let found = after_boot(alloc, lines, scenario.frames(), &boot, nodes)?;
    Ok(found)
}

fn after_boot(
    alloc: Global,
    lines: &[PowerLine],
    run: u32,
    boot: &Boot,
    nodes: &[NodeId],
) -> Result<Vec<Finding>, Memory>
    requires { boot.now.frame < 2 ^ 31 }
    ensures { IfOk result (λ found. found.items ≡ flat_map (both_of lines.now run boot.now) nodes.now) }
{
    let mut found = Vec::new(alloc);
    for node in nodes {
        push_found(
            &mut found,
            lines,
            run,
            boot,
            Bound::Joined,
            JOIN_FRAMES,
            *node,
        )?;
        push_found(
            &mut found,
            lines,
            run,
            boot,
            Bound::Scanning,
            u32::from(GREATEST_GAP),
            *node,
        )?;
    }
    Ok(found)
}

// Of a bound of this number of frames.
fn push_found(
    found: &mut Vec<Finding>,
    lines: &[PowerLine],
    run: u32,
    boot: &Boot,
    bound: Bound,
    frames: u32,
    node: NodeId,
) -> Result<(), Memory>
    requires { boot.now.frame < 2 ^ 31 }
    ensures { OnOk result (found.new.items ≡ found.old.items ++ found_of lines.now run boot.now bound frames node ∷ []) }
{
    found.push(Finding {
        bound,
        node,
        frame: Some(boot.frame),
        verdict: power_verdict(lines, run, boot, frames, node),
    })?;
    Ok(())
}

fn power_verdict(lines: &[PowerLine], run: u32, boot: &Boot, frames: u32, node: NodeId) -> Verdict
    requires { boot.now.frame < 2 ^ 31 }
    ensures { result ≡ power_verdict_of lines.now run boot.now.host boot.now.frame node
        (verdict_by boot.now.round (boot.now.frame + JOIN_FRAMES_OF) frames node) }
{
    let next = boot.frame + JOIN_FRAMES;
    if let Some(line) = first_off(lines, boot.host, boot.frame, JOIN_FRAMES) {
        return broken_by(line);
    }
    if let Some(line) = first_off(lines, node, boot.frame, JOIN_FRAMES) {
        return broken_by(line);
    }
    if !boots_by(lines, node, boot.frame) {
        return against_verdict(last_line(lines, node, u64::from(next)));
    }
    if next >= run {
        return Verdict::Open {
            reason: Reason::Rounds,
        };
    }
    round_verdict(&boot.round, next, frames, node)
}

// By the lines of the round's frame, of a node that is up. `next` is the frame after it.
fn round_verdict(round: &FirstRound, next: u32, frames: u32, node: NodeId) -> Verdict
    ensures { result ≡ verdict_by round.now next frames node }
{
    match round {
        FirstRound::Broken(reason, line) => Verdict::Broken {
            reason: *reason,
            line: *line,
        },
        FirstRound::Reaches(nodes) => reach_verdict(nodes, next, frames, node),
    }
}

fn reach_verdict(nodes: &[NodeId], from: u32, frames: u32, node: NodeId) -> Verdict
    ensures { result ≡ (if has nodes.now node then Holds from frames else Open Reach) }
{
    if has_node(nodes, node) {
        return Verdict::Holds { from, frames };
    }
    Verdict::Open {
        reason: Reason::Reach,
    }
}
