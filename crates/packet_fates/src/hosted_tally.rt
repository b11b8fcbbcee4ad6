//! How many packets of each stream were sent in rounds of each host.

ghost use Rattle.std.specs.Prelude.{◌≡◌, ◌+◌, ◌++◌, ◌∷◌, [], ◌^◌, ◌<◌, IfOk, OnOk, filter, if◌then◌else◌, length, map, nat_lt};
ghost use Rattle.std.specs.BTreeMap.{get};
ghost use Rattle.std.specs.Map.{count_at};
ghost use Rattle.scenario_text.specs.ScenarioParts.{ScenarioParts};
ghost use Rattle.bus_terms.specs.Fates.{bus_fates, hosted_counts as hosted_counts_of, stream_counts};
ghost use Rattle.packet_fates.specs.Hosted.{IsHostedTally, host_of_fate, hosted_cmp, hosted_in, is_of_hosted};
ghost use Rattle.packet_fates.specs.declared.hosted_tally.HostedStream.{HostedStream as HostedStreamOf};

use crate::counting::count_one;
use bus_terms::{Fate, HostedCount, PutFate, StreamCounts};
use lwb_base::{Memory, NodeId};
use scenario_text::NodeLine;
use std::alloc::Global;
use std::collections::BTreeMap;

// A stream of a node, with a host of rounds in which packets of it were sent.
#[derive(Clone, Copy, PartialEq, Eq, PartialOrd, Ord)]
pub(crate) struct HostedStream {
    node: NodeId,
    stream: u8,
    at: NodeId,
}

/// For each of these streams, and each node in whose rounds packets of it were sent, how many were: by node, stream and host. The
/// nodes and the hosts by rank are those of the scenario, the fates and streams those of its run.
pub fn hosted_counts(
    alloc: Global,
    nodes: &[NodeLine],
    hosts: &[NodeId],
    fates: &[PutFate],
    streams: &[StreamCounts],
) -> Result<Vec<HostedCount>, Memory>
    requires few { length fates.now < 2 ^ 32 }
    ensures { (s : ScenarioParts) → nodes.now ≡ s.nodes → hosts.now ≡ s.hosts → fates.now ≡ bus_fates s → streams.now ≡ stream_counts s
        → IfOk result (λ counts. counts.items ≡ hosted_counts_of s) }
{
    let tally = hosted_tally(alloc, hosts, fates)?;
    let mut counts = Vec::new(alloc);
    for stream in streams {
        push_hosts(&mut counts, &tally, nodes, stream)?;
    }
    Ok(counts)
}

fn hosted_tally(
    alloc: Global,
    hosts: &[NodeId],
    fates: &[PutFate],
) -> Result<BTreeMap<HostedStream, u32>, Memory>
    requires { length fates.now < 2 ^ 32 }
    ensures { IfOk result (IsHostedTally hosts.now fates.now) }
{
    let mut tally = BTreeMap::new(alloc);
    for fate in fates {
        note_sent(&mut tally, hosts, fate)?;
    }
    Ok(tally)
}

fn note_sent(
    tally: &mut BTreeMap<HostedStream, u32>,
    hosts: &[NodeId],
    fate: &PutFate,
) -> Result<(), Memory>
    requires { (k : HostedStreamOf) → count_at (get hosted_cmp tally.old) k + 1 < 2 ^ 32 }
    ensures { OnOk result ((k : HostedStreamOf) → count_at (get hosted_cmp tally.new) k
        ≡ count_at (get hosted_cmp tally.old) k + (if is_of_hosted hosts.now k fate.now then 1 else 0)) }
{
    if let Some(at) = host_of(hosts, &fate.fate) {
        let hosted = HostedStream {
            node: fate.put.node,
            stream: fate.put.stream,
            at,
        };
        count_one(tally, hosted)?;
    }
    Ok(())
}

// The host of the round in which it was sent.
fn host_of(hosts: &[NodeId], fate: &Fate) -> Option<NodeId>
    ensures { result ≡ host_of_fate hosts.now fate.now }
{
    match fate {
        Fate::Sent { rank, .. } => hosts.get(usize::from(rank.number())).copied(),
        Fate::Dropped | Fate::Waiting | Fate::Cleared { .. } => None,
    }
}

// The hosts of the stream in whose rounds packets of it were sent.
fn push_hosts(
    counts: &mut Vec<HostedCount>,
    tally: &BTreeMap<HostedStream, u32>,
    nodes: &[NodeLine],
    stream: &StreamCounts,
) -> Result<(), Memory>
    ensures { OnOk result (counts.new.items ≡ counts.old.items
        ++ filter (λ h. nat_lt 0 h.count) (map (λ n. hosted_in tally.now stream.now.node stream.now.stream n.node) nodes.now)) }
{
    for line in nodes {
        push_some(counts, hosted_at(tally, stream, line.node))?;
    }
    Ok(())
}

fn hosted_at(tally: &BTreeMap<HostedStream, u32>, stream: &StreamCounts, at: NodeId) -> HostedCount
    ensures { result ≡ hosted_in tally.now stream.now.node stream.now.stream at }
{
    let hosted = HostedStream {
        node: stream.node,
        stream: stream.stream,
        at,
    };
    HostedCount {
        node: stream.node,
        stream: stream.stream,
        at,
        count: tally.get(&hosted).copied().unwrap_or(0),
    }
}

fn push_some(all: &mut Vec<HostedCount>, counted: HostedCount) -> Result<(), Memory>
    ensures { OnOk result (all.new.items ≡ all.old.items ++ filter (λ h. nat_lt 0 h.count) (counted ∷ [])) }
{
    if counted.count > 0 {
        all.push(counted)?;
    }
    Ok(())
}
