//! How many packets of each stream had each fate.

ghost use Rattle.std.specs.Prelude.{◌≡◌, ◌==◌, ◌&&◌, ◌++◌, ◌∷◌, [], ◌^◌, ◌<◌, ℕ, IfOk, OnOk, filter, if◌then◌else◌, length, map, nat_lt};
ghost use Rattle.scenario_text.specs.ScenarioParts.{ScenarioParts};
ghost use Rattle.bus_terms.specs.Fates.{bus_fates, stream_counts as stream_counts_of, streams};
ghost use Rattle.packet_fates.specs.Counts.{HasRoom, IsCountOf, counts_after, no_counts, tally_at};

use bus_terms::{Fate, PutFate, StreamCounts};
use lwb_base::{Memory, NodeId};
use scenario_text::NodeLine;
use std::alloc::Global;
use std::collections::BTreeMap;

const STREAMS: [u8; 4] = [0, 1, 2, 3];

/// For each stream with a put line, how many of its packets had each fate, by node and stream. The nodes are those of the
/// scenario.
pub fn stream_counts(
    alloc: Global,
    nodes: &[NodeLine],
    fates: &[PutFate],
) -> Result<Vec<StreamCounts>, Memory>
    requires few { length fates.now < 2 ^ 32 }
    ensures { (s : ScenarioParts) → nodes.now ≡ s.nodes → fates.now ≡ bus_fates s → IfOk result (λ counts. counts.items ≡ stream_counts_of s) }
{
    let tally = StreamTally::of(alloc, fates)?;
    let mut counts = Vec::new(alloc);
    for line in nodes {
        tally.push_node(&mut counts, line.node)?;
    }
    Ok(counts)
}

// The counts of each stream that has some.
#[derive(Drop)]
pub(crate) struct StreamTally {
    counts: BTreeMap<(NodeId, u8), StreamCounts>,
}

impl StreamTally {
    fn of(alloc: Global, fates: &[PutFate]) -> Result<StreamTally, Memory>
        requires { length fates.now < 2 ^ 32 }
        ensures { IfOk result (IsCountOf fates.now) }
    {
        let mut tally = StreamTally {
            counts: BTreeMap::new(alloc),
        };
        for fate in fates {
            tally.note(fate)?;
        }
        Ok(tally)
    }

    fn note(&mut self, fate: &PutFate) -> Result<(), Memory>
        requires { HasRoom (tally_at self.old fate.now.put.node fate.now.put.stream) }
        ensures { OnOk result ((v i : ℕ) → tally_at self.new v i
            ≡ (if (fate.now.put.node == v) && (fate.now.put.stream == i) then counts_after
            (tally_at self.old v i) fate.now.fate else tally_at self.old v i)) }
    {
        let node = fate.put.node;
        let stream = fate.put.stream;
        let counts = with_one_more(self.at(node, stream), &fate.fate);
        self.counts.insert((node, stream), counts)?;
        Ok(())
    }

    fn at(&self, node: NodeId, stream: u8) -> StreamCounts
        ensures { result ≡ tally_at self.now node stream }
    {
        match self.counts.get(&(node, stream)) {
            Some(counts) => *counts,
            None => none_yet(node, stream),
        }
    }

    // The streams of the node that have a put line.
    fn push_node(&self, counts: &mut Vec<StreamCounts>, node: NodeId) -> Result<(), Memory>
        ensures { OnOk result (counts.new.items ≡ counts.old.items ++ filter (λ c. nat_lt 0 c.put) (map (tally_at self.now node) streams)) }
    {
        for stream in STREAMS {
            push_some(counts, self.at(node, stream))?;
        }
        Ok(())
    }
}

fn push_some(all: &mut Vec<StreamCounts>, counts: StreamCounts) -> Result<(), Memory>
    ensures { OnOk result (all.new.items ≡ all.old.items ++ filter (λ c. nat_lt 0 c.put) (counts ∷ [])) }
{
    if counts.put > 0 {
        all.push(counts)?;
    }
    Ok(())
}

fn none_yet(node: NodeId, stream: u8) -> StreamCounts
    ensures { result ≡ no_counts node stream }
{
    StreamCounts {
        node,
        stream,
        put: 0,
        dropped: 0,
        sent: 0,
        waiting: 0,
        cleared: 0,
    }
}

// With a packet of this fate.
fn with_one_more(counts: StreamCounts, fate: &Fate) -> StreamCounts
    requires { HasRoom counts }
    ensures { result ≡ counts_after counts fate.now }
{
    let mut counts = counts;
    counts.put += 1;
    match fate {
        Fate::Dropped => counts.dropped += 1,
        Fate::Waiting => counts.waiting += 1,
        Fate::Cleared { .. } => counts.cleared += 1,
        Fate::Sent { .. } => counts.sent += 1,
    }
    counts
}
