//! Which ranks nodes probe where they are idle, and in how many frames.

ghost use Rattle.std.specs.Prelude.{◌≡◌, List, IfOk, count_by, ◌==◌};
ghost use Rattle.air_log.specs.declared.entry.Entry.{Entry as EntryOf};
ghost use Rattle.host_return.specs.Probes.{idle_of, probed_from};
ghost use Rattle.host_return.specs.Returned.{counts_in};

use air_log::Idle;
use lwb_base::{Memory, NodeId, Rank};
use scenario_text::Scenario;
use std::alloc::Global;

/// The rank that a node probes where it is idle.
pub(crate) fn probed_rank(idle: &Idle) -> Option<Rank>
    ensures { result ≡ probed_from idle.now.frame idle.now.rank }
{
    let hosted = u32::from(idle.rank.number());
    if hosted == 0 {
        return None;
    }
    Rank::new((idle.frame % hosted) as u8)
}

/// In how many frames each node is idle, by ascending ids.
pub(crate) fn counts_of(
    alloc: Global,
    s: &Scenario,
    idle: &[Idle],
) -> Result<Vec<(NodeId, u32)>, Memory>
    requires { (air : List EntryOf) × (idle.now ≡ idle_of s.now air) }
    ensures { (air : List EntryOf) → idle.now ≡ idle_of s.now air → IfOk result (λ counts. counts.items ≡ counts_in s.now air) }
{
    let mut counts = Vec::new(alloc);
    let nodes = s.nodes();
    for line in nodes {
        counts.push((line.node, count_of(idle, line.node) as u32))?;
    }
    Ok(counts)
}

fn count_of(idle: &[Idle], node: NodeId) -> usize
    ensures { result ≡ count_by (λ i. i.node == node) idle.now }
{
    idle.iter().filter(|one| one.node == node).count()
}
