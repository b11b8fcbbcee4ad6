//! The numbers of a line of a log, as those of an entry.

ghost use Rattle.std.specs.Prelude.{◌≡◌, ◌&&◌, nat_le, nat_lt, if◌then◌else◌, Some, None, option_map};
ghost use Rattle.lwb_base.specs.declared.limits.TheConstants.{LAST_RANK};
ghost use Rattle.scenario_text.specs.FloodParts.{knows as knows_of};
ghost use Rattle.scenario_text.specs.Network.{is_id};
ghost use Rattle.air_log.specs.declared.entry.Entry.TheVariants.{Sent, Heard, Tuned};
ghost use Rattle.air_check.specs.LogGrammar.{sent_of, heard_of, tuned_entry_of};

use air_log::{Entry, HeardEntry, SentEntry, TunedEntry};
use lwb_base::{NodeId, Packet, Rank};
use scenario_text::NodeLine;

/// The entry of a transmission. None where there is no packet, a number is out of its range, or the end isn't above the start.
pub(crate) fn sent_entry(
    rank: u64,
    node: u64,
    start: u64,
    end: u64,
    packet: Option<Packet>,
) -> Option<Entry>
    ensures { result ≡ option_map Sent (sent_of rank node start end packet) }
{
    let packet = packet?;
    let (rank, node) = placed(rank, node, start, end)?;
    Some(Entry::Sent(SentEntry {
        rank,
        node,
        start,
        end,
        packet,
    }))
}

/// The entry of a reception, with the same cases of None.
pub(crate) fn heard_entry(
    rank: u64,
    node: u64,
    from: u64,
    start: u64,
    end: u64,
    packet: Option<Packet>,
) -> Option<Entry>
    ensures { result ≡ option_map Heard (heard_of rank node from start end packet) }
{
    let packet = packet?;
    let (rank, node) = placed(rank, node, start, end)?;
    let from = node_id(from)?;
    Some(Entry::Heard(HeardEntry {
        rank,
        node,
        from,
        start,
        end,
        packet,
    }))
}

/// The entry of a tuning. None where a number is out of its range, or the end isn't above the start.
pub(crate) fn tuned_entry(rank: u64, node: u64, start: u64, end: u64) -> Option<Entry>
    ensures { result ≡ option_map Tuned (tuned_entry_of rank node start end) }
{
    let (rank, node) = placed(rank, node, start, end)?;
    Some(Entry::Tuned(TunedEntry {
        rank,
        node,
        start,
        end,
    }))
}

// The channel and the node. None where a number is out of its range, or the end isn't above the start.
fn placed(rank: u64, node: u64, start: u64, end: u64) -> Option<(Rank, NodeId)>
    ensures { result ≡ (if nat_le rank LAST_RANK && (is_id node && nat_lt start end) then Some (rank, node) else None) }
{
    let rank = channel(rank)?;
    let node = node_id(node)?;
    if end <= start {
        return None;
    }
    Some((rank, node))
}

fn channel(rank: u64) -> Option<Rank>
    ensures { result ≡ (if nat_le rank LAST_RANK then Some rank else None) }
{
    Rank::new(u8::try_from(rank).ok()?)
}

fn node_id(id: u64) -> Option<NodeId>
    ensures { result ≡ (if is_id id then Some id else None) }
{
    NodeId::new(u8::try_from(id).ok()?)
}

/// Whether the id is that of a node.
pub(crate) fn knows(nodes: &[NodeLine], id: NodeId) -> bool
    ensures { result ≡ knows_of nodes.now id }
{
    nodes.iter().any(|n| n.node == id)
}
