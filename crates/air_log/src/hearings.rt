//! What a node received, picked out of the entries of a log.

ghost use Rattle.std.specs.Prelude.{◌≡◌, OnOk, IfOk, map, ◌++◌, option_to_list};
ghost use Rattle.std.specs.Option.{option_map};
ghost use Rattle.air_log.specs.Lawful.{by_end, hearings_by, reception_of};
ghost use Rattle.air_log.specs.Courses.{IsSortedByKey, end_of_reception, reception_in, hearing_of, hearing_with};

use crate::{Entry, HeardEntry};
use lwb_base::{Memory, NodeId};
use std::alloc::Global;

// These receptions by end, then sender, then place in the list.
pub(crate) fn in_turn(mut heard: Vec<HeardEntry>) -> Result<Vec<HeardEntry>, Memory>
    ensures taken { IfOk result (λ hs. map reception_in hs.items ≡ map reception_of (by_end (map hearing_of heard.items))) }
    ensures ascends { IfOk result (λ hs. IsSortedByKey end_of_reception hs.items) }
{
    heard.sort_by_key(|hearing| place(hearing))?;
    Ok(heard)
}

// What the order goes by.
fn place(hearing: &HeardEntry) -> (u64, u8)
    ensures { result ≡ (hearing.now.end, hearing.now.from) }
{
    (hearing.end, hearing.from.number())
}

// The receptions of a node, as they are in the log.
pub(crate) fn hearings_by(
    alloc: Global,
    entries: &[Entry],
    node: NodeId,
) -> Result<Vec<HeardEntry>, Memory>
    ensures { IfOk result (λ hs. map hearing_of hs.items ≡ hearings_by entries.now node) }
{
    let mut heard = Vec::new(alloc);
    for entry in entries {
        let hearing = hearing_by(entry, node);
        push_some(&mut heard, hearing)?;
    }
    Ok(heard)
}

fn push_some(heard: &mut Vec<HeardEntry>, hearing: Option<HeardEntry>) -> Result<(), Memory>
    ensures { OnOk result (heard.new.items ≡ heard.old.items ++ option_to_list hearing) }
{
    if let Some(hearing) = hearing {
        heard.push(hearing)?;
    }
    Ok(())
}

// The reception that an entry says, if it is of this node.
fn hearing_by(entry: &Entry, node: NodeId) -> Option<HeardEntry>
    ensures { option_map hearing_of result ≡ hearing_with entry.now node }
{
    match entry {
        Entry::Heard(hearing) => {
            if hearing.node != node {
                return None;
            }
            Some(HeardEntry {
                rank: hearing.rank,
                node: hearing.node,
                from: hearing.from,
                start: hearing.start,
                end: hearing.end,
                packet: hearing.packet.copy(),
            })
        }
        Entry::Sent(_) | Entry::Tuned(_) => None,
    }
}
