//! The transmissions that are stamped.

ghost use Rattle.std.specs.Prelude.{◌≡◌, OnOk};
ghost use Rattle.air_log.specs.declared.entry.Entry.TheVariants.{Sent};
ghost use Rattle.lwb_base.specs.Sorting.{in_order};
ghost use Rattle.bus_time.specs.Reading.{beginning_in, starts_first};

use air_log::SentEntry;
use lwb_base::{Memory, NodeId, Profile, Rank};
use lwb_packets::decode_payload;

// The transmission of a data packet with counter 0, from this true tick on.
#[derive(Clone, Copy)]
pub(crate) struct Beginning {
    pub(crate) frame: u64,
    pub(crate) rank: Rank,
    pub(crate) slot: u8,
    pub(crate) node: NodeId,
    pub(crate) stream: u8,
    pub(crate) seq: u16,
    pub(crate) start: u64,
}

pub(crate) fn begun_by(profile: &Profile, sent: &SentEntry) -> Option<Beginning>
    ensures { result ≡ beginning_in profile.now (Sent sent.now) }
{
    if sent.packet.counter() != 0 {
        return None;
    }
    let packet = decode_payload(&sent.packet)?;
    Some(Beginning {
        frame: sent.start / profile.frame(),
        rank: sent.rank,
        slot: packet.slot,
        node: sent.node,
        stream: packet.stream,
        seq: packet.seq,
        start: sent.start,
    })
}

// By frame, rank and slot.
pub(crate) fn sort(beginnings: &mut Vec<Beginning>) -> Result<(), Memory>
    ensures { OnOk result (beginnings.new.items ≡ in_order starts_first beginnings.old.items) }
{
    beginnings.sort_by_key(|beginning| place(beginning))?;
    Ok(())
}

// What the order goes by.
fn place(beginning: &Beginning) -> (u64, u8, u8)
    ensures { result ≡ (beginning.now.frame, beginning.now.rank, beginning.now.slot) }
{
    (beginning.frame, beginning.rank.number(), beginning.slot)
}
