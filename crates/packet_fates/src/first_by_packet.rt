//! What is known of packets, by packet: of several values of one packet the first.

ghost use Rattle.std.specs.Prelude.{◌≡◌, IfOk, OnOk, Some, None, find, if◌then◌else◌};
ghost use Rattle.std.specs.BTreeMap.{get};
ghost use Rattle.std.specs.Option.{option_or};
ghost use Rattle.bus_terms.specs.Fates.{is_packet, queues};
ghost use Rattle.bus_terms.specs.declared.packets.PacketId.{PacketId as PacketIdOf};
ghost use Rattle.packet_fates.specs.PacketOrder.{packet_cmp};

use bus_terms::{PacketId, PutLine, SentPacket};
use lwb_base::Memory;
use std::alloc::Global;
use std::collections::BTreeMap;

/// How each packet was sent first.
pub(crate) fn first_sendings(
    alloc: Global,
    sent: &[SentPacket],
) -> Result<BTreeMap<PacketId, SentPacket>, Memory>
    ensures { IfOk result (λ first. (x : PacketIdOf) → get packet_cmp first x ≡ find (λ t. is_packet x t.packet) sent.now) }
{
    let mut first = BTreeMap::new(alloc);
    for sending in sent {
        note_first(&mut first, sending.packet, *sending)?;
    }
    Ok(first)
}

/// The line that queued each packet.
pub(crate) fn first_puts(
    alloc: Global,
    puts: &[PutLine],
) -> Result<BTreeMap<PacketId, PutLine>, Memory>
    ensures { IfOk result (λ first. (x : PacketIdOf) → get packet_cmp first x ≡ find (λ p. queues x p.packet) puts.now) }
{
    let mut first = BTreeMap::new(alloc);
    for put in puts {
        note_put(&mut first, put)?;
    }
    Ok(first)
}

fn note_put(first: &mut BTreeMap<PacketId, PutLine>, put: &PutLine) -> Result<(), Memory>
    ensures { OnOk result ((x : PacketIdOf) → get packet_cmp first.new x
        ≡ option_or (get packet_cmp first.old x) (if queues x put.now.packet then Some put.now else None)) }
{
    match put.packet {
        Some(packet) => note_first(first, packet, *put),
        None => Ok(()),
    }
}

// The packet has this value, unless it has one.
fn note_first<T: Copy>(
    first: &mut BTreeMap<PacketId, T>,
    packet: PacketId,
    value: T,
) -> Result<(), Memory>
    ensures { OnOk result ((x : PacketIdOf) → get packet_cmp first.new x
        ≡ option_or (get packet_cmp first.old x) (if is_packet x packet then Some value else None)) }
{
    if !first.contains_key(&packet) {
        first.insert(packet, value)?;
    }
    Ok(())
}
