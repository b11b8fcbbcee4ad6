//! How many nodes delivered each packet, and how many hosts of its rounds.

ghost use Rattle.std.specs.Prelude.{◌≡◌, ◌+◌, ◌^◌, ◌<◌, IfOk, OnOk, count_by, if◌then◌else◌, length};
ghost use Rattle.std.specs.BTreeMap.{get};
ghost use Rattle.std.specs.Map.{count_at};
ghost use Rattle.bus_terms.specs.Fates.{is_at_host as is_at_host_of, is_packet, packet_delivered};
ghost use Rattle.bus_terms.specs.declared.packets.PacketId.{PacketId as PacketIdOf};
ghost use Rattle.packet_fates.specs.PacketOrder.{packet_cmp};
ghost use Rattle.packet_fates.specs.Tables.{is_received};

use crate::counting::count_one;
use bus_rules::Delivery;
use bus_terms::PacketId;
use lwb_base::{Memory, NodeId};
use std::alloc::Global;
use std::collections::BTreeMap;

/// The number of deliveries of each packet that has some.
pub(crate) fn receiver_counts(
    alloc: Global,
    deliveries: &[Delivery],
) -> Result<BTreeMap<PacketId, u32>, Memory>
    requires { length deliveries.now < 2 ^ 32 }
    ensures { IfOk result (λ counts. (x : PacketIdOf) → count_at (get packet_cmp counts) x ≡ count_by (λ d. is_packet x (packet_delivered d)) deliveries.now) }
{
    let mut counts = BTreeMap::new(alloc);
    for delivery in deliveries {
        count_one(&mut counts, packet_of(delivery))?;
    }
    Ok(counts)
}

/// The number of deliveries of each packet at the host of their round, for each that has some.
pub(crate) fn host_receiver_counts(
    alloc: Global,
    hosts: &[NodeId],
    deliveries: &[Delivery],
) -> Result<BTreeMap<PacketId, u32>, Memory>
    requires { length deliveries.now < 2 ^ 32 }
    ensures { IfOk result (λ counts. (x : PacketIdOf) → count_at (get packet_cmp counts) x ≡ count_by (is_received hosts.now x) deliveries.now) }
{
    let mut counts = BTreeMap::new(alloc);
    for delivery in deliveries {
        note_at_host(&mut counts, hosts, delivery)?;
    }
    Ok(counts)
}

fn note_at_host(
    counts: &mut BTreeMap<PacketId, u32>,
    hosts: &[NodeId],
    delivery: &Delivery,
) -> Result<(), Memory>
    requires { (x : PacketIdOf) → count_at (get packet_cmp counts.old) x + 1 < 2 ^ 32 }
    ensures { OnOk result ((x : PacketIdOf) → count_at (get packet_cmp counts.new) x
        ≡ count_at (get packet_cmp counts.old) x + (if is_received hosts.now x delivery.now then 1 else 0)) }
{
    if is_at_host(hosts, delivery) {
        count_one(counts, packet_of(delivery))?;
    }
    Ok(())
}

/// Whether it was delivered at the host of its round.
pub(crate) fn is_at_host(hosts: &[NodeId], delivery: &Delivery) -> bool
    ensures { result ≡ is_at_host_of hosts.now delivery.now }
{
    match hosts.get(usize::from(delivery.rank.number())) {
        Some(host) => *host == delivery.node,
        None => false,
    }
}

/// The packet that was delivered.
pub(crate) fn packet_of(delivery: &Delivery) -> PacketId
    ensures { result ≡ packet_delivered delivery.now }
{
    PacketId {
        node: delivery.from,
        boot: delivery.boot,
        stream: delivery.stream,
        seq: delivery.seq,
    }
}
