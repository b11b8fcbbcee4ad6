//! How late the packets of streams were delivered.

ghost use Rattle.std.specs.Prelude.{◌≡◌, ◌+◌, ◌++◌, ◌^◌, ◌<◌, List, IfOk, OnOk, filter_map, length, map, option_to_list};
ghost use Rattle.std.specs.BTreeMap.{IsOrdered, get};
ghost use Rattle.std.specs.Map.{count_at};
ghost use Rattle.scenario_text.specs.ScenarioParts.{ScenarioParts};
ghost use Rattle.bus_terms.specs.Bus.{bus_deliveries};
ghost use Rattle.bus_terms.specs.Fates.{host_latency_counts as host_latency_counts_of, latency_counts as latency_counts_of};
ghost use Rattle.scenario_text.specs.OverLines.{IsOverScenario};
ghost use Rattle.bus_terms.specs.Packets.{bus_puts};
ghost use Rattle.bus_terms.specs.declared.packets.Latency.{Latency as LatencyOf};
ghost use Rattle.packet_fates.specs.Latencies.{IsTallyOf, count_of_entry, host_latency_by, latency_by, latency_cmp};

use crate::counting::count_one;
use crate::first_by_packet::first_puts;
use crate::receivers::{is_at_host, packet_of};
use bus_rules::Delivery;
use bus_terms::{Latency, LatencyCount, PacketId, PutLine};
use lwb_base::{Memory, NodeId};
use std::alloc::Global;
use std::collections::BTreeMap;

/// How often each latency came, for those that did, by node, stream, receiver and frames: of what was put in a run of a
/// scenario, and what was delivered.
pub fn latency_counts(
    alloc: Global,
    puts: &[PutLine],
    deliveries: &[Delivery],
) -> Result<Vec<LatencyCount>, Memory>
    requires few { length deliveries.now < 2 ^ 32 }
    ensures { (s : ScenarioParts) → IsOverScenario s → puts.now ≡ bus_puts s → deliveries.now ≡ bus_deliveries s
        → IfOk result (λ counts. counts.items ≡ latency_counts_of s) }
{
    let first = first_puts(alloc, puts)?;
    let tally = latency_tally(alloc, &first, deliveries)?;
    counts_in_order(alloc, &tally)
}

/// The same of the deliveries at the hosts of their rounds.
pub fn host_latency_counts(
    alloc: Global,
    hosts: &[NodeId],
    puts: &[PutLine],
    deliveries: &[Delivery],
) -> Result<Vec<LatencyCount>, Memory>
    requires few { length deliveries.now < 2 ^ 32 }
    ensures { (s : ScenarioParts) → IsOverScenario s → hosts.now ≡ s.hosts → puts.now ≡ bus_puts s → deliveries.now ≡ bus_deliveries s
        → IfOk result (λ counts. counts.items ≡ host_latency_counts_of s) }
{
    let first = first_puts(alloc, puts)?;
    let tally = host_latency_tally(alloc, hosts, &first, deliveries)?;
    counts_in_order(alloc, &tally)
}

fn latency_tally(
    alloc: Global,
    first: &BTreeMap<PacketId, PutLine>,
    deliveries: &[Delivery],
) -> Result<BTreeMap<Latency, u32>, Memory>
    requires { length deliveries.now < 2 ^ 32 }
    ensures { IfOk result (IsTallyOf (filter_map (latency_by first.now) deliveries.now)) }
{
    let mut tally = BTreeMap::new(alloc);
    for delivery in deliveries {
        note_latency(&mut tally, latency_of(first, delivery))?;
    }
    Ok(tally)
}

fn host_latency_tally(
    alloc: Global,
    hosts: &[NodeId],
    first: &BTreeMap<PacketId, PutLine>,
    deliveries: &[Delivery],
) -> Result<BTreeMap<Latency, u32>, Memory>
    requires { length deliveries.now < 2 ^ 32 }
    ensures { IfOk result (IsTallyOf (filter_map (host_latency_by hosts.now first.now) deliveries.now)) }
{
    let mut tally = BTreeMap::new(alloc);
    for delivery in deliveries {
        note_latency(&mut tally, host_latency_of(hosts, first, delivery))?;
    }
    Ok(tally)
}

// None where no line put the packet, or it was delivered elsewhere.
fn host_latency_of(
    hosts: &[NodeId],
    first: &BTreeMap<PacketId, PutLine>,
    delivery: &Delivery,
) -> Option<Latency>
    ensures { result ≡ host_latency_by hosts.now first.now delivery.now }
{
    if is_at_host(hosts, delivery) {
        latency_of(first, delivery)
    } else {
        None
    }
}

// None where no line put the packet.
fn latency_of(first: &BTreeMap<PacketId, PutLine>, delivery: &Delivery) -> Option<Latency>
    ensures { result ≡ latency_by first.now delivery.now }
{
    let put = first.get(&packet_of(delivery))?;
    Some(Latency {
        node: delivery.from,
        stream: delivery.stream,
        at: delivery.node,
        frames: delivery.frame.saturating_sub(put.frame),
    })
}

fn note_latency(tally: &mut BTreeMap<Latency, u32>, latency: Option<Latency>) -> Result<(), Memory>
    requires { (a : LatencyOf) → count_at (get latency_cmp tally.old) a + 1 < 2 ^ 32 }
    ensures { (before : List LatencyOf) → IsTallyOf before tally.old → OnOk result (IsTallyOf (before ++ option_to_list latency) tally.new) }
{
    if let Some(latency) = latency {
        count_one(tally, latency)?;
    }
    Ok(())
}

fn counts_in_order(
    alloc: Global,
    tally: &BTreeMap<Latency, u32>,
) -> Result<Vec<LatencyCount>, Memory>
    ensures { IfOk result (λ counts. (counts.items ≡ map count_of_entry tally.now.entries) × IsOrdered latency_cmp tally.now) }
{
    let counts = tally
        .iter()
        .map(|(latency, count)| LatencyCount {
            latency: *latency,
            count: *count,
        })
        .collect(alloc)?;
    Ok(counts)
}
