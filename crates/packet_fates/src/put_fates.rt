//! What became of each packet that a script put.

ghost use Rattle.std.specs.Prelude.{◌≡◌, ◌^◌, ◌<◌, ℕ, List, IfOk, length, map, zip};
ghost use Rattle.scenario_text.specs.ScenarioParts.{ScenarioParts};
ghost use Rattle.bus_rules.specs.declared.delivery.Delivery.{Delivery as DeliveryOf};
ghost use Rattle.bus_terms.specs.Fates.{bus_fates};
ghost use Rattle.bus_terms.specs.declared.packets.SentPacket.{SentPacket as SentPacketOf};
ghost use Rattle.packet_fates.specs.OneRun.{AreOfRun};
ghost use Rattle.packet_fates.specs.Tables.{AreTablesOf, fate_in, put_fate_in};

use crate::bus_lists::BusLists;
use crate::emptyings::clearings;
use crate::first_by_packet::first_sendings;
use crate::receivers::{host_receiver_counts, receiver_counts};
use bus_terms::{Fate, PacketId, PutFate, PutLine, SentPacket};
use lwb_base::Memory;
use std::alloc::Global;
use std::collections::BTreeMap;

/// Each put line with what became of its packet, in their order.
pub fn fates(alloc: Global, lists: &BusLists) -> Result<Vec<PutFate>, Memory>
    requires few { length lists.now.deliveries.now < 2 ^ 32 }
    ensures { (s : ScenarioParts) → AreOfRun s lists.now → IfOk result (λ fates. fates.items ≡ bus_fates s) }
{
    let packets = Packets::new(alloc, lists)?;
    let cleared = clearings(alloc, lists.script)?;
    packets.fates(alloc, lists.puts, &cleared)
}

// What is known of each packet: how it was sent first, how many nodes delivered it, and how many hosts of its rounds.
#[derive(Drop)]
pub(crate) struct Packets {
    sendings: BTreeMap<PacketId, SentPacket>,
    receivers: BTreeMap<PacketId, u32>,
    at_hosts: BTreeMap<PacketId, u32>,
}

impl Packets {
    fn new(alloc: Global, lists: &BusLists) -> Result<Packets, Memory>
        requires { length lists.now.deliveries.now < 2 ^ 32 }
        ensures { IfOk result (AreTablesOf lists.now.hosts.now lists.now.sent.now lists.now.deliveries.now) }
    {
        Ok(Packets {
            sendings: first_sendings(alloc, lists.sent)?,
            receivers: receiver_counts(alloc, lists.deliveries)?,
            at_hosts: host_receiver_counts(alloc, lists.hosts, lists.deliveries)?,
        })
    }

    // Of put lines whose queues are emptied next in these frames.
    fn fates(
        &self,
        alloc: Global,
        puts: &[PutLine],
        cleared: &[Option<u32>],
    ) -> Result<Vec<PutFate>, Memory>
        ensures { (hosts : List ℕ) (sent : List SentPacketOf) (deliveries : List DeliveryOf) → AreTablesOf hosts sent deliveries self.now
            → IfOk result (λ fates. fates.items ≡ map (put_fate_in hosts sent deliveries) (zip puts.now cleared.now)) }
    {
        let mut fates = Vec::new(alloc);
        for i in 0..puts.len().min(cleared.len()) {
            let put = puts[i];
            let frame = cleared[i];
            let fate = self.fate(put.packet, frame);
            fates.push(PutFate { put, fate })?;
        }
        Ok(fates)
    }

    // Of a packet whose queue is emptied next in this frame.
    fn fate(&self, packet: Option<PacketId>, cleared: Option<u32>) -> Fate
        ensures { (hosts : List ℕ) (sent : List SentPacketOf) (deliveries : List DeliveryOf) → AreTablesOf hosts sent deliveries self.now
            → result ≡ fate_in hosts sent deliveries packet cleared }
    {
        let Some(packet) = packet else {
            return Fate::Dropped;
        };
        if let Some(sending) = self.sendings.get(&packet) {
            let receivers = self.receivers.get(&packet).copied().unwrap_or(0);
            let hosts = self.at_hosts.get(&packet).copied().unwrap_or(0);
            return Fate::Sent {
                frame: sending.frame,
                rank: sending.rank,
                slot: sending.slot,
                receivers,
                at_host: hosts > 0,
            };
        }
        match cleared {
            Some(frame) => Fate::Cleared { frame },
            None => Fate::Waiting,
        }
    }
}
