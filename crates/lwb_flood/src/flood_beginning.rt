//! The world of a flood at its beginning.

ghost use Rattle.std.specs.Prelude.{◌≡◌, ◌≤◌, ℕ, IfOk, map, slice_index, true};
ghost use Rattle.lwb_base.specs.declared.limits.TheConstants.{GREATEST_ID};
ghost use Rattle.scenario_text.specs.FloodParts.{IsSound};
ghost use Rattle.lwb_base.specs.Profile.{one};
ghost use Rattle.glossy_relay.specs.Relaying.{is_packet};
ghost use Rattle.radio_model.specs.Stations.{first_state};
ghost use Rattle.air_log.specs.FloodLaw.{first_packet as first_packet_of};
ghost use Rattle.lwb_flood.specs.FloodWorlds.{medium_at_opening, first_world, first_member as first_member_of};

use crate::flood_world::{FloodWorld, channel};
use crate::member::{Act, Member};
use air_log::Air;
use glossy_relay::Flood;
use lwb_base::{Memory, NodeId, Packet, Payload, Profile};
use lwb_packets::{DataPacket, Kind, encode_payload};
use radio_model::Medium;
use scenario_text::FloodText;
use scenario_text::known_nodes::ids;
use std::alloc::Global;

// The true ticks at which the nodes tune in, and the starting node sends.
const OPENING: u64 = 1_344_000_000;

const START: u64 = 1_344_064_000;

impl FloodWorld {
    // All nodes are tuned in, and the starting node waits to send.
    pub(crate) fn new(alloc: Global, f: &FloodText) -> Result<FloodWorld, Memory>
        ensures world { IfOk result (λ w. w ≡ first_world f.now) }
        ensures sound { IfOk result (λ w. IsSound f.now) }
        ensures start { IfOk result (λ w. (1 ≤ f.now.start) × (f.now.start ≤ GREATEST_ID)) }
    {
        let nodes = ids(alloc, f.nodes())?;
        let mut medium = Medium::new(alloc, &Profile::one(), nodes.as_slice())?;
        open(&mut medium, nodes.as_slice());
        let packet = first_packet(f.start());
        Ok(FloodWorld {
            medium,
            members: members(alloc, f, &packet)?,
            air: Air::new(alloc),
        })
    }
}

fn open(medium: &mut Medium, nodes: &[NodeId])
    requires first { medium.old ≡ first_state one nodes.now }
    ensures { medium.new ≡ medium_at_opening nodes.now medium.old }
{
    for node in nodes {
        medium.tune(*node, Some(channel()), OPENING);
    }
}

fn members(alloc: Global, f: &FloodText, packet: &Packet) -> Result<Vec<Member>, Memory>
    requires value { packet.now ≡ first_packet_of f.now.start }
    requires spelled { (is_packet packet.now ≡ true) × (slice_index packet.now 2 ≡ 0) }
    ensures { IfOk result (λ v. v.items ≡ map (first_member_of f.now) f.now.nodes) }
{
    let mut members = Vec::new(alloc);
    for line in f.nodes() {
        let member = first_member(f, packet, line.node);
        members.push(member)?;
    }
    Ok(members)
}

fn first_member(f: &FloodText, packet: &Packet, node: NodeId) -> Member
    requires value { packet.now ≡ first_packet_of f.now.start }
    requires spelled { (is_packet packet.now ≡ true) × (slice_index packet.now 2 ≡ 0) }
    ensures { (offset : ℕ) → result ≡ first_member_of f.now (record { node = node; offset = offset }) }
{
    if f.start() != node {
        return Member {
            node,
            flood: Flood::listen(Kind::Payload, 1, f.sends()),
            act: Act::Listens,
        };
    }
    Member {
        node,
        flood: Flood::initiate(packet, f.sends()),
        act: Act::Waits(START, packet.copy()),
    }
}

// A data packet of the starting node in slot 1, of its first boot, stream 0 and number 0, with no payload.
fn first_packet(start: NodeId) -> Packet
    ensures value { result ≡ first_packet_of start }
    ensures spelled { (is_packet result ≡ true) × (slice_index result 2 ≡ 0) }
    ensures start { (1 ≤ start) × (start ≤ GREATEST_ID) }
{
    encode_payload(&DataPacket {
        slot: 1,
        counter: 0,
        node: start,
        boot: 1,
        stream: 0,
        seq: 0,
        payload: Payload::new(&[]).unwrap(),
    })
}
