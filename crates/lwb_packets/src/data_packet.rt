//! Data packets and their bytes.

ghost use Rattle.std.specs.Prelude.{◌≡◌, IfSome, is_some, Some};
ghost use Rattle.lwb_packets.specs.DataPackets.{InRange, SpellsData, data_spelling, is_data};
ghost use Rattle.lwb_packets.specs.declared.data_packet.DataPacket.{DataPacket};

use byteorder::{BigEndian, ByteOrder};
use lwb_base::{DATA_SLOTS, LAST_STEP, MOST_BOOTS, NodeId, Packet, Payload};

/// A data packet: a payload of one stream of a node, with its place in the round and in the flood.
#[derive(Drop)]
pub struct DataPacket {
    /// The slot of the round, 1 to `DATA_SLOTS`.
    pub slot: u8,
    /// The relay counter, 0 to `LAST_STEP`.
    pub counter: u8,
    /// The node whose stream it is.
    pub node: NodeId,
    /// The boot of the node that sent it, 1 to `MOST_BOOTS`.
    pub boot: u8,
    /// The stream of the node, 0 to 3.
    pub stream: u8,
    /// The number of the packet in its stream, 0 to 65,534.
    pub seq: u16,
    /// What it carries, 0 to 96 bytes.
    pub payload: Payload,
}

/// The one spelling of a data packet.
pub fn encode_payload(d: &DataPacket) -> Packet
    requires { InRange d.now }
    ensures { result ≡ data_spelling d.now }
{
    let payload = d.payload.bytes();
    let end = 8 + payload.len();
    let mut bytes = [0u8; 104];
    bytes[0] = 2;
    bytes[1] = d.slot;
    bytes[2] = d.counter;
    bytes[3] = d.node.number();
    bytes[4] = d.boot;
    bytes[5] = d.stream;
    BigEndian::write_u16(&mut bytes[6..8], d.seq);
    bytes[8..end].copy_from_slice(payload);
    Packet::new(&bytes[..end]).unwrap()
}

/// The data packet that these bytes spell. Returns `None` if and only if they spell none.
pub fn decode_payload(p: &Packet) -> Option<DataPacket>
    ensures some { IfSome result (SpellsData p.now) }
    ensures all { (d : DataPacket) → SpellsData p.now d → result ≡ Some d }
    ensures none { is_some result ≡ is_data p.now }
{
    let bytes = p.bytes();
    let [
        2,
        slot,
        counter,
        node,
        boot,
        stream,
        high,
        low,
        payload @ ..,
    ] = bytes
    else {
        return None;
    };
    let seq = BigEndian::read_u16(&[*high, *low]);
    if *slot < 1
        || *slot > DATA_SLOTS
        || *counter > LAST_STEP
        || *boot < 1
        || *boot > MOST_BOOTS
        || *stream > 3
        || seq > 65534
    {
        return None;
    }
    let node = NodeId::new(*node)?;
    let payload = Payload::new(payload)?;
    Some(DataPacket {
        slot: *slot,
        counter: *counter,
        node,
        boot: *boot,
        stream: *stream,
        seq,
        payload,
    })
}
