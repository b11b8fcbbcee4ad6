//! Requests and their bytes.

ghost use Rattle.std.specs.Prelude.{◌≡◌, IfSome, is_some, Some};
ghost use Rattle.lwb_packets.specs.Requests.{InRange, SpellsRequest, request_spelling, is_request};
ghost use Rattle.lwb_packets.specs.declared.request.Request.{Request};

use lwb_base::{DATA_SLOTS, LAST_STEP, MOST_BOOTS, NodeId, Packet};

/// A request of a stream of a node, which it sends to the host in a contention slot.
#[derive(Clone, Copy, Debug, PartialEq, Eq)]
pub struct Request {
    /// The contention slot of the round, which comes after its data slots: 1 to `DATA_SLOTS + 4`.
    pub slot: u8,
    /// The relay counter, 0 to `LAST_STEP`.
    pub counter: u8,
    /// The node that asks.
    pub node: NodeId,
    /// The boot of the node, 1 to `MOST_BOOTS`.
    pub boot: u8,
    /// The stream of the node, 0 to 3.
    pub stream: u8,
    /// The seconds from packet to packet, 1 to 120; 0 ends the stream.
    pub interval: u8,
}

/// The one spelling of a request.
pub fn encode_request(r: &Request) -> Packet
    requires { InRange r.now }
    ensures { result ≡ request_spelling r.now }
{
    let bytes = [
        3,
        r.slot,
        r.counter,
        r.node.number(),
        r.boot,
        r.stream,
        r.interval,
    ];
    Packet::new(&bytes).unwrap()
}

/// The request that these bytes spell. Returns `None` if and only if they spell none.
pub fn decode_request(p: &Packet) -> Option<Request>
    ensures some { IfSome result (SpellsRequest p.now) }
    ensures all { (r : Request) → SpellsRequest p.now r → result ≡ Some r }
    ensures none { is_some result ≡ is_request p.now }
{
    let &[3, slot, counter, node, boot, stream, interval] = p.bytes() else {
        return None;
    };
    if slot < 1
        || slot > DATA_SLOTS + 4
        || counter > LAST_STEP
        || boot < 1
        || boot > MOST_BOOTS
        || stream > 3
        || interval > 120
    {
        return None;
    }
    let node = NodeId::new(node)?;
    Some(Request {
        slot,
        counter,
        node,
        boot,
        stream,
        interval,
    })
}
