//! The kinds of packets.

ghost use Rattle.std.specs.Prelude.{◌≡◌};
ghost use Rattle.lwb_packets.specs.Kinds.{kind_in};

use lwb_base::Packet;

/// What a packet is, by its first byte.
#[derive(Clone, Copy, Debug, PartialEq, Eq)]
pub enum Kind {
    /// A schedule of either version.
    Schedule,
    /// A data packet, which carries a payload.
    Payload,
    /// A request of a stream, which a node sends in a contention slot.
    Request,
}

/// The kind that byte 0 names: 1 and 4 a schedule, 2 data, 3 a request. Returns `None` if and only if it is another byte.
pub fn kind_of(packet: &Packet) -> Option<Kind>
    ensures { result ≡ kind_in packet.now }
{
    match packet.bytes()[0] {
        1 | 4 => Some(Kind::Schedule),
        2 => Some(Kind::Payload),
        3 => Some(Kind::Request),
        _ => None,
    }
}
