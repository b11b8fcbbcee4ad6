//! What a packet says, by its bytes.

ghost use Rattle.std.specs.Prelude.{◌≡◌, IfSome};
ghost use Rattle.std.specs.Option.{option_map};
ghost use Rattle.glossy_relay.specs.Relaying.{slot_of};
ghost use Rattle.lwb_member.specs.Members.{IsHeardInRange, StandsIn};
ghost use Rattle.lwb_member.specs.Said.{meaning, message_of, IsReadFrom};

use lwb_base::Packet;
use lwb_packets::{DataPacket, Request, decode_payload, decode_request};
use schedule_codec::{Schedule, read};

/// What a received packet says.
#[derive(Drop)]
pub enum Heard {
    /// A host opens or closes its round.
    Schedule(Schedule),
    /// A packet of a stream.
    Data(DataPacket),
    /// A request of a stream.
    Request(Request),
}

/// What a packet says. Returns `None` if and only if its bytes are no spelling.
#[tactic(auto, using(crate::proofs::Meanings::says_data, crate::proofs::Meanings::says_request))]
pub fn message_in(p: &Packet) -> Option<Heard>
    ensures value { option_map meaning result ≡ message_of p.now }
    ensures read { IfSome result (IsReadFrom p.now) }
    ensures ranges { IfSome result IsHeardInRange }
    ensures place { IfSome result (StandsIn (slot_of p.now)) }
{
    if let Some(data) = decode_payload(p) {
        return Some(Heard::Data(data));
    }
    if let Some(request) = decode_request(p) {
        return Some(Heard::Request(request));
    }
    match read(p) {
        Some(schedule) => Some(Heard::Schedule(schedule)),
        None => None,
    }
}
