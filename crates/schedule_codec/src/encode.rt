//! From a schedule to bytes.

ghost use Rattle.std.specs.Prelude.{◌≡◌, length, Some, true};
ghost use Rattle.schedule_codec.specs.Spelling.{IsWritable, schedule_spelling, schedule_in_range, length_of};
ghost use Rattle.schedule_codec.specs.Reading.{schedule_of};

use crate::Schedule;
use crate::ack_bytes::write_acks;
use crate::owner_bytes::write_owners;
use arrayvec::ArrayVec;
use lwb_base::Packet;

/// The one spelling of a schedule in this slot, with counter 0: 10 to 74 bytes. The slot is 0 for an opening schedule, and 2 to
/// 42 for a closing schedule, or 2 to 45 where the number of contention slots is named.
pub fn write(s: &Schedule, slot: u8) -> Packet
    requires { IsWritable s.now slot }
    ensures value { result ≡ schedule_spelling s.now slot 0 }
    ensures many { length result ≡ length_of s.now }
    ensures reads_back { schedule_of result ≡ Some s.now }
{
    spell(s, slot)
}

// The bytes of a schedule, whose parts are all in range.
fn spell(s: &Schedule, slot: u8) -> Packet
    requires { IsWritable s.now slot }
    ensures value { result ≡ schedule_spelling s.now slot 0 }
    ensures in_range { schedule_in_range s.now slot 0 ≡ true }
{
    let kind = if s.contend == 0 { 1 } else { 4 };
    let head = [kind, slot, 0, s.host.number() * 16 + s.gap, s.host_boot];
    let acks = write_acks(s.contend, &s.acks);
    let owners = write_owners(&s.owners);
    let mut bytes: ArrayVec<u8, 74> = ArrayVec::new();
    bytes.try_extend_from_slice(&head).unwrap();
    bytes.try_extend_from_slice(acks.as_slice()).unwrap();
    bytes.try_extend_from_slice(owners.as_slice()).unwrap();
    Packet::new(bytes.as_slice()).unwrap()
}
