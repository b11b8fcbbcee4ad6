//! Packets that differ only by the relay counter.

ghost use Rattle.std.specs.Prelude.{◌≡◌, slice_set};
ghost use Rattle.std.specs.Str.{bytes_eq};
ghost use Rattle.lwb_packets.specs.Body.{body};

use lwb_base::Packet;

/// The same bytes but the relay counter, byte 2.
pub fn with_counter(p: &Packet, counter: u8) -> Packet
    ensures { result ≡ slice_set p.now 2 counter }
{
    let old = p.bytes();
    let mut bytes = [0u8; 125];
    let room = &mut bytes[..old.len()];
    room.copy_from_slice(old);
    room[2] = counter;
    Packet::new(room).unwrap()
}

/// Whether the two are equal but for the relay counter.
pub fn same_body(a: &Packet, b: &Packet) -> bool
    ensures { result ≡ bytes_eq (body a.now) (body b.now) }
{
    let (a, b) = (a.bytes(), b.bytes());
    a[..2] == b[..2] && a[3..] == b[3..]
}
