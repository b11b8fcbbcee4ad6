//! The bytes of a packet.

ghost use Rattle.std.specs.Prelude.{◌≡◌, ℕ, ◌≤◌, ◌<◌, List, length, slice_index};
ghost use Rattle.std.specs.Option.{SomeIff};

use arrayvec::ArrayVec;
use std::marker::Model;

/// The bytes of one packet on the air, 3 to 125 of them. Contracts see the list of bytes.
#[derive(Drop)]
pub struct Packet {
    bytes: ArrayVec<u8, 125>,
}

impl Model for Packet {
    ghost Value = { List ℕ };

    ghost view = { λ p. p.bytes.items };

    ghost invariant = { λ p. (3 ≤ length p.bytes.items) × (length p.bytes.items ≤ 125) };

    ghost inverse = { λ xs. record { bytes = record { items = xs } } };
}

impl Packet {
    /// Returns `None` if and only if there are fewer than 3 or more than 125 bytes.
    pub fn new(bytes: &[u8]) -> Option<Packet>
        ensures { SomeIff result ((3 ≤ length bytes.now) × (length bytes.now ≤ 125)) bytes.now }
    {
        if bytes.len() < 3 || bytes.len() > 125 {
            return None;
        }
        let mut kept = ArrayVec::new();
        match kept.try_extend_from_slice(bytes) {
            Ok(()) => Some(Packet { bytes: kept }),
            Err(_) => None,
        }
    }

    /// The same bytes again.
    pub fn copy(&self) -> Packet
        ensures { result ≡ self.now }
    {
        Packet::new(self.bytes()).unwrap()
    }

    /// The bytes, from the first on the air to the last.
    pub fn bytes(&self) -> &[u8]
        ensures value { result.now ≡ self.now }
        ensures length { (3 ≤ length self.now) × (length self.now ≤ 125) }
    {
        self.bytes.as_slice()
    }

    /// How many bytes there are, 3 to 125.
    pub fn length(&self) -> u8
        ensures value { result ≡ length self.now }
        ensures range { (3 ≤ result) × (result ≤ 125) }
    {
        self.bytes.len() as u8
    }

    /// The slot, byte 1.
    pub fn slot(&self) -> u8
        ensures { result ≡ slice_index self.now 1 }
    {
        self.bytes()[1]
    }

    /// The relay counter, byte 2.
    pub fn counter(&self) -> u8
        ensures { result ≡ slice_index self.now 2 }
    {
        self.bytes()[2]
    }
}
