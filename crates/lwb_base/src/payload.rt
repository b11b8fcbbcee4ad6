//! The payload of a data packet.

ghost use Rattle.std.specs.Prelude.{◌≡◌, ℕ, ◌≤◌, List, length};
ghost use Rattle.std.specs.Option.{SomeIff};

use arrayvec::ArrayVec;
use std::marker::Model;

/// What a data packet carries, at most 96 bytes. Contracts see the list of bytes.
#[derive(Drop)]
pub struct Payload {
    bytes: ArrayVec<u8, 96>,
}

impl Model for Payload {
    ghost Value = { List ℕ };

    ghost view = { λ p. p.bytes.items };

    ghost invariant = { λ p. length p.bytes.items ≤ 96 };

    ghost inverse = { λ xs. record { bytes = record { items = xs } } };
}

impl Payload {
    /// Returns `None` if and only if there are more than 96 bytes.
    pub fn new(bytes: &[u8]) -> Option<Payload>
        ensures { SomeIff result (length bytes.now ≤ 96) bytes.now }
    {
        let mut kept = ArrayVec::new();
        match kept.try_extend_from_slice(bytes) {
            Ok(()) => Some(Payload { bytes: kept }),
            Err(_) => None,
        }
    }

    /// The same bytes again.
    pub fn copy(&self) -> Payload
        ensures { result ≡ self.now }
    {
        Payload::new(self.bytes()).unwrap()
    }

    /// The bytes, at most 96.
    pub fn bytes(&self) -> &[u8]
        ensures value { result.now ≡ self.now }
        ensures length { length self.now ≤ 96 }
    {
        self.bytes.as_slice()
    }
}
