//! Numbers of a few bits each, written and read one after another.

ghost use Rattle.std.specs.Prelude.{◌≡◌, ℕ, ◌+◌, ◌*◌, ◌^◌, ◌<◌, ◌≤◌, ◌==◌, length};
ghost use Rattle.schedule_codec.specs.Packing.{digits, packed_number, bytes_for, fill};

use arrayvec::ArrayVec;
use std::marker::Model;

/// Numbers of a few bits each are written one after another, the highest bit first. Contracts see the bits that were
/// written as one number.
#[derive(Drop)]
pub struct BitWriter {
    bytes: ArrayVec<u8, 49>,
    // The bits that do not make a whole byte yet: fewer than 8 between two calls.
    pending: u32,
    held: u8,
}

impl Model for BitWriter {
    ghost use Rattle.std.specs.Prelude.{ℕ, ◌≡◌, ◌+◌, ◌*◌, ◌^◌, ◌<◌, ◌≤◌, length, true};
    ghost use Rattle.schedule_codec.specs.Packing.{Bits, packed_number, fit};

    ghost Value = { Bits };

    ghost view = { λ w. record { count = 8 * length w.bytes.items + w.held; value = packed_number 8 w.bytes.items * 2 ^ w.held + w.pending } };

    ghost invariant = { λ w. (w.held < 8) × (w.pending < 2 ^ w.held) × (8 * length w.bytes.items + w.held ≤ 392) × (fit 8 w.bytes.items ≡ true) };
}

impl BitWriter {
    /// A writer that has written nothing.
    pub fn new() -> BitWriter
        ensures { result ≡ record { count = 0; value = 0 } }
    {
        BitWriter {
            bytes: ArrayVec::new(),
            pending: 0,
            held: 0,
        }
    }

    /// Writes a number of `width` bits, at most 10. There is room for 392 bits in all.
    pub fn push(&mut self, value: u16, width: u8)
        requires narrow { width ≤ 10 }
        requires value { value < 2 ^ width }
        requires room { self.old.count + width ≤ 392 }
        ensures { self.new ≡ record { count = self.old.count + width; value = self.old.value * 2 ^ width + value } }
    {
        self.pending = (self.pending << width) + u32::from(value);
        self.held += width;
        while self.held >= 8 {
            self.held -= 8;
            self.bytes.push((self.pending >> self.held) as u8);
            self.pending %= 1 << self.held;
        }
    }

    /// All that was written, filled up with zero bits to a whole byte.
    pub fn finish(self) -> ArrayVec<u8, 49>
        ensures { result.items ≡ digits 8 (bytes_for self.count) (self.value * 2 ^ fill self.count) }
    {
        let BitWriter {
            mut bytes,
            pending,
            held,
        } = self;
        if held > 0 {
            bytes.push((pending << (8 - held)) as u8);
        }
        bytes
    }
}

/// Numbers of a few bits each are read out of bytes, the highest bit first. Contracts see the bits that are left as one
/// number.
#[derive(Drop)]
pub struct BitReader<'a> {
    rest: &'a [u8],
    // The bits that are left of the bytes before the rest: fewer than 8 between two calls.
    pending: u64,
    held: u8,
}

impl<'a> Model for BitReader<'a> {
    ghost use Rattle.std.specs.Prelude.{ℕ, ◌≡◌, ◌+◌, ◌*◌, ◌^◌, ◌<◌, length};
    ghost use Rattle.schedule_codec.specs.Packing.{Bits, packed_number};

    ghost Value = { Bits };

    ghost view = { λ r. record { count = 8 * length r.rest.now + r.held; value = r.pending * 2 ^ (length r.rest.now * 8) + packed_number 8 r.rest.now } };

    ghost invariant = { λ r. (r.held < 8) × (r.pending < 2 ^ r.held) };
}

impl<'a> BitReader<'a> {
    /// A reader of all the bits of these bytes.
    pub fn new(bytes: &'a [u8]) -> BitReader<'a>
        ensures { result ≡ record { count = 8 * length bytes.entry.now; value = packed_number 8 bytes.entry.now } }
    {
        BitReader {
            rest: bytes,
            pending: 0,
            held: 0,
        }
    }

    /// Reads a number of `width` bits, at most 10 and no more than are left.
    pub fn take(&mut self, width: u8) -> u16
        requires narrow { width ≤ 10 }
        requires left { width ≤ self.old.count }
        ensures count { self.new.count + width ≡ self.old.count }
        ensures value { result * 2 ^ self.new.count + self.new.value ≡ self.old.value }
        ensures fits { result < 2 ^ width }
    {
        while self.held < width {
            let [first, rest @ ..] = self.rest else {
                unreachable!()
            };
            self.pending = self.pending * 256 + u64::from(*first);
            self.held += 8;
            self.rest = rest;
        }
        self.held -= width;
        let number = self.pending >> self.held;
        self.pending %= 1 << self.held;
        number as u16
    }

    /// Whether the last bits, which fill up a byte and are fewer than 8, are zero.
    pub fn is_filled(&self) -> bool
        requires { self.now.count < 8 }
        ensures zero { result ≡ (self.now.value == 0) }
        ensures below { self.now.value < 2 ^ self.now.count }
    {
        self.pending == 0
    }
}
