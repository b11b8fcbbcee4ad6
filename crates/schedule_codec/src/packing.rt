//! Numbers of a few bits each, packed into bytes.

ghost use Rattle.std.specs.Prelude.{◌≡◌, ℕ, ◌≤◌, List, length, IfSome, Some, true};
ghost use Rattle.schedule_codec.specs.Packing.{fit, packed, Packs};

use crate::bits::{BitReader, BitWriter};
use arrayvec::ArrayVec;

/// Numbers of `width` bits each, the highest bit first, without gaps and filled up with zero bits to a whole byte.
pub fn pack(numbers: &[u16], width: u8) -> ArrayVec<u8, 49>
    requires few { length numbers.now ≤ 39 }
    requires narrow { width ≤ 10 }
    requires fits { fit width numbers.now ≡ true }
    ensures { result.items ≡ packed width numbers.now }
{
    let mut bits = BitWriter::new();
    for number in numbers {
        bits.push(*number, width);
    }
    bits.finish()
}

/// The numbers of `width` bits each that were packed into these bytes. Returns `None` if and only if no such numbers were.
pub fn unpack(bytes: &[u8], width: u8, count: u8) -> Option<ArrayVec<u16, 39>>
    requires few { count ≤ 39 }
    requires narrow { width ≤ 10 }
    ensures some { IfSome result (λ numbers. Packs width count bytes.now numbers.items) }
    ensures all { (ds : List ℕ) → Packs width count bytes.now ds → result ≡ Some (record { items = ds }) }
{
    let length = usize::from(count) * usize::from(width);
    if bytes.len() != length.div_ceil(8) {
        return None;
    }
    let mut bits = BitReader::new(bytes);
    let mut numbers = ArrayVec::new();
    for _ in 0..count {
        numbers.push(bits.take(width));
    }
    if bits.is_filled() {
        Some(numbers)
    } else {
        None
    }
}
