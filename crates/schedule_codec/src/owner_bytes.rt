//! The owners of a schedule as bytes.

ghost use Rattle.std.specs.Prelude.{◌≡◌, ◌<◌, ◌≤◌, ℕ, List, ◌∷◌, true, length, IfSome, SomeIff, Some};
ghost use Rattle.std.specs.List.{list_all};
ghost use Rattle.lwb_packets.specs.Ranges.{between};
ghost use Rattle.lwb_packets.specs.TwoBytes.{two_bytes as bytes_of_two};
ghost use Rattle.schedule_codec.specs.Packing.{fit};
ghost use Rattle.schedule_codec.specs.OwnerLists.{are_owners, differences as differences_of, codes_bytes, owners_bytes};
ghost use Rattle.schedule_codec.specs.Reading.{summed as summed_from};

use crate::Owners;
use crate::differences::{differences, is_least, least_width};
use crate::packing::{pack, unpack};
use arrayvec::ArrayVec;
use byteorder::{BigEndian, ByteOrder};
use lwb_base::DATA_SLOTS;

/// The count of owners; where there are any, the first code with the width, and the packed differences.
pub fn write_owners(owners: &Owners) -> ArrayVec<u8, 52>
    ensures value { result.items ≡ owners_bytes owners.now }
    ensures owners { are_owners owners.now ≡ true }
{
    let mut bytes = ArrayVec::new();
    bytes.push(owners.count());
    if let [first, rest @ ..] = owners.codes() {
        bytes
            .try_extend_from_slice(write_codes(*first, rest).as_slice())
            .unwrap();
    }
    bytes
}

// The first code with the width of the differences, and these packed.
fn write_codes(first: u16, rest: &[u16]) -> ArrayVec<u8, 51>
    requires { are_owners (first ∷ rest.now) ≡ true }
    ensures { result.items ≡ codes_bytes first (differences_of (first ∷ rest.now)) }
{
    let steps = differences(first, rest);
    let width = least_width(steps.as_slice());
    let start = two_bytes(first * 16 + u16::from(width));
    let packed = pack(steps.as_slice(), width);
    let mut bytes = ArrayVec::new();
    bytes.try_extend_from_slice(&start).unwrap();
    bytes.try_extend_from_slice(packed.as_slice()).unwrap();
    bytes
}

/// The owners that these bytes spell, from the count on. Returns `None` if and only if they spell none.
pub fn read_owners(bytes: &[u8]) -> Option<Owners>
    ensures some { IfSome result (λ cs. (are_owners cs ≡ true) × (owners_bytes cs ≡ bytes.now)) }
    ensures all { (cs : List ℕ) → are_owners cs ≡ true → owners_bytes cs ≡ bytes.now → result ≡ Some cs }
{
    let [count, codes @ ..] = bytes else {
        return None;
    };
    if *count > 0 {
        return read_codes(*count, codes);
    }
    if codes.is_empty() {
        Some(Owners::new())
    } else {
        None
    }
}

// The owners that are spelled by this count and these bytes after it.
fn read_codes(count: u8, bytes: &[u8]) -> Option<Owners>
    requires { 0 < count }
    ensures some { IfSome result (λ cs. (are_owners cs ≡ true) × (owners_bytes cs ≡ count ∷ bytes.now)) }
    ensures all { (cs : List ℕ) → are_owners cs ≡ true → owners_bytes cs ≡ count ∷ bytes.now → result ≡ Some cs }
{
    let [high, low, packed @ ..] = bytes else {
        return None;
    };
    let start = BigEndian::read_u16(&[*high, *low]);
    let width = (start % 16) as u8;
    if count > DATA_SLOTS || width > 10 {
        return None;
    }
    let steps = unpack(packed, width, count - 1)?;
    if !is_least(steps.as_slice(), width) {
        return None;
    }
    summed(start / 16, steps.as_slice())
}

// The owners from a first code on, each next one by its difference. None if and only if one is no owner's code.
fn summed(first: u16, steps: &[u16]) -> Option<Owners>
    requires few { length steps.now ≤ 39 }
    requires small { fit 10 steps.now ≡ true }
    ensures { SomeIff result (list_all (between 4 803) (summed_from first steps.now) ≡ true) (summed_from first steps.now) }
{
    if first < 4 || first > 803 {
        return None;
    }
    let mut codes = ArrayVec::new();
    codes.push(first);
    let mut code = first;
    for step in steps {
        code += *step;
        codes.push(code);
    }
    // No code is below the one before, so all others are in range where the last is.
    if code > 803 {
        return None;
    }
    Some(Owners::from_codes(codes))
}

// A number in two bytes.
fn two_bytes(n: u16) -> [u8; 2]
    ensures { result ≡ bytes_of_two n }
{
    let mut bytes = [0u8; 2];
    BigEndian::write_u16(&mut bytes, n);
    bytes
}
