//! Payloads as words of a text.

ghost use Rattle.std.specs.Prelude.{◌≡◌, nat_le, if◌then◌else◌, Some, None, length};
ghost use Rattle.scenario_text.specs.Payloads.{is_payload as is_payload_of, payload as payload_of, hex_bytes};

use arrayvec::ArrayVec;
use lwb_base::Payload;
use text_readers::{are_hex, hex_value};

/// Whether the word is `-`, or an even count of hexadecimal digits.
pub fn is_payload(word: &[u8]) -> bool
    ensures { result ≡ is_payload_of word.now }
{
    word == b"-".as_slice() || (are_hex(word) && word.len() % 2 == 0)
}

/// The payload that the word is. None where it is longer than any may be.
pub fn payload(word: &[u8]) -> Option<Payload>
    ensures { result ≡ payload_of word.now }
{
    if word == b"-".as_slice() {
        return Payload::new(&[]);
    }
    hex_payload(word)
}

fn hex_payload(digits: &[u8]) -> Option<Payload>
    ensures { result ≡ (if nat_le (length (hex_bytes digits.now)) 96 then Some (hex_bytes digits.now) else None) }
{
    let mut bytes: ArrayVec<u8, 96> = ArrayVec::new();
    let mut rest = digits;
    while rest.len() >= 2 {
        let byte = 16 * hex_value(rest[0]) + hex_value(rest[1]);
        if bytes.try_push(byte).is_err() {
            return None;
        }
        rest = &rest[2..];
    }
    Payload::new(bytes.as_slice())
}
