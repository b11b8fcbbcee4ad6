//! Packets as words of hexadecimal digits.

ghost use Rattle.std.specs.Prelude.{◌≡◌};
ghost use Rattle.scenario_text.specs.Payloads.{hex_bytes};
ghost use Rattle.air_check.specs.LogGrammar.{is_hex as is_hex_of, packet_of_bytes};

use arrayvec::ArrayVec;
use lwb_base::Packet;
use text_readers::{are_hex, hex_value};

/// Whether the word is an even count of hexadecimal digits, of either case.
pub fn is_hex(word: &[u8]) -> bool
    ensures { result ≡ is_hex_of word.now }
{
    are_hex(word) && word.len() % 2 == 0
}

/// The packet that the digits spell. None where it has fewer than 3 or more than 125 bytes.
pub fn packet(digits: &[u8]) -> Option<Packet>
    ensures { result ≡ packet_of_bytes (hex_bytes digits.now) }
{
    let mut bytes: ArrayVec<u8, 125> = ArrayVec::new();
    let mut rest = digits;
    while rest.len() >= 2 {
        let byte = 16 * hex_value(rest[0]) + hex_value(rest[1]);
        if bytes.try_push(byte).is_err() {
            return None;
        }
        rest = &rest[2..];
    }
    Packet::new(bytes.as_slice())
}
