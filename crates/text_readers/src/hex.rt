//! Hexadecimal digits.

ghost use Rattle.std.specs.Prelude.{◌≡◌, ◌<◌};
ghost use Rattle.std.specs.Char.{is_ascii_hexdigit};
ghost use Rattle.std.specs.List.{list_all};
ghost use Rattle.text_readers.specs.Hex.{hex_value as hex_value_of};

/// Whether all are hexadecimal digits, of either case.
pub fn are_hex(word: &[u8]) -> bool
    ensures { result ≡ list_all is_ascii_hexdigit word.now }
{
    word.iter().all(|b| b.is_ascii_hexdigit())
}

/// The value of a hexadecimal digit of either case, and 0 for what is no digit.
pub fn hex_value(digit: u8) -> u8
    ensures value { result ≡ hex_value_of digit }
    ensures small { result < 16 }
{
    match digit {
        b'0'..=b'9' => digit - b'0',
        b'a'..=b'f' => digit - b'a' + 10,
        b'A'..=b'F' => digit - b'A' + 10,
        _ => 0,
    }
}
