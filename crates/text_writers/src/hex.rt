//! Writes bytes in hexadecimal digits.

ghost use Rattle.std.specs.Prelude.{◌≡◌, ◌++◌, ◌∷◌, ◌<◌, OnOk, false, string_bytes};
ghost use Rattle.std.specs.Fmt.{digit_glyph};
ghost use Rattle.text_writers.specs.HexWords.{hex_word, payload_word};

use std::alloc::AllocError;

/// Writes bytes as two digits each, in lower case.
pub fn write_hex(text: &mut String, bytes: &[u8]) -> Result<(), AllocError>
    ensures { OnOk result (string_bytes text.new ≡ string_bytes text.old ++ hex_word bytes.now) }
{
    for b in bytes {
        text.push(hex_digit(*b / 16))?;
        text.push(hex_digit(*b % 16))?;
    }
    Ok(())
}

/// Writes a payload's bytes as two digits each, or `-` where there are none.
pub fn write_payload(text: &mut String, bytes: &[u8]) -> Result<(), AllocError>
    ensures { OnOk result (string_bytes text.new ≡ string_bytes text.old ++ payload_word bytes.now) }
{
    if bytes.is_empty() {
        return text.push_str("-");
    }
    write_hex(text, bytes)
}

fn hex_digit(value: u8) -> char
    requires { value < 16 }
    ensures digit { result ≡ digit_glyph false value }
    ensures ascii { result < 128 }
{
    if value < 10 {
        char::from(b'0' + value)
    } else {
        char::from(b'a' + (value - 10))
    }
}
