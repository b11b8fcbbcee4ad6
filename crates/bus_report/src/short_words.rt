//! Words and numbers that mostly have one digit.

ghost use Rattle.std.specs.Prelude.{◌≡◌, ◌++◌, ◌∷◌, OnOk, decimal, flat_map, map, string_bytes};
ghost use Rattle.std.specs.List.{join_with_byte};

use std::alloc::AllocError;
use text_writers::write_number;

/// Writes a word and numbers after it, with one space between each two of them. A number of one digit, as most of a
/// delivery are, takes the short way.
pub fn write_short_words(text: &mut String, word: &str, numbers: &[u32]) -> Result<(), AllocError>
    ensures { OnOk result (string_bytes text.new ≡ string_bytes text.old ++ join_with_byte 32 (word.now ∷ map decimal numbers.now)) }
{
    text.push_str(word)?;
    write_short_numbers(text, numbers)
}

// Numbers, each after a space.
fn write_short_numbers(text: &mut String, numbers: &[u32]) -> Result<(), AllocError>
    ensures { OnOk result (string_bytes text.new ≡ string_bytes text.old ++ flat_map (λ n. 32 ∷ decimal n) numbers.now) }
{
    for number in numbers {
        write_short_number(text, *number)?;
    }
    Ok(())
}

// A space and a number.
fn write_short_number(text: &mut String, number: u32) -> Result<(), AllocError>
    ensures { OnOk result (string_bytes text.new ≡ string_bytes text.old ++ 32 ∷ decimal number) }
{
    if number >= 10 {
        return write_number(text, number);
    }
    text.push(' ')?;
    text.push(char::from(b'0' + number as u8))
}
