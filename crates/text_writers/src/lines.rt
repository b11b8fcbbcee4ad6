//! Writes lines of words and numbers.

ghost use Rattle.std.specs.Prelude.{◌≡◌, ℕ, List, [], ◌++◌, ◌∷◌, OnOk, flat_map, map, string_bytes};
ghost use Rattle.std.specs.List.{enumerate_from, join_with_byte};
ghost use Rattle.text_writers.specs.Lines.{line_text, WritesEach, TakesPlaces, WritesPlaces};

use crate::numbers::write_numbers;
use itoa::Integer;
use std::alloc::AllocError;

/// Writes a word and numbers after it, with one space between each two of them.
pub fn write_words<I: Integer>(
    text: &mut String,
    word: &str,
    numbers: &[I],
) -> Result<(), AllocError>
    ensures { OnOk result (string_bytes text.new ≡ string_bytes text.old ++ join_with_byte 32 (word.now ∷ map I.text numbers.now)) }
{
    text.push_str(word)?;
    write_numbers(text, numbers)
}

/// Writes the end of a line.
pub fn end_line(text: &mut String) -> Result<(), AllocError>
    ensures { OnOk result (string_bytes text.new ≡ string_bytes text.old ++ 10 ∷ []) }
{
    text.push('\n')
}

/// Writes a line of a word and numbers.
pub fn write_line<I: Integer>(
    text: &mut String,
    word: &str,
    numbers: &[I],
) -> Result<(), AllocError>
    ensures { OnOk result (string_bytes text.new ≡ string_bytes text.old ++ line_text (word.now ∷ map I.text numbers.now)) }
{
    write_words(text, word, numbers)?;
    end_line(text)
}

/// Writes the line of each item, in their order.
pub fn write_lines<T, F>(text: &mut String, items: &[T], write: F) -> Result<(), AllocError>
where
    F: Fn(&mut String, &T) -> Result<(), AllocError>,
    requires { F.IsAlwaysCallable write }
    ensures { (line : T → List ℕ) → WritesEach F.Fn write items.now line
        → OnOk result (string_bytes text.new ≡ string_bytes text.old ++ flat_map line items.now) }
{
    write_lines_in_places(text, items, |text, _place, item| write(text, item))
}

/// Writes the line of each item and its place, which is 0 for the first.
pub fn write_lines_in_places<T, F>(
    text: &mut String,
    items: &[T],
    write: F,
) -> Result<(), AllocError>
where
    F: Fn(&mut String, usize, &T) -> Result<(), AllocError>,
    requires { TakesPlaces F.Fn write items.now }
    ensures { (line : ℕ × T → List ℕ) → WritesPlaces F.Fn write items.now line
        → OnOk result (string_bytes text.new ≡ string_bytes text.old ++ flat_map line (enumerate_from 0 items.now)) }
{
    for (place, item) in items.iter().enumerate() {
        write(text, place, item)?;
    }
    Ok(())
}
