//! Writes numbers in decimal digits.

ghost use Rattle.std.specs.Prelude.{◌≡◌, ◌++◌, ◌∷◌, OnOk, flat_map, string_bytes};

use itoa::{Buffer, Integer};
use std::alloc::AllocError;

/// Writes a space and a number in decimal digits, a `-` before them where it is below 0.
pub fn write_number<I: Integer>(text: &mut String, number: I) -> Result<(), AllocError>
    ensures { OnOk result (string_bytes text.new ≡ string_bytes text.old ++ 32 ∷ I.text number) }
{
    text.push(' ')?;
    let mut digits = Buffer::new();
    text.push_str(digits.format(number))
}

/// Writes numbers, each after a space.
pub fn write_numbers<I: Integer>(text: &mut String, numbers: &[I]) -> Result<(), AllocError>
    ensures { OnOk result (string_bytes text.new ≡ string_bytes text.old ++ flat_map (λ n. 32 ∷ I.text n) numbers.now) }
{
    for number in numbers {
        write_number(text, *number)?;
    }
    Ok(())
}
