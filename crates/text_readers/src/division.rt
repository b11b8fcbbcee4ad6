//! Divides a text at a line of one word.

ghost use Rattle.std.specs.Prelude.{◌≡◌, ◌<◌, ◌^◌, ◌+◌, ◌≤◌, IfOk, IfSome, length, option_map};
ghost use Rattle.text_readers.specs.Divisions.{IsDivided, is_alone as is_alone_of};

use crate::words::{first_line, is, split_into, word as word_at};
use lwb_base::Memory;
use std::alloc::Global;

/// A text, divided by the first line whose only word is a given one. The line itself is in neither part.
#[derive(Clone, Copy)]
pub struct Division<'a> {
    /// What is above that line: the whole text, where there is no such line.
    pub above: &'a [u8],
    /// How many lines that has.
    pub count: u32,
    /// What is below that line. There is no such line if and only if it is `None`.
    pub below: Option<&'a [u8]>,
}

/// Divides a text of fewer than 2^31 bytes by the first line whose only word is the given one.
pub fn divided<'a>(alloc: Global, bytes: &'a [u8], word: &[u8]) -> Result<Division<'a>, Memory>
    requires { length bytes.now < 2 ^ 31 }
    ensures divided { IfOk result (λ d. IsDivided word.now bytes.now d.above.now d.count (option_map (λ b. b.now) d.below)) }
    ensures few { IfOk result (λ d. d.count ≤ length bytes.now) }
    ensures fewer { IfOk result (λ d. IfSome d.below (λ b. d.count + length b.now < length bytes.now)) }
    ensures short { IfOk result (λ d. length d.above.now ≤ length bytes.now) }
{
    let mut words = Vec::new(alloc);
    let mut rest = bytes;
    let mut count = 0;
    while !rest.is_empty() {
        let (line, others) = first_line(rest);
        if is_alone(&mut words, line, word)? {
            return Ok(Division {
                above: &bytes[..bytes.len() - rest.len()],
                count,
                below: Some(others),
            });
        }
        rest = others;
        count += 1;
    }
    Ok(Division {
        above: bytes,
        count,
        below: None,
    })
}

// Whether the only word of the line is that one. Its words take the place of those of the line before.
fn is_alone<'a>(words: &mut Vec<&'a [u8]>, line: &'a [u8], word: &[u8]) -> Result<bool, Memory>
    ensures { IfOk result (λ b. b ≡ is_alone_of word.now line.now) }
{
    split_into(words, line)?;
    Ok(words.len() == 1 && is(word_at(words.as_slice(), 0), word))
}
