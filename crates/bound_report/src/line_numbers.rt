//! Which line of a text says what breaks a premise.

ghost use Rattle.std.specs.Prelude.{◌≡◌, ◌<◌, ◌^◌, IfOk, length, map};
ghost use Rattle.std.specs.Str.Lines.{lines};
ghost use Rattle.bound_report.specs.LineNumbers.{begins as begins_of, has_number as has_number_of, line_saying as line_saying_of};
ghost use Rattle.bound_report.specs.LineNumbers.{says as says_of, switch_word as switch_word_of};

use bus_bounds::BreakingLine;
use lwb_base::{Memory, NodeId};
use std::alloc::Global;
use text_readers::{first_line, is, number, split_into, word};

/// The number of the first line of a text of fewer than 2^31 bytes that says this, where the first one is line 1. None where none does.
pub(crate) fn line_saying(
    alloc: Global,
    line: &BreakingLine,
    bytes: &[u8],
) -> Result<Option<u32>, Memory>
    requires { length bytes.now < 2 ^ 31 }
    ensures { IfOk result (λ n. n ≡ line_saying_of line.now 1 (lines bytes.now)) }
{
    let mut words = Vec::new(alloc);
    let mut rest = bytes;
    let mut count = 1;
    while !rest.is_empty() {
        let (first, others) = first_line(rest);
        split_into(&mut words, first)?;
        if says(line, words.as_slice()) {
            return Ok(Some(count));
        }
        rest = others;
        count += 1;
    }
    Ok(None)
}

fn says(line: &BreakingLine, words: &[&[u8]]) -> bool
    ensures { result ≡ says_of line.now (map (λ w. w.now) words.now) }
{
    match line {
        BreakingLine::Switch(l) => {
            begins(words, 3, switch_word(l.on), l.frame) && has_node(words, 2, l.node)
        }
        BreakingLine::Lose(l) => {
            begins(words, 6, b"lose", l.frame)
                && has_number(words, 2, u64::from(l.slot))
                && has_number(words, 3, u64::from(l.step))
                && has_node(words, 4, l.from)
                && has_node(words, 5, l.to)
        }
        BreakingLine::Cut(l) => {
            begins(words, 5, b"cut", l.frame)
                && has_number(words, 2, u64::from(l.slot))
                && has_number(words, 3, u64::from(l.step))
                && has_node(words, 4, l.node)
        }
        BreakingLine::Rated(l) => {
            begins(words, 5, b"ratio", l.frame)
                && has_node(words, 2, l.from)
                && has_node(words, 3, l.to)
                && has_number(words, 4, u64::from(l.ratio))
        }
    }
}

// Whether there are this many words, the first is this one, and the next the number of that frame.
fn begins(words: &[&[u8]], count: usize, name: &[u8], frame: u32) -> bool
    ensures { result ≡ begins_of (map (λ w. w.now) words.now) count name.now frame }
{
    words.len() == count && is(word(words, 0), name) && has_number(words, 1, u64::from(frame))
}

fn has_node(words: &[&[u8]], i: usize, node: NodeId) -> bool
    ensures { result ≡ has_number_of (map (λ w. w.now) words.now) i node }
{
    has_number(words, i, u64::from(node.number()))
}

fn switch_word(on: bool) -> &'static [u8]
    ensures { result.now ≡ switch_word_of on }
{
    if on { b"on" } else { b"off" }
}

// Whether word i is this number.
fn has_number(words: &[&[u8]], i: usize, expected: u64) -> bool
    ensures { result ≡ has_number_of (map (λ w. w.now) words.now) i expected }
{
    match number(word(words, i)) {
        Ok(value) => value == expected,
        Err(_) => false,
    }
}
