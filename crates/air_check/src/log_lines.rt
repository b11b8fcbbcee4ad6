//! The lines of a log, one after another.

ghost use Rattle.std.specs.Prelude.{◌≡◌, ◌<◌, ◌^◌, length, map};
ghost use Rattle.text_readers.specs.Faults.{IsAsDefined};
ghost use Rattle.text_readers.specs.Reading.{Reads};
ghost use Rattle.air_check.specs.LogGrammar.{after_log_line, is_report as is_report_of, log_of};

use crate::line::add_entry;
use air_log::Air;
use scenario_text::{NodeLine, Scenario};
use std::alloc::Global;
use text_readers::{
    FaultKind, ParseFault, Refusal, first_line, is, is_skipped, is_text, refuse_unless, split_into,
    word,
};

/// Why a log is not read: the line, counted over the whole input, and the kind, or too little memory.
pub type LogFault = ParseFault;

/// Reads the lines of a log of a scenario: lines `sent`, `heard` and `tuned` in any order, as `log` writes them, with
/// packets in hexadecimal digits of either case. Lines of a report (`deliver`, `drop`, `energy`), empty lines and comments
/// are skipped, whatever they hold. `before` is the number of lines above, and the entries are in the order of their lines.
///
/// `Line` comes if and only if a line is rejected, with the first of them, counted over the whole input, and the first of
/// these that holds of it: `NotUtf8`; `BadWord`, for another first word or count of words, or a packet with an odd count of
/// digits or another character; `BadNumber`; `Range`, for a rank above 3, an id outside 1 to 200, an end that isn't above
/// its start, or a packet of fewer than 3 or more than 125 bytes; `UnknownNode`, for an id that is no node of the scenario.
pub fn parse_log(alloc: Global, s: &Scenario, bytes: &[u8], before: u32) -> Result<Air, LogFault>
    requires few { before < 2 ^ 31 }
    requires short { length bytes.now < 2 ^ 31 }
    ensures { IsAsDefined result (log_of s.now before bytes.now) }
{
    let mut air = Air::new(alloc);
    let mut words = Vec::new(alloc);
    let mut rest = bytes;
    let mut count = before;
    while !rest.is_empty() {
        let (line, others) = first_line(rest);
        match read_line(s.nodes(), &mut words, &mut air, line) {
            Ok(()) => {}
            Err(refusal) => return Err(refusal.in_line(count + 1)),
        }
        rest = others;
        count += 1;
    }
    Ok(air)
}

// Goes on by one line, unless it is rejected. Its words take the place of those of the line before.
#[tactic(auto, unfolding(crate::specs::LogGrammar::after_log_line))]
fn read_line<'a>(
    nodes: &[NodeLine],
    words: &mut Vec<&'a [u8]>,
    air: &mut Air,
    line: &'a [u8],
) -> Result<(), Refusal>
    ensures { Reads result air.new (after_log_line nodes.now air.old line.now) }
{
    split_into(words, line)?;
    let words = words.as_slice();
    if is_report(words) || is_skipped(words) {
        return Ok(());
    }
    refuse_unless(is_text(line), FaultKind::NotUtf8)?;
    add_entry(nodes, air, words)
}

fn is_report(words: &[&[u8]]) -> bool
    ensures { result ≡ is_report_of (map (λ w. w.now) words.now) }
{
    let first = word(words, 0);
    is(first, b"deliver") || is(first, b"drop") || is(first, b"energy")
}
