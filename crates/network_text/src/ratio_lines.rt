//! The lines with ratios, one after another.

ghost use Rattle.std.specs.Prelude.{◌≡◌, ◌<◌, ◌^◌, [], length, map, IfOk};
ghost use Rattle.text_readers.specs.Faults.{IsAsDefined};
ghost use Rattle.text_readers.specs.Reading.{Reads, draft_after_line};
ghost use Rattle.scenario_text.specs.FloodParts.{node_id};
ghost use Rattle.network_text.specs.NetworkGrammar.{lines_read, ratios_after_words, ratios_of};

use crate::ratio_line::add_ratio;
use drawn_links::Ratios;
use lwb_base::Memory;
use scenario_text::known_nodes::ids;
use scenario_text::{ParseFault, Scenario};
use std::alloc::Global;
use text_readers::{FaultKind, Refusal, first_line, is_skipped, is_text, split_into};

/// Reads lines `ratio FRAME FROM TO RATIO`, of fewer than 2^31 bytes, for the links of a scenario. Empty lines and comments are
/// skipped. `before` is the number of lines above.
///
/// `Line` comes if and only if a line is rejected, with the first of them, counted over the whole text, and the first of these
/// that holds of it: `NotUtf8`; `BadWord`; `BadNumber`; `Range`, for a frame that the scenario does not have, an id outside 1
/// to 200, two equal ids, or a ratio above `GREATEST_RATIO`; `UnknownNode`; `Order`, where the trace has no such link, or the
/// frame is not above that of the link's last line; `TooMany`, where `MOST_RATIO_LINES` are above.
pub fn parse_ratios(
    alloc: Global,
    s: &Scenario,
    bytes: &[u8],
    before: u32,
) -> Result<Ratios, ParseFault>
    requires few { before < 2 ^ 31 }
    requires short { length bytes.now < 2 ^ 31 }
    ensures lines { IsAsDefined (lines_read result) (ratios_of s.now before bytes.now) }
    ensures nodes { IfOk result (λ r. r.nodes ≡ map node_id s.now.nodes) }
{
    let Ok(mut ratios) = no_ratios(alloc, s) else {
        return Err(ParseFault::Memory);
    };
    let mut words = Vec::new(alloc);
    let mut rest = bytes;
    let mut count = before;
    while !rest.is_empty() {
        let (line, others) = first_line(rest);
        match read_line(s, &mut words, &mut ratios, line) {
            Ok(()) => {}
            Err(refusal) => return Err(refusal.in_line(count + 1)),
        }
        rest = others;
        count += 1;
    }
    Ok(ratios)
}

/// No ratios for the links of the scenario.
pub fn no_ratios(alloc: Global, s: &Scenario) -> Result<Ratios, Memory>
    ensures { IfOk result (λ r. r ≡ record { nodes = map node_id s.now.nodes; lines = [] }) }
{
    let nodes = ids(alloc, s.nodes())?;
    Ratios::new(alloc, &nodes)
}

// Goes on by one line, unless it is rejected. Its words take the place of those of the line before.
#[tactic(auto, unfolding(text_readers::specs::Reading::draft_after_line))]
fn read_line<'a>(
    s: &Scenario,
    words: &mut Vec<&'a [u8]>,
    ratios: &mut Ratios,
    line: &'a [u8],
) -> Result<(), Refusal>
    requires { ratios.old.nodes ≡ map node_id s.now.nodes }
    ensures nodes { ratios.new.nodes ≡ ratios.old.nodes }
    ensures lines { Reads result ratios.new.lines (draft_after_line (ratios_after_words s.now) ratios.old.lines line.now) }
{
    split_into(words, line)?;
    let words = words.as_slice();
    if is_skipped(words) {
        return Ok(());
    }
    if !is_text(line) {
        return Err(Refusal::Fault(FaultKind::NotUtf8));
    }
    add_ratio(s, ratios, words)
}
