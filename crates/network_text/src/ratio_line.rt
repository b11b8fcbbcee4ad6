//! A line with a ratio: it is added to those above.

ghost use Rattle.std.specs.Prelude.{◌≡◌, ◌<◌, ◌^◌, ◌==◌, ◌&&◌, true, Some, None, if◌then◌else◌, map, drop, nat_lt, IfOk, IfSome};
ghost use Rattle.std.specs.List.{list_all, list_any};
ghost use Rattle.std.specs.Option.{option_map_or};
ghost use Rattle.text_readers.specs.Faults.{spelled, RefusesBy};
ghost use Rattle.text_readers.specs.Reading.{Reads};
ghost use Rattle.text_readers.specs.Words.{is_number};
ghost use Rattle.scenario_text.specs.FloodParts.{node_id, knows};
ghost use Rattle.scenario_text.specs.Network.{has_link as has_link_of};
ghost use Rattle.drawn_links.specs.RatioTables.{last_frame};
ghost use Rattle.network_text.specs.NetworkGrammar.{is_in_range as is_in_range_of, is_in_order as is_in_order_of, line_of, ratio_fault};
ghost use Rattle.network_text.specs.NetworkGrammar.{ratio_numbers as ratio_numbers_of, ratios_after_words};

use crate::limits::{GREATEST_RATIO, MOST_RATIO_LINES};
use drawn_links::{RatioLine, Ratios};
use link_trace::{LinkLine, Trace};
use lwb_base::NodeId;
use scenario_text::Scenario;
use scenario_text::known_nodes::{are_two_ids, two_nodes};
use text_readers::{FaultKind, Refusal, four_numbers, is, word};

/// Adds the ratio that the words of a line say, or gives the fault of the line.
#[tactic(auto, unfolding(crate::specs::NetworkGrammar::ratios_after_words))]
pub fn add_ratio(s: &Scenario, ratios: &mut Ratios, words: &[&[u8]]) -> Result<(), Refusal>
    requires { ratios.old.nodes ≡ map node_id s.now.nodes }
    ensures nodes { ratios.new.nodes ≡ ratios.old.nodes }
    ensures lines { Reads result ratios.new.lines (ratios_after_words s.now ratios.old.lines (map (λ w. w.now) words.now)) }
{
    let (frame, from, to, ratio) = ratio_numbers(words)?;
    let line = ratio_line(s, ratios, frame, from, to, ratio)?;
    ratios.add(line)?;
    Ok(())
}

// The numbers of a line, or that it is misspelled.
fn ratio_numbers(words: &[&[u8]]) -> Result<(u64, u64, u64, u64), FaultKind>
    ensures { let ws = map (λ w. w.now) words.now in result ≡ spelled (ratio_numbers_of ws) (λ _. list_all is_number (drop 1 ws)) }
{
    if !is(word(words, 0), b"ratio") {
        return Err(FaultKind::BadWord);
    }
    four_numbers(words)
}

// The line of these numbers, or the first fault that it has below the others.
fn ratio_line(
    s: &Scenario,
    ratios: &Ratios,
    frame: u64,
    from: u64,
    to: u64,
    ratio: u64,
) -> Result<RatioLine, FaultKind>
    requires { ratios.now.nodes ≡ map node_id s.now.nodes }
    ensures fault { RefusesBy result (ratio_fault s.now ratios.now.lines (line_of (frame, from, to, ratio))) }
    ensures value { IfOk result (λ l. l ≡ line_of (frame, from, to, ratio)) }
    ensures from { IfOk result (λ l. list_any (λ v. v == l.from) ratios.now.nodes ≡ true) }
    ensures to { IfOk result (λ l. list_any (λ v. v == l.to) ratios.now.nodes ≡ true) }
    ensures later { IfOk result (λ l. IfSome (last_frame ratios.now.lines l.from l.to) (λ f. f < l.frame)) }
{
    if !is_in_range(s, frame, from, to, ratio) {
        return Err(FaultKind::Range);
    }
    let Some((from, to)) = ends(s, ratios, from, to) else {
        return Err(FaultKind::UnknownNode);
    };
    let line = RatioLine {
        frame: frame as u32,
        from,
        to,
        ratio: ratio as u32,
    };
    if !is_in_order(s, ratios, &line) {
        return Err(FaultKind::Order);
    }
    if ratios.len() >= MOST_RATIO_LINES as usize {
        return Err(FaultKind::TooMany);
    }
    Ok(line)
}

// Two nodes of the scenario, which are also those of the ratios.
fn ends(s: &Scenario, ratios: &Ratios, from: u64, to: u64) -> Option<(NodeId, NodeId)>
    requires { ratios.now.nodes ≡ map node_id s.now.nodes }
    ensures value { result ≡ (if knows s.now.nodes from && knows s.now.nodes to then Some (from, to) else None) }
    ensures from { IfSome result (λ p. list_any (λ v. v == p.0) ratios.now.nodes ≡ true) }
    ensures to { IfSome result (λ p. list_any (λ v. v == p.1) ratios.now.nodes ≡ true) }
{
    two_nodes(s.nodes(), from, to)
}

fn is_in_range(s: &Scenario, frame: u64, from: u64, to: u64, ratio: u64) -> bool
    ensures value { result ≡ is_in_range_of s.now (line_of (frame, from, to, ratio)) }
    ensures fits { result ≡ true → frame < 2 ^ 32 }
{
    frame < u64::from(s.frames()) && are_two_ids(from, to) && ratio <= u64::from(GREATEST_RATIO)
}

// Whether the trace has the link, and the line is from a later frame on than the link's last one.
fn is_in_order(s: &Scenario, ratios: &Ratios, line: &RatioLine) -> bool
    requires from { list_any (λ v. v == line.now.from) ratios.now.nodes ≡ true }
    requires to { list_any (λ v. v == line.now.to) ratios.now.nodes ≡ true }
    ensures { result ≡ is_in_order_of s.now ratios.now.lines line.now }
{
    has_link(s.trace(), line.from, line.to)
        && is_later(ratios.last_frame(line.from, line.to), line.frame)
}

fn is_later(last: Option<u32>, frame: u32) -> bool
    ensures { result ≡ option_map_or (λ f. nat_lt f frame) last true }
{
    match last {
        Some(last) => last < frame,
        None => true,
    }
}

fn has_link(trace: &Trace, from: NodeId, to: NodeId) -> bool
    ensures { result ≡ has_link_of trace.now.lines from to }
{
    trace.links().binary_search(&LinkLine { from, to }).is_ok()
}
