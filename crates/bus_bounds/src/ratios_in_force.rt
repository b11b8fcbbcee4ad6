//! The ratios that are in force in a frame.

ghost use Rattle.std.specs.Prelude.{◌≡◌, ◌<◌, IfSome, find, length, option_and_then, reverse, slice_index};
ghost use Rattle.std.specs.Option.{option_copied};
ghost use Rattle.drawn_links.specs.Ratios.{is_begun as is_begun_of, ratio_in};
ghost use Rattle.bus_bounds.specs.JoinFindings.{may_lose as may_lose_of};

use drawn_links::{RatioLine, Ratios};
use link_trace::LinkLine;
use lwb_base::NodeId;
use network_text::GREATEST_RATIO;

/// The line by which the first of the links with a ratio below a million has it in that frame.
pub(crate) fn ratio_line(ratios: &Ratios, links: &[LinkLine], frame: u32) -> Option<RatioLine>
    ensures { result ≡ option_and_then (λ l. find (is_begun_of frame l.from l.to) (reverse ratios.now.lines))
        (find (may_lose_of ratios.now.lines frame) links.now) }
{
    let link = first_lossy(ratios, links, frame).copied()?;
    line_in_force(ratios.lines(), frame, &link).copied()
}

fn first_lossy<'a>(ratios: &Ratios, links: &'a [LinkLine], frame: u32) -> Option<&'a LinkLine>
    ensures { option_copied result ≡ find (may_lose_of ratios.now.lines frame) links.now }
{
    links.iter().find(|l| may_lose(ratios, frame, l))
}

fn may_lose(ratios: &Ratios, frame: u32, link: &LinkLine) -> bool
    ensures { result ≡ may_lose_of ratios.now.lines frame link.now }
{
    match ratio_of(ratios, frame, link) {
        Some(ratio) => ratio < GREATEST_RATIO,
        None => false,
    }
}

// By the places of its nodes, since there may be many lines; of any others by all lines.
fn ratio_of(ratios: &Ratios, frame: u32, link: &LinkLine) -> Option<u32>
    ensures { result ≡ ratio_in ratios.now.lines frame link.now.from link.now.to }
{
    let nodes = ratios.nodes();
    if let (Some(from), Some(to)) = (place_of(nodes, link.from), place_of(nodes, link.to)) {
        return ratios.ratio(frame, from, to);
    }
    Some(line_in_force(ratios.lines(), frame, link)?.ratio)
}

// The place of the node among these, if it has one.
fn place_of(nodes: &[NodeId], node: NodeId) -> Option<u8>
    ensures { IfSome result (λ i. (i < length nodes.now) × (slice_index nodes.now i ≡ node)) }
{
    let place = nodes.binary_search(&node).ok()?;
    u8::try_from(place).ok()
}

// The last line of the link that has begun by that frame.
fn line_in_force<'a>(lines: &'a [RatioLine], frame: u32, link: &LinkLine) -> Option<&'a RatioLine>
    ensures { option_copied result ≡ find (is_begun_of frame link.now.from link.now.to) (reverse lines.now) }
{
    lines.iter().rev().find(|l| l.from == link.from && l.to == link.to && l.frame <= frame)
}
