//! The lose and cut lines that matter in one slot and step.

ghost use Rattle.std.specs.Prelude.{[], true, ◌≡◌, ◌==◌};
ghost use Rattle.std.specs.List.{filter, list_any};
ghost use Rattle.link_trace.specs.Order.{Ascends, by_cut};
ghost use Rattle.link_trace.specs.Passes.{cut_off, cuts_by};
ghost use Rattle.link_trace.specs.Starts.{AreStarts, of_cut};

use crate::starts::{of_slots, slot_number};
use crate::{CutLine, LoseLine};
use lwb_base::NodeId;

/// The cut lines of the frame at or before that slot and step, which are next to each other.
pub fn cuts_so_far<'a>(
    cuts: &'a [CutLine],
    starts: &[usize],
    frame: u32,
    slot: u8,
    step: u8,
) -> &'a [CutLine]
    requires ascends { Ascends by_cut cuts.now }
    requires starts { AreStarts of_cut cuts.now starts.now }
    ensures { result.now ≡ filter (cuts_by frame slot step) cuts.now }
{
    let first = slot_number(frame, 0);
    let last = slot_number(frame, slot);
    find_cuts(of_slots(cuts, starts, first, last), frame, slot, step)
}

// The cut lines of the frame at or before that slot and step.
fn find_cuts(cuts: &[CutLine], frame: u32, slot: u8, step: u8) -> &[CutLine]
    requires { Ascends by_cut cuts.now }
    ensures { result.now ≡ filter (cuts_by frame slot step) cuts.now }
{
    let begin = cuts.partition_point(|l| l.frame < frame);
    let rest = &cuts[begin..];
    let count = rest.partition_point(|l| {
        l.frame == frame && (l.slot < slot || l.slot == slot && l.step <= step)
    });
    &rest[..count]
}

/// Whether there is no cut line.
pub fn has_no_cuts(cuts: &[CutLine]) -> bool
    ensures { result ≡ true → cuts.now ≡ [] }
{
    cuts.is_empty()
}

/// Whether there is neither a lose line nor a cut line, so that each link passes.
pub fn are_none(losses: &[LoseLine], cuts: &[CutLine]) -> bool
    ensures losses { result ≡ true → losses.now ≡ [] }
    ensures cuts { result ≡ true → cuts.now ≡ [] }
{
    losses.is_empty() && cuts.is_empty()
}

/// Whether one of the cut lines names the node.
pub fn names(cuts: &[CutLine], node: NodeId) -> bool
    ensures { result ≡ list_any (λ l. l.node == node) cuts.now }
{
    cuts.iter().any(|l| l.node == node)
}

/// Whether one of the cut lines cuts the node off by that step of the frame.
#[tactic(auto, using(crate::proofs::Together::one_of_these))]
pub fn is_cut_off(cuts: &[CutLine], frame: u32, slot: u8, step: u8, node: NodeId) -> bool
    requires { Ascends by_cut cuts.now }
    ensures { result ≡ cut_off cuts.now frame slot step node }
{
    names(find_cuts(cuts, frame, slot, step), node)
}
