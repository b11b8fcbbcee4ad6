//! The flood of a slot, by the windows that opened in it.

ghost use Rattle.std.specs.Prelude.{◌≡◌, ◌≤◌, ℕ, List, Bool, All, IfOk, OnOk, length, map};
ghost use Rattle.link_trace.specs.Masks.{IsMask};
ghost use Rattle.link_trace.specs.Sealed.{Traced};
ghost use Rattle.scenario_text.specs.FloodParts.{IsSealed};
ghost use Rattle.scenario_text.specs.ScenarioParts.{ScenarioParts};
ghost use Rattle.bus_rules.specs.declared.part.Part.{Part as PartOf};
ghost use Rattle.bus_rules.specs.States.{State};
ghost use Rattle.bus_rules.specs.Slots.{part_of};
ghost use Rattle.lwb_base.specs.Messages.{Plan};
ghost use Rattle.lwb_base.specs.declared.limits.TheConstants.{LAST_FRAME, MOST_NODES};
ghost use Rattle.bus_terms.specs.FloodOfText.{ids};
ghost use Rattle.bus_terms.specs.Rounds.{flood_in_slot, opened_at, slot_at};
ghost use Rattle.plain_bus.specs.FloodMasks.{IsMaskedFlood};
ghost use Rattle.plain_bus.specs.BusNodes.{IsEarlyState, nodes_before, node_opened};
ghost use Rattle.plain_bus.specs.SlotFloods.{AreWindows, seen_window, seen_of};

use crate::node::BusNode;
use crate::slot_windows::open_all;
use crate::station::Flood;
use crate::window::Window;
use bus_rules::Part;
use link_trace::NodeSet;
use lwb_base::{Memory, Rank};

/// A slot of this part and number opens at all nodes in the round of this rank and frame, which is at most `LAST_FRAME`, and a
/// node sends at most `limit` times in its flood: the flood. The windows come in the place of what `windows` had, in the order
/// of the nodes. `Err` means out of memory.
pub fn open_slot(
    nodes: &mut [BusNode],
    windows: &mut Vec<Window>,
    rank: Rank,
    frame: u32,
    slot: u8,
    part: &Part,
    limit: u8,
) -> Result<Flood, Memory>
    requires frame { frame ≤ LAST_FRAME }
    requires few { length nodes.old ≤ MOST_NODES }
    requires early { All (λ n. IsEarlyState frame n.state) nodes.old }
    ensures early { OnOk result (All (λ n. IsEarlyState frame n.state) nodes.new) }
    ensures nodes { OnOk result (nodes.new ≡ map (node_opened rank frame part.now) nodes.old) }
    ensures windows { OnOk result (map seen_window windows.new.items ≡ map (seen_of rank frame part.now) nodes.old) }
    ensures place { IfOk result (λ x. (x.frame ≡ frame) × (x.slot ≡ slot)) }
    ensures flood { IfOk result
        (λ x. (s : ScenarioParts) (t : Traced) (p : Plan) (start others : ℕ → State) → nodes.old ≡ nodes_before s rank frame p start others slot
        → part.now ≡ part_of p slot → t.lines ≡ s.trace → IsSealed t s.nodes → limit ≡ s.sends → IsMaskedFlood (slot_at s rank frame p start slot).flood t x) }
{
    open_all(nodes, windows, rank, frame, part)?;
    Ok(flood_in(windows, frame, slot, limit))
}

/// The flood of that slot in which these windows opened: who says something initiates.
pub fn flood_in(windows: &[Window], frame: u32, slot: u8, limit: u8) -> Flood
    requires { length windows.now ≤ MOST_NODES }
    ensures place { (result.frame ≡ frame) × (result.slot ≡ slot) }
    ensures flood { (s : ScenarioParts) (t : Traced) (rank : ℕ) (part : PartOf) (states : ℕ → State) → AreWindows s rank frame part states windows.now
        → t.lines ≡ s.trace → IsSealed t s.nodes → limit ≡ s.sends
        → IsMaskedFlood (flood_in_slot s rank frame slot part states (λ v. opened_at s rank frame part v (states v))) t result }
{
    Flood {
        frame,
        slot,
        limit,
        initiators: initiators_of(windows),
        everyone: takers_of(windows),
        lone: None,
    }
}

// Those who say something.
fn initiators_of(windows: &[Window]) -> NodeSet
    requires { length windows.now ≤ MOST_NODES }
    ensures { (nodes : List ℕ) (test : ℕ → Bool) → map (λ w. w.initiates) windows.now ≡ map test nodes → IsMask test nodes result }
{
    let mut mask = NodeSet::EMPTY;
    for (i, window) in windows.iter().enumerate() {
        if window.initiates {
            mask = mask.with(i as u8);
        }
    }
    mask
}

// Those who take part.
fn takers_of(windows: &[Window]) -> NodeSet
    requires { length windows.now ≤ MOST_NODES }
    ensures { (nodes : List ℕ) (test : ℕ → Bool) → map (λ w. w.takes_part) windows.now ≡ map test nodes → IsMask test nodes result }
{
    let mut mask = NodeSet::EMPTY;
    for (i, window) in windows.iter().enumerate() {
        if window.takes_part {
            mask = mask.with(i as u8);
        }
    }
    mask
}
