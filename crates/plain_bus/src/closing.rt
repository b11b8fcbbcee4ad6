//! A slot closes at all nodes, by what each accepted of its flood.

ghost use Rattle.std.specs.Prelude.{◌≡◌, ◌≤◌, ◌<◌, ◌++◌, ℕ, All, OnOk, true, false, Some, is_some, length, map, take, filter_map};
ghost use Rattle.std.specs.List.{AllPairs};
ghost use Rattle.std.specs.Option.{option_and_then, option_copied};
ghost use Rattle.lwb_base.specs.declared.limits.TheConstants.{LAST_FRAME};
ghost use Rattle.lwb_member.specs.Said.{message_of};
ghost use Rattle.bus_terms.specs.Flooding.{has};
ghost use Rattle.plain_bus.specs.BusNodes.{BusNode as NodeOf, IsEarlyState};
ghost use Rattle.plain_bus.specs.SlotFloods.{seen_window};
ghost use Rattle.plain_bus.specs.Closings.{Behind, IsBehind, AllMay, heard_in, closed_node, delivers_node};

use crate::node::BusNode;
use crate::places::place_of;
use crate::round_slot::RoundSlot;
use crate::station::Station;
use crate::window::Window;
use bus_rules::Delivery;
use lwb_base::{Memory, NodeId, Packet};

/// The slot closes at all nodes, in a frame of at most `LAST_FRAME`: by the windows and the stations after the flood, in the
/// order of the nodes, whose ids ascend. What they deliver is added at the end of `log`. `Err` means out of memory.
pub fn close_all(
    nodes: &mut [BusNode],
    windows: &[Window],
    stations: &[Station],
    ids: &[NodeId],
    slot: &RoundSlot,
    log: &mut Vec<Delivery>,
) -> Result<(), Memory>
    requires frame { slot.now.frame ≤ LAST_FRAME }
    requires windows { length windows.now ≡ length nodes.old }
    requires stations { length stations.now ≡ length nodes.old }
    requires ids { length ids.now ≡ length nodes.old }
    requires ascending { AllPairs (λ a b. a < b) ids.now }
    requires early { All (λ n. IsEarlyState slot.now.frame n.state) nodes.old }
    ensures early { OnOk result (All (λ n. IsEarlyState slot.now.frame n.state) nodes.new) }
    ensures nodes { OnOk result ((b : Behind) (n : ℕ → NodeOf) → IsBehind b ids.now windows.now stations.now → nodes.old ≡ map n ids.now
        → AllMay slot.now.frame b ids.now n
        → nodes.new ≡ map (closed_node b slot.now.frame slot.now.part n) ids.now) }
    ensures log { OnOk result ((b : Behind) (n : ℕ → NodeOf) → IsBehind b ids.now windows.now stations.now → nodes.old ≡ map n ids.now
        → AllMay slot.now.frame b ids.now n
        → log.new.items ≡ log.old.items ++ filter_map (delivers_node b slot.now.rank slot.now.frame slot.now.number slot.now.part n) ids.now) }
{
    let mut place = 0;
    for node in nodes.iter_mut() {
        let window = &windows[place];
        let packet = heard_by(window, &stations[place], windows, ids);
        node.hear(slot, window, packet, log)?;
        place += 1;
    }
    Ok(())
}

// What the node of this window and station receives.
fn heard_by<'a>(
    window: &Window,
    station: &Station,
    windows: &'a [Window],
    ids: &[NodeId],
) -> Option<&'a Packet>
    requires windows { length windows.now ≡ length ids.now }
    requires ascending { AllPairs (λ a b. a < b) ids.now }
    ensures { (b : Behind) → map seen_window windows.now ≡ map b.window ids.now → ((o k : ℕ) → station.now.heard ≡ Some (o, k) → has ids.now o ≡ true)
        → option_and_then message_of (option_copied result) ≡ heard_in b window.now.initiates station.now.heard }
{
    if window.initiates {
        return None;
    }
    match station.heard {
        Some((origin, _)) => said_by(windows, ids, origin),
        None => None,
    }
}

/// The packet of what the node of this id says. `None` is returned where it says nothing, or is none of these.
pub(crate) fn said_by<'a>(
    windows: &'a [Window],
    ids: &[NodeId],
    origin: NodeId,
) -> Option<&'a Packet>
    requires windows { length windows.now ≡ length ids.now }
    requires ascending { AllPairs (λ a b. a < b) ids.now }
    ensures known { (b : Behind) → map seen_window windows.now ≡ map b.window ids.now → has ids.now origin ≡ true
        → option_and_then message_of (option_copied result) ≡ (b.window origin).message }
    ensures unknown { has ids.now origin ≡ false → is_some result ≡ false }
{
    match place_of(ids, origin) {
        Some(place) => said_in(&windows[place]),
        None => None,
    }
}

// What is said in a window.
fn said_in(window: &Window) -> Option<&Packet>
    ensures { option_and_then message_of (option_copied result) ≡ (seen_window window.now).message }
{
    match &window.said {
        Some(packet) => Some(packet),
        None => None,
    }
}
