//! What a slot costs all nodes.

ghost use Rattle.std.specs.Prelude.{◌≡◌, ◌≤◌, ◌<◌, ◌+◌, ℕ, Bool, All, Some, length, map, slice_index, true, if◌then◌else◌};
ghost use Rattle.std.specs.List.{AllPairs};
ghost use Rattle.lwb_base.specs.declared.limits.TheConstants.{MOST_NODES};
ghost use Rattle.bus_terms.specs.Bus.{Cost as CostOf};
ghost use Rattle.bus_terms.specs.Flooding.{has};
ghost use Rattle.plain_bus.specs.BusNodes.{BusNode as NodeOf};
ghost use Rattle.plain_bus.specs.Closings.{Behind, IsBehind};
ghost use Rattle.plain_bus.specs.FloodMasks.{AreSendersOf};
ghost use Rattle.plain_bus.specs.SlotCosts.{IsBelow, bytes_in, charged, said_bytes, slot_charged};
ghost use Rattle.plain_bus.specs.SentSteps.{AreStepsOf};
ghost use Rattle.plain_bus.specs.SlotFloods.{seen_window};

use crate::cost::{Cost, Steps};
use crate::node::BusNode;
use crate::places::place_of;
use crate::round_slot::Setting;
use crate::sent_steps::steps_of_all;
use crate::station::Station;
use crate::stepping::FloodEnd;
use crate::window::Window;
use arrayvec::ArrayVec;
use lwb_base::{MOST_NODES, NodeId, Rank};
use lwb_member::message_in;

// What was sent in a slot: how long what each node says is, in bytes, and in which steps each sent.
#[derive(Drop)]
struct SlotSends {
    lengths: ArrayVec<u8, MOST_NODES>,
    steps: [Steps; MOST_NODES],
}

/// A slot of the round of this rank costs the nodes that take part in its rounds, by their windows and the flood.
pub fn charge_all(
    costs: &mut [Cost],
    nodes: &[BusNode],
    windows: &[Window],
    end: &FloodEnd,
    rank: Rank,
    setting: &Setting,
)
    requires few { length costs.old ≤ MOST_NODES }
    requires nodes { length nodes.now ≡ length costs.old }
    requires windows { length windows.now ≡ length costs.old }
    requires stations { length end.now.stations.each.items ≡ length costs.old }
    requires ids { length setting.now.ids.now ≡ length costs.old }
    requires ascending { AllPairs (λ a b. a < b) setting.now.ids.now }
    requires steps { length end.now.senders.items ≡ 12 }
    requires room { All (IsBelow 1048576) costs.old }
    ensures costs { (b : Behind) (n : ℕ → NodeOf) (cost : ℕ → CostOf) (sends : ℕ → ℕ → Bool)
        → IsBehind b setting.now.ids.now windows.now end.now.stations.each.items
        → AreSendersOf sends setting.now.ids.now end.now.senders.items → nodes.now ≡ map n setting.now.ids.now → costs.old ≡ map cost setting.now.ids.now
        → 1 ≤ setting.now.limit
        → costs.new ≡ map (slot_charged setting.now.profile rank setting.now.limit b sends n cost) setting.now.ids.now }
    ensures room { (m : ℕ) → All (IsBelow m) costs.old → All (IsBelow (m + 1)) costs.new }
{
    let sent = SlotSends {
        lengths: lengths_of(windows),
        steps: steps_of_all(end.senders.as_slice()),
    };
    let mut place = 0;
    for cost in costs.iter_mut() {
        let node = &nodes[place];
        let is_own = node.rank == rank;
        charge(cost, is_own, place, windows, end, &sent, setting);
        place += 1;
    }
}

// The slot costs the node at this place, if the round is that of its rank.
fn charge(
    cost: &mut Cost,
    is_own: bool,
    place: usize,
    windows: &[Window],
    end: &FloodEnd,
    sent: &SlotSends,
    setting: &Setting,
)
    requires few { length setting.now.ids.now ≤ MOST_NODES }
    requires place { place < length setting.now.ids.now }
    requires windows { length windows.now ≡ length setting.now.ids.now }
    requires stations { length end.now.stations.each.items ≡ length setting.now.ids.now }
    requires lengths { sent.now.lengths.items ≡ map (λ w. said_bytes (seen_window w)) windows.now }
    requires ascending { AllPairs (λ a b. a < b) setting.now.ids.now }
    requires steps { length end.now.senders.items ≡ 12 }
    requires counted { AreStepsOf end.now.senders.items 12 sent.now.steps }
    requires room { IsBelow 1048576 cost.old }
    ensures cost { (b : Behind) (sends : ℕ → ℕ → Bool) → IsBehind b setting.now.ids.now windows.now end.now.stations.each.items
        → AreSendersOf sends setting.now.ids.now end.now.senders.items → 1 ≤ setting.now.limit → cost.new
        ≡ (if is_own then charged setting.now.profile setting.now.limit b sends (slice_index setting.now.ids.now place) cost.old else cost.old) }
    ensures room { (m : ℕ) → IsBelow m cost.old → IsBelow (m + 1) cost.new }
{
    if !is_own {
        return;
    }
    let window = &windows[place];
    let stations = end.stations.each.as_slice();
    let lengths = sent.lengths.as_slice();
    let bytes = bytes_sent(
        window,
        &stations[place],
        lengths[place],
        setting.ids,
        lengths,
    );
    let steps = sent.steps[place];
    cost.add_slot(
        &setting.profile,
        setting.limit,
        window.is_open,
        bytes,
        steps,
    );
}

// How long what the node of this window and station sends is, in bytes. `own` is the length of what it says itself.
fn bytes_sent(window: &Window, station: &Station, own: u8, ids: &[NodeId], lengths: &[u8]) -> u8
    requires lengths { length lengths.now ≡ length ids.now }
    requires own { own ≡ said_bytes (seen_window window.now) }
    requires ascending { AllPairs (λ a b. a < b) ids.now }
    ensures { (b : Behind) → lengths.now ≡ map (λ v. said_bytes (b.window v)) ids.now → ((o k : ℕ) → station.now.heard ≡ Some (o, k) → has ids.now o ≡ true)
        → result ≡ bytes_in b (seen_window window.now) station.now.heard }
{
    if window.initiates {
        return own;
    }
    match station.heard {
        Some((origin, _)) => length_at(ids, lengths, origin),
        None => 0,
    }
}

// The length of what this node says.
fn length_at(ids: &[NodeId], lengths: &[u8], node: NodeId) -> u8
    requires lengths { length lengths.now ≡ length ids.now }
    requires ascending { AllPairs (λ a b. a < b) ids.now }
    ensures { (b : Behind) → lengths.now ≡ map (λ v. said_bytes (b.window v)) ids.now → has ids.now node ≡ true → result ≡ said_bytes (b.window node) }
{
    match place_of(ids, node) {
        Some(place) => lengths[place],
        None => 0,
    }
}

// The lengths of what is said in the windows, and 0 where nothing is.
fn lengths_of(windows: &[Window]) -> ArrayVec<u8, MOST_NODES>
    requires { length windows.now ≤ MOST_NODES }
    ensures { result.items ≡ map (λ w. said_bytes (seen_window w)) windows.now }
{
    let mut lengths = ArrayVec::new();
    for window in windows {
        lengths.push(length_of(window));
    }
    lengths
}

fn length_of(window: &Window) -> u8
    ensures { result ≡ said_bytes (seen_window window.now) }
{
    match &window.said {
        Some(packet) if message_in(packet).is_some() => packet.length(),
        _ => 0,
    }
}
