//! What the nodes of a flood are doing, by their places.

ghost use Rattle.std.specs.Prelude.{◌≡◌, ◌<◌, ◌≤◌, ◌^◌, All, Contains, AllPairs, length, map, slice_index_or, true, if◌then◌else◌};
ghost use Rattle.radio_model.specs.declared.sending.Sending.{Sending};
ghost use Rattle.lwb_flood.specs.FloodWorlds.{node_of_member, is_last, with_change, member_with_act, hearing_by, after_own};
ghost use Rattle.lwb_flood.specs.declared.member.Member.{Member};
ghost use Rattle.glossy_relay.specs.declared.flood.After.TheVariants.{More, Off as After_Off};

use crate::member::{Act, Member};
use glossy_relay::{After, Reply};
use lwb_base::NodeId;
use radio_model::sending::Sending;
use tick_clock::{DriftClock, turn_bounds};

// Sets what the node does from now on.
pub(crate) fn set_act(members: &mut Vec<Member>, node: NodeId, act: Act)
    requires node { Contains (map node_of_member members.old.items) node }
    requires ascend { AllPairs (λ a b. a < b) (map node_of_member members.old.items) }
    ensures { members.new.items ≡ with_change node (member_with_act act) members.old.items }
{
    let place = place_of(members, node);
    members[place].act = act;
}

// The node's transmission ended.
pub(crate) fn end_own(members: &mut Vec<Member>, node: NodeId) -> After
    requires node { Contains (map node_of_member members.old.items) node }
    requires ascend { AllPairs (λ a b. a < b) (map node_of_member members.old.items) }
    requires waits { All (λ m. m.node ≡ node → m.flood.waiting ≡ true) members.old.items }
    ensures last { result ≡ (if is_last node members.old.items then After_Off else More) }
    ensures members { members.new.items ≡ with_change node after_own members.old.items }
{
    let place = place_of(members, node);
    let member = &mut members[place];
    member.act = Act::Listens;
    member.flood.sent()
}

// The node at that place receives a transmission that has ended.
pub(crate) fn hear_at<C: DriftClock>(
    members: &mut Vec<Member>,
    place: usize,
    clock: &C,
    x: &Sending,
)
    requires place { place < length members.old.items }
    requires ascend { AllPairs (λ a b. a < b) (map node_of_member members.old.items) }
    requires early { x.now.end ≤ 2 ^ 45 }
    ensures { (d : Member)
        → members.new.items ≡ with_change (slice_index_or members.old.items place d).node (hearing_by (C.readings clock.now) x.now) members.old.items }
{
    let member = &mut members[place];
    match member.flood.heard(&x.packet) {
        Reply::Relay(packet) => member.act = Act::Waits(turn_bounds(clock, x.end), packet),
        Reply::Keep | Reply::Ignore => {}
    }
}

// The place of a node.
pub(crate) fn place_of(members: &[Member], node: NodeId) -> usize
    requires { Contains (map node_of_member members.now) node }
    ensures below { result < length members.now }
    ensures there { (d : Member) → (slice_index_or members.now result d).node ≡ node }
{
    for (i, member) in members.iter().enumerate() {
        if member.node == node {
            return i;
        }
    }
    unreachable!()
}
