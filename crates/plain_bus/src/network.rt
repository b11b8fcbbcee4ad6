//! All nodes of a bus, and a slot of a round at them.

ghost use Rattle.std.specs.Prelude.{◌≡◌, ◌≤◌, ◌<◌, ◌+◌, ◌++◌, ◌∷◌, ◌==◌, ℕ, List, OnOk, IfOk, IfSome, map, length, option_to_list, [], if◌then◌else◌};
ghost use Rattle.lwb_base.specs.Messages.{Plan};
ghost use Rattle.lwb_base.specs.declared.limits.TheConstants.{LAST_FRAME, MOST_RANKS};
ghost use Rattle.bus_rules.specs.Cores.{own_rank};
ghost use Rattle.bus_rules.specs.States.{State};
ghost use Rattle.bus_rules.specs.Slots.{part_of};
ghost use Rattle.bus_terms.specs.Bus.{Cost as CostOf};
ghost use Rattle.bus_terms.specs.FloodOfText.{ids};
ghost use Rattle.bus_terms.specs.Packets.{sent_in_slot};
ghost use Rattle.bus_terms.specs.Rounds.{slot_deliveries};
ghost use Rattle.plain_bus.specs.BusNodes.{nodes_before, ranks_in, AreOffOutside, HaveRoom};
ghost use Rattle.plain_bus.specs.Networks.{IsReady, no_cost, node_at_first, with_slot_at};
ghost use Rattle.plain_bus.specs.RunFloods.{HasRun, SlotFlood, slot_flood};

use crate::charging::charge_all;
use crate::closing::close_all;
use crate::cost::Cost;
use crate::node::BusNode;
use crate::round_slot::{RoundSlot, Setting};
use crate::sent::add_sent;
use crate::slot_flood::open_slot;
use crate::station::Flood;
use crate::stepping::flooded;
use crate::window::Window;
use bus_rules::{Delivery, Part};
use bus_terms::SentPacket;
use link_trace::Links;
use lwb_base::{Memory, NodeId, Rank};
use scenario_text::{Scenario, ScenarioOver};
use std::alloc::Global;
use std::marker::Model;

/// All nodes of a bus, by ascending ids, with what each cost, what was delivered and sent so far, and the floods since `floods`
/// was cleared.
#[derive(Drop)]
pub struct Network {
    pub ids: Vec<NodeId>,
    pub nodes: Vec<BusNode>,
    pub costs: Vec<Cost>,
    pub deliveries: Vec<Delivery>,
    /// The packets sent so far, by frame, rank and slot.
    pub sent: Vec<SentPacket>,
    pub floods: Vec<Flood>,
    // Those of the last slot.
    pub(crate) windows: Vec<Window>,
}

impl Model for Network {
    ghost use Rattle.plain_bus.specs.Networks.{Network as NetworkOf};

    ghost Value = { NetworkOf };

    ghost view = { λ n. record {
      ids = n.ids.items;
      nodes = n.nodes.items;
      costs = n.costs.items;
      deliveries = n.deliveries.items;
      sent = n.sent.items;
      floods = n.floods.items;
    } };
}

impl Network {
    /// All nodes of the scenario, off and without a boot: they cost, delivered and sent nothing so far. `Err` means out of memory.
    pub fn new(alloc: Global, s: &Scenario) -> Result<Network, Memory>
        ensures { IfOk result (λ n. n ≡ record {
          ids = ids s.now.nodes;
          nodes = map (node_at_first s.now) (ids s.now.nodes);
          costs = map (λ v. no_cost) (ids s.now.nodes);
          deliveries = [];
          sent = [];
          floods = [];
        }) }
    {
        let lines = s.nodes();
        let mut ids = Vec::new(alloc);
        let mut nodes = Vec::new(alloc);
        let mut costs = Vec::new(alloc);
        for line in lines {
            let node = new_node(alloc, s, line.node)?;
            ids.push(line.node)?;
            nodes.push(node)?;
            costs.push(Cost {
                sent: 0,
                windows: 0,
                scanned: 0,
            })?;
        }
        Ok(Network {
            ids,
            nodes,
            costs,
            deliveries: Vec::new(alloc),
            sent: Vec::new(alloc),
            floods: Vec::new(alloc),
            windows: Vec::new(alloc),
        })
    }

    /// A slot of this part and number in the round of this rank and frame, which is at most `LAST_FRAME`: it opens, its flood
    /// runs, which is added at the end of `floods`, and it closes. `Err` means out of memory.
    pub fn run_slot<M: Links>(
        &mut self,
        s: &ScenarioOver<'_, M>,
        rank: Rank,
        frame: u32,
        slot: u8,
        part: &Part,
    ) -> Result<(), Memory>
        requires frame { frame ≤ LAST_FRAME }
        requires ready { IsReady s.now frame 1048576 self.old }
        ensures ready { OnOk result ((m : ℕ) → IsReady s.now frame m self.old → IsReady s.now frame (m + 1) self.new) }
        ensures nodes { OnOk result
            ((p : Plan) (start others : ℕ → State) → self.old.nodes ≡ nodes_before s.now rank frame p start others slot → part.now ≡ part_of p slot
            → HaveRoom s.now rank frame p start slot → self.new.nodes ≡ nodes_before s.now rank frame p start others (slot + 1)) }
        ensures deliveries { OnOk result
            ((p : Plan) (start others : ℕ → State) → self.old.nodes ≡ nodes_before s.now rank frame p start others slot → part.now ≡ part_of p slot
            → HaveRoom s.now rank frame p start slot → self.new.deliveries ≡ self.old.deliveries ++ slot_deliveries s.now rank frame p start slot) }
        ensures sent { OnOk result
            ((p : Plan) (start others : ℕ → State) → self.old.nodes ≡ nodes_before s.now rank frame p start others slot → part.now ≡ part_of p slot
            → AreOffOutside s.now start → self.new.sent ≡ self.old.sent ++ option_to_list (sent_in_slot s.now rank frame p start slot)) }
        ensures floods { OnOk result ((p : Plan) (start others : ℕ → State) (before : List SlotFlood)
            → self.old.nodes ≡ nodes_before s.now rank frame p start others slot → part.now ≡ part_of p slot
            → HasRun s.now frame before self.old.floods → HasRun s.now frame (before ++ slot_flood s.now rank frame p start slot ∷ []) self.new.floods) }
        ensures costs { OnOk result ((p : Plan) (start others : ℕ → State) (cost : ℕ → CostOf)
            → self.old.nodes ≡ nodes_before s.now rank frame p start others slot → part.now ≡ part_of p slot
            → HaveRoom s.now rank frame p start slot → self.old.costs ≡ map cost (ids s.now.nodes)
            → self.new.costs
            ≡ map (λ v. if ranks_in start v == rank then with_slot_at s.now rank frame p start slot v (cost v) else cost v) (ids s.now.nodes)) }
    {
        let profile = s.profile();
        let limit = s.sends();
        let flood = open_slot(
            &mut self.nodes,
            &mut self.windows,
            rank,
            frame,
            slot,
            part,
            limit,
        )?;
        self.floods.push(flood)?;
        let end = flooded(s.links(), &flood, s.nodes());
        let setting = Setting {
            ids: &self.ids,
            profile,
            limit,
        };
        charge_all(
            &mut self.costs,
            &self.nodes,
            &self.windows,
            &end,
            rank,
            &setting,
        );
        let closing = RoundSlot {
            rank,
            frame,
            number: slot,
            part: *part,
        };
        add_sent(&mut self.sent, &self.windows, &self.ids, &closing)?;
        close_all(
            &mut self.nodes,
            &self.windows,
            end.stations.each.as_slice(),
            &self.ids,
            &closing,
            &mut self.deliveries,
        )
    }
}

// The node of this id, off and without a boot.
fn new_node(alloc: Global, s: &Scenario, id: NodeId) -> Result<BusNode, Memory>
    ensures { IfOk result (λ n. n ≡ node_at_first s.now id) }
{
    let profile = s.profile();
    let hosts = s.hosts();
    let own = rank_of(hosts, id);
    BusNode::new(alloc, &profile, id, own, hosts.len() as u8, s.sends())
}

// The rank of a node among at most 4 hosts.
fn rank_of(hosts: &[NodeId], id: NodeId) -> Option<Rank>
    requires { length hosts.now ≤ MOST_RANKS }
    ensures value { result ≡ own_rank id hosts.now }
    ensures within { IfSome result (λ r. r < length hosts.now) }
{
    match place_among(hosts, id) {
        Some(place) => Rank::new(place as u8),
        None => None,
    }
}

fn place_among(hosts: &[NodeId], id: NodeId) -> Option<usize>
    ensures value { result ≡ own_rank id hosts.now }
    ensures within { IfSome result (λ place. place < length hosts.now) }
{
    hosts.iter().position(|host| *host == id)
}
