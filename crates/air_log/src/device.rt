//! The node of a trail: a node core with its radio and its alarm.

ghost use Rattle.std.specs.Prelude.{◌≡◌, ◌<◌, ◌≤◌, ◌^◌, ◌+◌, ◌%◌, ℕ, [], false, IfOk, IfSome, Some, None, length, max};
ghost use Rattle.lwb_base.specs.declared.limits.TheConstants.{MOST_RANKS};
ghost use Rattle.bus_rules.specs.Cores.{own_rank};
ghost use Rattle.node_core.specs.Nodes.{rebooted};
ghost use Rattle.air_log.specs.Devices.{nothing_made, at_rest, power_is_on};
ghost use Rattle.node_core.specs.Standing.{place_of};
ghost use Rattle.node_core.specs.declared.stage.Stage.{Stage};
ghost use Rattle.air_log.specs.Trails.{tune_of};
ghost use Rattle.air_log.specs.Charges.{scans_with};
ghost use Rattle.air_log.specs.WindowSums.{stage_has_window, power_has_window};
ghost use Rattle.air_log.specs.DeviceStates.{whole, IsCoreAt, core_in, settings_of};

use crate::Settings;
use crate::window_sum::WindowSum;
use bus_rules::Tune;
use lwb_base::{Memory, NodeId, Packet, Profile, Rank};
use node_core::{Node, Place};
use std::alloc::Global;
use std::marker::Model;

// A packet that is to be sent at a tick.
#[derive(Drop)]
pub(crate) struct Ordered {
    pub(crate) tick: u64,
    pub(crate) packet: Packet,
}

impl Model for Ordered {
    ghost use Rattle.air_log.specs.Devices.{OrderedPacket as OrderedOf};

    ghost Value = { OrderedOf };

    ghost view = { λ o. record { tick = o.tick; packet = o.packet } };

    ghost inverse = { λ o. record { tick = o.tick; packet = o.packet } };
}

/// The node of a trail (`Trail`), for what runs nodes in true time: a node core with its power, the channel of its radio, its one
/// alarm, its one ordered transmission, the tick at which its running transmission ends and what its windows count. All times are
/// true ticks of 1/64 µs, and those of orders are by the node's clock. A transmission is handed out as it starts. Since when its
/// radio is on, and its tunings that ended, whoever runs it has from its channel after each call: of all channels of a tick only
/// the last one counts.
///
/// Contracts see its state, and say what each call does to it by the trail: `whole` is the device of the trail, where its tunings
/// and all else that it has made are elsewhere.
#[derive(Drop)]
pub struct Device {
    pub(crate) node: NodeId,
    pub(crate) profile: Profile,
    pub(crate) core: Node,
    pub(crate) on: bool,
    pub(crate) boots: u8,
    pub(crate) channel: Option<Rank>,
    pub(crate) alarm: Option<u64>,
    pub(crate) ordered: Option<Ordered>,
    // The tick at which its running transmission ends.
    pub(crate) busy_until: Option<u64>,
    pub(crate) windows: WindowSum,
}

impl Model for Device {
    ghost use Rattle.air_log.specs.DeviceStates.{DeviceState};
    ghost use Rattle.air_log.specs.DeviceShapes.{IsDevice, power_with};

    ghost Value = { DeviceState };

    ghost view = { λ d. record {
      setup = d.core.setup;
      core = d.core.node;
      power = power_with d.on d.boots d.core.node;
      channel = d.channel;
      alarm = d.alarm;
      ordered = d.ordered;
      busy_until = d.busy_until;
      delivery = d.core.delivery;
      windows = d.windows;
    } };

    ghost invariant = { λ d. IsDevice d.node d.profile d.core d.on d.boots };
}

impl Device {
    /// A device at rest. The hosts are those of the network by rank, 1 to 4, and in one flood a node sends at most n times,
    /// 1 to 4.
    pub fn new(
        alloc: Global,
        profile: &Profile,
        node: NodeId,
        hosts: &[NodeId],
        n: u8,
    ) -> Result<Device, Memory>
        requires hosts { (1 ≤ length hosts.now) × (length hosts.now ≤ MOST_RANKS) }
        requires sends { (1 ≤ n) × (n ≤ 4) }
        ensures setup { IfOk result
            (λ d. d.setup ≡ record { profile = profile.now; id = node; own = own_rank node hosts.now; ranks = length hosts.now; sends = n }) }
        ensures rest { IfOk result (λ d. whole d (record { listening = None; ended = [] }) nothing_made ≡ at_rest) }
        ensures idle { IfOk result (λ d. d.busy_until ≡ None) }
        ensures channel { IfOk result (λ d. d.channel ≡ None) }
        ensures delivery { IfOk result (λ d. d.delivery ≡ None) }
        ensures core { IfOk result (λ d. d.core ≡ rebooted 1) }
        ensures windows { IfOk result
            (λ d. d.windows ≡ record { profile = profile.now; sends = n; earlier = 0; last = 0; by_alarm = false; sent = 0 }) }
    {
        Ok(Device {
            node,
            profile: *profile,
            core: Node::new(alloc, profile, node, hosts, n)?,
            on: false,
            boots: 0,
            channel: None,
            alarm: None,
            ordered: None,
            busy_until: None,
            windows: WindowSum::new(profile, n),
        })
    }

    /// The id of its node.
    pub fn node(&self) -> NodeId
        ensures id { result ≡ self.now.setup.id }
        ensures core { IsCoreAt self.now.core self.now.power }
    {
        self.node
    }

    /// Whether its power is on.
    pub fn is_on(&self) -> bool
        ensures { result ≡ power_is_on self.now.power }
    {
        self.on
    }

    /// What it scans, holds or hosts. Returns `None` if and only if its power is off.
    pub fn current_tune(&self) -> Option<Tune>
        ensures { result ≡ tune_of self.now.power }
    {
        if self.on {
            Some(self.core.tune())
        } else {
            None
        }
    }

    /// Whether its power is on and it scans.
    pub fn scans(&self) -> bool
        ensures { result ≡ scans_with (tune_of self.now.power) }
    {
        matches!(self.current_tune(), Some(Tune::Scan(_, _)))
    }

    /// Whether its power is on and a window is open.
    pub fn is_in_window(&self) -> bool
        ensures { result ≡ power_has_window self.now.power }
    {
        self.on && is_window(self.core.place())
    }

    /// The channel of its radio, its alarm and the start of its next transmission.
    pub fn settings(&self) -> Settings
        ensures { result ≡ settings_of self.now }
    {
        Settings {
            channel: self.channel,
            alarm: self.alarm,
            sending: match &self.ordered {
                Some(ordered) => Some(ordered.tick),
                None => None,
            },
        }
    }

    /// What its windows count so far, in ticks of 1/64 µs, as 64 bits have it.
    pub fn windows(&self) -> u64
        ensures { result ≡ (self.now.windows.earlier + self.now.windows.last) % 2 ^ 64 }
    {
        self.windows.total()
    }

    /// The core that it drives, also while its power is off.
    pub fn core(&self) -> &Node
        ensures { result.now ≡ core_in self.now }
    {
        &self.core
    }
}

fn is_window(place: Place) -> bool
    ensures { (stage : Stage) → place ≡ place_of stage → result ≡ stage_has_window stage }
{
    matches!(place, Place::InWindow(_))
}
