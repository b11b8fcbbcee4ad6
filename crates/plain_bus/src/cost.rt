//! What a slot costs a node.

ghost use Rattle.std.specs.Prelude.{◌≡◌, ◌≤◌, ◌<◌, ◌+◌, ℕ, List, Some, None, length};
ghost use Rattle.std.specs.List.{last_or};
ghost use Rattle.plain_bus.specs.SlotCosts.{with_slot, window_charge, IsBelow};

use bus_rules::until_last_sending;
use lwb_base::Profile;
use std::marker::Model;

/// What the radio of a node costs on the bus. Times are ticks of 1/64 µs.
#[derive(Clone, Copy, Debug, PartialEq, Eq)]
pub struct Cost {
    /// How long it sends.
    pub sent: u64,
    /// What its windows in rounds count: each until the end of its last transmission, if the node sent as often as it may, and
    /// else until the window closes.
    pub windows: u64,
    /// The number of frames in which it scans for a host, after the script lines.
    pub scanned: u32,
}

impl Model for Cost {
    ghost use Rattle.bus_terms.specs.Bus.{Cost as CostOf};

    ghost Value = { CostOf };

    ghost view = { λ c. record { sent = c.sent; windows = c.windows; scanned = c.scanned } };

    ghost inverse = { λ c. record { sent = c.sent; windows = c.windows; scanned = c.scanned } };
}

/// In how many steps of a flood a node sent, and the last of them.
#[derive(Clone, Copy)]
pub struct Steps {
    pub count: u8,
    pub last: Option<u8>,
}

impl Cost {
    /// With the cost of a slot, in which the node sent `bytes` bytes in each of these steps, and had a window or none. A node
    /// sends at most `limit` times, 1 to 4.
    pub fn add_slot(&mut self, profile: &Profile, limit: u8, is_open: bool, bytes: u8, steps: Steps)
        requires room { IsBelow 1048576 self.old }
        requires count { steps.count ≤ 12 }
        requires last { (k : ℕ) → steps.last ≡ Some k → k ≤ 11 }
        ensures value { (ks : List ℕ) → steps.count ≡ length ks → steps.last ≡ last_or None ks → 1 ≤ limit
            → self.new ≡ with_slot profile.now limit is_open bytes ks self.old }
        ensures room { (m : ℕ) → IsBelow m self.old → IsBelow (m + 1) self.new }
    {
        self.sent += u64::from(steps.count) * profile.airtime(bytes);
        self.windows += window_time(profile, limit, is_open, bytes, steps);
    }
}

// What the window of a node in a slot counts, if it has one.
fn window_time(profile: &Profile, limit: u8, is_open: bool, bytes: u8, steps: Steps) -> u64
    requires last { (k : ℕ) → steps.last ≡ Some k → k ≤ 11 }
    ensures value { (ks : List ℕ) → steps.count ≡ length ks → steps.last ≡ last_or None ks → 1 ≤ limit
        → result ≡ window_charge profile.now limit is_open bytes ks }
    ensures few { result ≤ 8388608 }
{
    if !is_open {
        return 0;
    }
    match steps.last {
        Some(last) if steps.count == limit => until_last_sending(profile, last, bytes),
        _ => profile.close(),
    }
}
