//! How long it takes until another host leads the network.

ghost use Rattle.std.specs.Prelude.{◌≡◌, ◌≤◌};
ghost use Rattle.lwb_base.specs.declared.limits.TheConstants.{MOST_RANKS};
ghost use Rattle.law_times.specs.Failovers.{BackupsTakeOver, HostsWithin, NodesFollow, failover_bound, takeover_bound};

use lwb_base::{GREATEST_GAP, QUIET_FRAMES, SEARCH_FRAMES};

/// The frames within which a host hosts its rank once it is the last host that is on, in a network of this many hosts, 1 to 4:
/// whatever is lost, and whatever it listened to before.
pub fn failover_frames(hosts: u8) -> u32
    requires { (1 ≤ hosts) × (hosts ≤ MOST_RANKS) }
    ensures value { result ≡ failover_bound hosts }
    ensures enough { HostsWithin hosts result }
{
    u32::from(GREATEST_GAP)
        + u32::from(SEARCH_FRAMES) * u32::from(hosts - 1)
        + u32::from(QUIET_FRAMES)
}

/// Of two hosts that of rank 0 goes off, while the other nodes are synchronized to its next round. These are the frames from
/// that round, which falls out, to the first round of the other host: whatever is lost (`host`). If nothing is lost in the
/// frame of this first round, all others within reach of the host are members after it (`nodes`).
pub fn takeover_frames() -> u8
    ensures value { result ≡ takeover_bound }
    ensures host { BackupsTakeOver result }
    ensures nodes { NodesFollow result }
{
    1 + SEARCH_FRAMES + QUIET_FRAMES
}
