//! When the network runs, and how long its nodes stay members.

ghost use Rattle.std.specs.Prelude.{◌≡◌};
ghost use Rattle.lwb_base.specs.declared.limits.TheConstants.{QUIET_FRAMES};
ghost use Rattle.law_times.specs.FirstRounds.{FirstRoundsCome, MembersStay, NodesJoin};

use lwb_base::QUIET_FRAMES;

/// The frames from the boot of a host of rank 0 to its first round, if it is not powered off: whatever is lost.
pub fn first_round_frames() -> u8
    ensures value { result ≡ QUIET_FRAMES }
    ensures enough { FirstRoundsCome result }
{
    QUIET_FRAMES
}

/// Nodes within reach of it that boot by that frame are members from the next frame on, as long as nothing is lost in the frames
/// from the first round on, and nobody of them is powered off (`join`). Members of any rank stay members, of the round in which
/// their host has its next, as long as nothing is lost (`stay`).
pub fn members_stay()
    ensures join { NodesJoin }
    ensures stay { MembersStay }
{}
