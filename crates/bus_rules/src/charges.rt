//! What the windows of a node count in the account of its energy.

ghost use Rattle.std.specs.Prelude.{◌≡◌, ◌≤◌, ◌^◌, Some};
ghost use Rattle.lwb_base.specs.Profile.{IsProfile};
ghost use Rattle.bus_rules.specs.Charges.{charge};

use lwb_base::Profile;

/// What a window counts in which a node sent as often as it may, the last time in this step of the flood with a packet of that
/// many bytes: from when it opens until the end of that transmission, in ticks of 1/64 µs.
pub fn until_last_sending(profile: &Profile, step: u8, bytes: u8) -> u64
    ensures value { result ≡ charge profile.now (Some (step, bytes)) }
    ensures small { bytes ≤ 125 → result ≤ 2 ^ 28 }
    ensures made { IsProfile profile.now }
{
    profile.listen() + (u64::from(step) + 1) * profile.step(bytes) - profile.turn()
}
