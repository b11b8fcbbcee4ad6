//! How two transmissions meet on the air.

ghost use Rattle.std.specs.Prelude.{◌≡◌, ◌≤◌, ◌^◌};
ghost use Rattle.std.specs.Str.{bytes_eq};
ghost use Rattle.radio_model.specs.Meetings.{comes_in_time as in_time};
ghost use Rattle.radio_model.specs.Receptions.{meets_on as meets_on_channel, repeats as repetition};
ghost use Rattle.radio_model.specs.Stations.{overlaps};

use crate::sending::Sending;
use lwb_base::Profile;

/// Whether both are on the air at some tick.
pub(crate) fn overlap(x: &Sending, y: &Sending) -> bool
    ensures { result ≡ overlaps x.now y.now }
{
    x.start < y.end && y.start < x.end
}

/// Whether y is on the channel of x while x is on the air.
pub(crate) fn meets_on(x: &Sending, y: &Sending) -> bool
    ensures { result ≡ meets_on_channel x.now y.now }
{
    y.rank == x.rank && overlap(x, y)
}

/// Whether y has the packet of x.
pub(crate) fn same_packet(x: &Sending, y: &Sending) -> bool
    ensures { result ≡ bytes_eq y.now.packet x.now.packet }
{
    y.packet.bytes() == x.packet.bytes()
}

/// Whether y has the packet of x, on its channel while x is on the air.
pub(crate) fn repeats(x: &Sending, y: &Sending) -> bool
    ensures { result ≡ repetition x.now y.now }
{
    meets_on(x, y) && same_packet(x, y)
}

/// Whether y starts with x or after it, by start and then sender, and soon enough to be received as one with it.
pub(crate) fn comes_in_time(profile: &Profile, x: &Sending, y: &Sending) -> bool
    requires { x.now.start ≤ 2 ^ 46 }
    ensures { result ≡ in_time profile.now x.now y.now }
{
    let is_first = x.start < y.start || x.start == y.start && x.node <= y.node;
    is_first && y.start <= x.start + profile.delta()
}
