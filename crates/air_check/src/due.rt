//! Whether a reception is given and not there.

ghost use Rattle.std.specs.Prelude.{◌≡◌, ◌*◌, ◌<◌, List, length, slice_index_or};
ghost use Rattle.lwb_base.specs.declared.limits.TheConstants.{PLACES_BY_ID};
ghost use Rattle.radio_model.specs.OnAir.{Hearing, Sending};
ghost use Rattle.air_log.specs.declared.entry.Entry.{Entry};
ghost use Rattle.air_check.specs.Flags.{AreFlags, IsGivenAndMissing};
ghost use Rattle.air_check.specs.Indexes.{IsIndex, IsSearchable};

use crate::flags::is_received;
use crate::index::{Index, is_given};
use lwb_base::NodeId;
use scenario_text::Scenario;

/// Whether the rules give the node a reception of the transmission at that place, and it has no flag.
pub(crate) fn is_due(
    s: &Scenario,
    index: &Index,
    flags: &[bool],
    node: NodeId,
    place: usize,
) -> bool
    requires searchable { IsSearchable s.now index.now }
    requires size { length flags.now ≡ length index.now.sent.items * PLACES_BY_ID }
    requires place { place < length index.now.sent.items }
    ensures { (air : List Entry) (hs : List Hearing) (d : Sending) → IsIndex air index.now → AreFlags index.now.sent.items hs flags.now
        → IsGivenAndMissing s.now air hs node (slice_index_or index.now.sent.items place d) result }
{
    !is_received(flags, place, node) && is_given(s, index, node, place)
}
