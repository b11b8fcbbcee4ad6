//! Whether the rules of the medium give a reception.

ghost use Rattle.std.specs.Prelude.{◌≡◌, ◌↔◌, ◌<◌, true, length, slice_index_or};
ghost use Rattle.radio_model.specs.Hearing.{Scene, HearsInScene};
ghost use Rattle.radio_model.specs.OnAir.{Sending};
ghost use Rattle.air_check.specs.Indexes.{IsSearchable};
ghost use Rattle.radio_model.specs.Reaches.{HoldSame};
ghost use Rattle.air_check.specs.Tunings.{AreTuned};

use crate::index::Index;
use crate::tunings::is_tuned_through;
use lwb_base::NodeId;
use radio_model::receivers::is_among;
use scenario_text::Scenario;

/// Whether the node receives the transmission at that place.
pub(crate) fn receives(s: &Scenario, index: &Index, node: NodeId, place: usize) -> bool
    requires searchable { IsSearchable s.now index.now }
    requires place { place < length index.now.sent.items }
    ensures { (a : Scene) (d : Sending) → a.numbers ≡ s.now.profile → a.lines ≡ s.now.trace → HoldSame a.sendings index.now.sent.items
        → AreTuned a.tunings index.now.tuned.items → (result ≡ true ↔ HearsInScene a node (slice_index_or index.now.sent.items place d)) }
{
    let mask = index.receivers[place];
    let x = &index.sent[place];
    is_among(&index.nodes, mask, node) && is_tuned_through(&index.tuned, node, x)
}
