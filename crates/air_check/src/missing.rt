//! The first reception that is missing in a log.

ghost use Rattle.std.specs.Prelude.{◌≡◌, ◌*◌, ◌<◌, ℕ, List, IfSome, IfNone, length, slice_index_or};
ghost use Rattle.lwb_base.specs.declared.limits.TheConstants.{PLACES_BY_ID};
ghost use Rattle.scenario_clocks.specs.StatedClocks.{scenario_clock};
ghost use Rattle.air_log.specs.declared.entry.Entry.{Entry};
ghost use Rattle.air_log.specs.Entries.{hearings_of, HasHeardEntry};
ghost use Rattle.air_log.specs.Lawful.{FollowsTrails};
ghost use Rattle.radio_model.specs.OnAir.{Sending};
ghost use Rattle.air_check.specs.Flags.{AreFlags, IsFirstOf};
ghost use Rattle.air_check.specs.Indexes.{IsIndex, IsSearchable};
ghost use Rattle.air_check.specs.Verdicts.{IsGiven, IsFirstMissing};

use crate::due::is_due;
use crate::index::Index;
use crate::reach::links_from;
use lwb_base::NodeId;
use scenario_text::Scenario;

/// A reception that is given and not there: who would receive it, from whom, and the tick of 1/64 µs at which it starts.
pub(crate) struct Missed {
    pub(crate) receiver: NodeId,
    pub(crate) sender: NodeId,
    pub(crate) start: u64,
}

/// The first reception that the rules of the medium give and that isn't there, by start, then sender, then receiver. None
/// where each is there. The index and the flags are of the same log.
pub(crate) fn first_missing(s: &Scenario, index: &Index, flags: &[bool]) -> Option<Missed>
    requires searchable { IsSearchable s.now index.now }
    requires size { length flags.now ≡ length index.now.sent.items * PLACES_BY_ID }
    ensures some { (air : List Entry) → FollowsTrails s.now (scenario_clock s.now) air → IsIndex air index.now
        → AreFlags index.now.sent.items (hearings_of air) flags.now → IfSome result (λ m. IsFirstMissing s.now air m.receiver m.sender m.start) }
    ensures none { (air : List Entry) → IsIndex air index.now → AreFlags index.now.sent.items (hearings_of air) flags.now
        → IfNone result ((v : ℕ) (x : Sending) → IsGiven s.now air v x → HasHeardEntry air v x) }
{
    for k in 0..index.sent.len() {
        if let Some(receiver) = first_of(s, index, flags, k) {
            let x = &index.sent[k];
            return Some(Missed {
                receiver,
                sender: x.node,
                start: x.start,
            });
        }
    }
    None
}

// The least node that should have received the transmission at that place and hasn't: it has a link from the sender.
fn first_of(s: &Scenario, index: &Index, flags: &[bool], k: usize) -> Option<NodeId>
    requires searchable { IsSearchable s.now index.now }
    requires size { length flags.now ≡ length index.now.sent.items * PLACES_BY_ID }
    requires place { k < length index.now.sent.items }
    ensures { (air : List Entry) (d : Sending) → IsIndex air index.now → AreFlags index.now.sent.items (hearings_of air) flags.now
        → IsFirstOf s.now air (slice_index_or index.now.sent.items k d) result }
{
    let x = &index.sent[k];
    let links = links_from(s.trace().links(), x.node);
    for link in links {
        if is_due(s, index, flags, link.to, k) {
            return Some(link.to);
        }
    }
    None
}
