//! The first reception of a log that is wrong.

ghost use Rattle.std.specs.Prelude.{◌≡◌, ◌*◌, List, [], IfSome, IfNone, length};
ghost use Rattle.lwb_base.specs.declared.limits.TheConstants.{PLACES_BY_ID};
ghost use Rattle.air_log.specs.declared.entry.Entry.{Entry};
ghost use Rattle.air_log.specs.Entries.{hearings_of};
ghost use Rattle.air_log.specs.Courses.{hearing_of};
ghost use Rattle.radio_model.specs.OnAir.{Hearing};
ghost use Rattle.air_check.specs.Flags.{AreFlags, TakesIn, IsRightNext};
ghost use Rattle.air_check.specs.Indexes.{IsIndex, IsSearchable};
ghost use Rattle.air_check.specs.Verdicts.{IsFirstWrong, AreGiven};

use crate::due::is_due;
use crate::flags::{heard_in, place_of, receive};
use crate::index::Index;
use crate::sent::entry_at;
use air_log::{Air, Entry, HeardEntry};
use scenario_text::Scenario;

/// The first entry, counted from 1, that is a reception which the rules of the medium don't give, or which is above already.
/// None where each reception is given, and is there once. The index is of the log, and no flag is set yet; where the answer
/// is None, each reception has its flag.
pub(crate) fn first_wrong(
    s: &Scenario,
    air: &Air,
    index: &Index,
    flags: &mut Vec<bool>,
) -> Option<usize>
    requires searchable { IsSearchable s.now index.now }
    requires holds { IsIndex air.now index.now }
    requires none { AreFlags index.now.sent.items [] flags.old.items }
    ensures some { IfSome result (λ i. IsFirstWrong s.now air.now i) }
    ensures none { IfNone result (AreGiven s.now air.now air.now) }
    ensures flags { IfNone result (AreFlags index.now.sent.items (hearings_of air.now) flags.new.items) }
{
    for i in 0..air.len() {
        if !is_right(s, index, flags, entry_at(air, i)) {
            return Some(i + 1);
        }
    }
    None
}

// Whether an entry is no reception, or one that is given and new.
fn is_right(s: &Scenario, index: &Index, flags: &mut Vec<bool>, entry: &Entry) -> bool
    requires searchable { IsSearchable s.now index.now }
    requires size { length flags.old.items ≡ length index.now.sent.items * PLACES_BY_ID }
    ensures { (air above : List Entry) → IsIndex air index.now → AreFlags index.now.sent.items (hearings_of above) flags.old.items
        → IsRightNext s.now air index.now.sent.items above entry.now flags.new.items result }
{
    match heard_in(entry) {
        Some(h) => take_in(s, index, flags, h),
        None => true,
    }
}

// Whether a reception is given and new; if so it is there from now on.
fn take_in(s: &Scenario, index: &Index, flags: &mut Vec<bool>, h: &HeardEntry) -> bool
    requires searchable { IsSearchable s.now index.now }
    requires size { length flags.old.items ≡ length index.now.sent.items * PLACES_BY_ID }
    ensures { (air : List Entry) (hs : List Hearing) → IsIndex air index.now → AreFlags index.now.sent.items hs flags.old.items
        → TakesIn s.now air index.now.sent.items hs (hearing_of h.now) flags.new.items result }
{
    let Some(k) = place_of(&index.sent, h) else {
        return false;
    };
    if !is_due(s, index, flags, h.node, k) {
        return false;
    }
    receive(&index.sent, flags, h);
    true
}
