//! Finds who receives a transmission at its end.

ghost use Rattle.std.specs.Prelude.{◌≡◌, ◌<◌, All, length, ◌||◌, ◌==◌, not, ℕ, slice_index_or};
ghost use Rattle.std.specs.List.{list_any};
ghost use Rattle.lwb_base.specs.declared.limits.TheConstants.{MOST_NODES};
ghost use Rattle.radio_model.specs.Stations.{on_air, overlaps};
ghost use Rattle.radio_model.specs.Ages.{IsAged};
ghost use Rattle.radio_model.specs.Endings.{IsEnding, rivals_of};
ghost use Rattle.radio_model.specs.Marks.{IsMark, AreMarks};
ghost use Rattle.std.specs.Int.{bit_at};
ghost use Rattle.link_trace.specs.Passes.{captured};
ghost use Rattle.radio_model.specs.declared.station.Station.{Station};
ghost use Rattle.radio_model.specs.Meetings.{hearers_to, is_chosen as is_chosen_by, is_ready as ready_for, AreThose, IsPlaceOf};

use crate::chosen::is_chosen;
use crate::crowd::{Crowd, crowd_of, lost_early};
use crate::ending::Ending;
use crate::hearers::Hearers;
use crate::mark::Mark;
use crate::rivals::reach_of;
use crate::sending::Sending;
use crate::station::Station;
use link_trace::{Links, NodeSet};

/// Who receives x, the transmission of the station `from`, now that it ends.
pub fn listeners<M: Links>(links: &M, ending: &Ending, from: &Station) -> Hearers
    requires ending { IsEnding (M.nodes links.now) ending.now }
    requires from { IsPlaceOf (M.nodes links.now) from.now.place from.now.node }
    ensures { result ≡ hearers_to ending.now.profile.now (M.lines links.now) from.now.node ending.now.x.now ending.now.stations.now }
{
    let reached = reach_of(links, ending.key, from.place, idle(ending));
    let lost = lost_early(links, ending, reached);
    let left = reached.except(lost);
    let ready = ready_of(ending.stations, ending.marks, left, ending.x);
    let Some(crowd) = crowd_of(links, ending, ready) else {
        return Hearers::none();
    };
    let mut hearers = Hearers::none();
    let mut rest = crowd.left_of(ready);
    while !rest.is_empty() {
        let place = rest.lowest();
        rest = rest.without(place);
        let at = &ending.stations[usize::from(place)];
        if is_taken(links, ending, at, place, &crowd) {
            hearers.push(at.node, from.node);
        }
    }
    hearers
}

// All but those that are known to transmit next to x.
fn idle(ending: &Ending) -> NodeSet
    ensures { (i : ℕ) → i < MOST_NODES → bit_at ending.now.busy i ≡ 0 → bit_at result i ≡ 1 }
{
    NodeSet::of_word(u64::MAX).except(ending.busy)
}

// Those of the nodes at these places that are tuned to the channel of x all the time and send nothing next to it.
fn ready_of(stations: &[Station], marks: &[Mark], places: NodeSet, x: &Sending) -> NodeSet
    requires aged { All (λ st. IsAged x.now.end st.ended.items) stations.now }
    requires marks { AreMarks stations.now marks.now }
    requires within { (k : ℕ) → bit_at places k ≡ 1 → k < length stations.now }
    ensures { (d : Station) → AreThose (λ k. ready_for x.now (slice_index_or stations.now k d)) places result }
{
    let mut ready = places;
    let mut rest = places;
    while !rest.is_empty() {
        let place = rest.lowest();
        rest = rest.without(place);
        let i = usize::from(place);
        if !is_ready(&stations[i], &marks[i], x) {
            ready = ready.without(place);
        }
    }
    ready
}

// Whether the node at `at` is tuned to the channel of x all the time and sends nothing next to it.
fn is_ready(at: &Station, mark: &Mark, x: &Sending) -> bool
    requires own { IsAged x.now.end at.now.ended.items }
    requires mark { IsMark (on_air at.now) mark.now }
    ensures { result ≡ ready_for x.now at.now }
{
    at.was_tuned(x.rank, x.start, x.end) && was_quiet(at, mark, x)
}

// Whether the node at `at`, which is ready and reached by x in time, takes it: another packet may come to it too.
fn is_taken<M: Links>(links: &M, ending: &Ending, at: &Station, place: u8, crowd: &Crowd) -> bool
    requires ending { IsEnding (M.nodes links.now) ending.now }
    requires at { IsPlaceOf (M.nodes links.now) at.now.place at.now.node }
    requires place { place ≡ at.now.place }
    ensures { result ≡ (not (bit_at crowd.now.mixed place == 1) || is_chosen_by (M.lines links.now) at.now.node (rivals_of ending.now)
        (captured (M.lines links.now) ending.now.key.frame ending.now.key.slot ending.now.key.counter at.now.node)) }
{
    !crowd.mixed.has(place)
        || is_chosen(
            links,
            ending.profile,
            ending.stations,
            at,
            ending.x,
            ending.key,
        )
}

// Whether no transmission of the node at `at` overlaps x, which ends now. Mostly its mark tells.
fn was_quiet(at: &Station, mark: &Mark, x: &Sending) -> bool
    requires own { IsAged x.now.end at.now.ended.items }
    requires mark { IsMark (on_air at.now) mark.now }
    ensures { result ≡ not (list_any (overlaps x.now) (on_air at.now)) }
{
    mark.is_aside(x.start, x.end) || at.is_quiet(x)
}
