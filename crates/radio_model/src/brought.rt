//! What rivals of a transmission bring to which nodes.

ghost use Rattle.std.specs.Prelude.{◌≡◌, ◌≤◌, ◌^◌, if◌then◌else◌, option_to_list};
ghost use Rattle.radio_model.specs.Ages.{ByEnd};
ghost use Rattle.radio_model.specs.Meetings.{rival_to as rival_by, rivals_in, IsPlaceOf, IsBrought, nothing_brought, both_brought, brought_by};

use crate::rivals::{Rival, ended_at, first_after, reach_of, rival_to};
use crate::sending::Sending;
use crate::station::Station;
use link_trace::{Links, NodeSet};
use lwb_base::Profile;

/// What rivals bring to nodes: to which they bring other packets, to which the same packet out of time, and to which
/// the same packet at all.
#[derive(Clone, Copy)]
pub struct Brought {
    pub mixed: NodeSet,
    pub spoiled: NodeSet,
    pub same: NodeSet,
}

impl Brought {
    fn none() -> Brought
        ensures { result ≡ nothing_brought }
    {
        Brought {
            mixed: NodeSet::EMPTY,
            spoiled: NodeSet::EMPTY,
            same: NodeSet::EMPTY,
        }
    }

    // What a rival with this reach brings.
    fn by(rival: &Rival, reach: NodeSet) -> Brought
        ensures { result ≡ brought_by rival.now reach }
    {
        Brought {
            mixed: where_so(!rival.same, reach),
            spoiled: where_so(rival.same && !rival.in_time, reach),
            same: where_so(rival.same, reach),
        }
    }

    fn with(self, other: Brought) -> Brought
        ensures { result ≡ both_brought self other }
    {
        Brought {
            mixed: self.mixed.or(other.mixed),
            spoiled: self.spoiled.or(other.spoiled),
            same: self.same.or(other.same),
        }
    }
}

fn where_so(so: bool, nodes: NodeSet) -> NodeSet
    ensures { result ≡ if so then nodes else 0 }
{
    if so { nodes } else { NodeSet::EMPTY }
}

// What y, of this station, does to x while x is on the air: to which of the nodes of `among` it comes, and whether in time.
fn brought_with<M: Links>(
    links: &M,
    profile: &Profile,
    station: &Station,
    x: &Sending,
    y: &Sending,
    among: NodeSet,
) -> Brought
    requires start { x.now.start ≤ 2 ^ 46 }
    requires end { x.now.end ≤ 2 ^ 46 }
    requires at { IsPlaceOf (M.nodes links.now) station.now.place station.now.node }
    ensures { IsBrought (M.lines links.now) (M.nodes links.now) among (option_to_list (rival_by profile.now x.now station.now y.now)) result }
{
    match rival_to(profile, station, x, y) {
        Some(rival) => Brought::by(&rival, reach_of(links, rival.key, station.place, among)),
        None => Brought::none(),
    }
}

/// What this station sends while x is on the air, as it comes to the nodes of `among`.
pub fn brought_from<M: Links>(
    links: &M,
    profile: &Profile,
    station: &Station,
    x: &Sending,
    among: NodeSet,
) -> Brought
    requires start { x.now.start ≤ 2 ^ 46 }
    requires end { x.now.end ≤ 2 ^ 46 }
    requires by_end { ByEnd station.now.ended.items }
    requires at { IsPlaceOf (M.nodes links.now) station.now.place station.now.node }
    ensures { IsBrought (M.lines links.now) (M.nodes links.now) among (rivals_in profile.now x.now station.now) result }
{
    let mut brought = Brought::none();
    for i in first_after(station, x.start)..station.ended.len() {
        let y = ended_at(station, i);
        brought = brought.with(brought_with(links, profile, station, x, y, among));
    }
    match &station.sending {
        Some(y) => brought.with(brought_with(links, profile, station, x, y, among)),
        None => brought,
    }
}
