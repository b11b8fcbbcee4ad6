//! Transmissions that overlap another one on its channel.

ghost use Rattle.std.specs.Prelude.{◌≡◌, ◌≤◌, ◌/◌, ◌<◌, ◌^◌, length, All, slice_index, slice_index_or, take};
ghost use Rattle.link_trace.specs.Masks.{IsMaskAmong};
ghost use Rattle.radio_model.specs.Ages.{ByEnd};
ghost use Rattle.radio_model.specs.Meetings.{key_of, IsInOneFrame, rival_to as rival_by, passes_at};

use crate::meeting::{comes_in_time, meets_on, same_packet};
use crate::sending::Sending;
use crate::station::Station;
use link_trace::{Links, NodeSet};
use lwb_base::{NodeId, Profile};

/// The place of a transmission in a trace: the frame of its start, and the slot and the counter of its packet.
#[derive(Clone, Copy, PartialEq, Eq)]
pub struct Key {
    pub frame: u32,
    pub slot: u8,
    pub counter: u8,
}

/// A transmission that overlaps another one on its channel: its sender, its key, whether it has the same packet, and whether it
/// comes in time to be received as one with it.
#[derive(Clone, Copy)]
pub struct Rival {
    pub node: NodeId,
    pub key: Key,
    pub same: bool,
    pub in_time: bool,
}

impl Key {
    pub fn of(profile: &Profile, y: &Sending) -> Key
        requires { y.now.start ≤ 2 ^ 46 }
        ensures { result ≡ key_of profile.now y.now }
    {
        Key {
            frame: (y.start / profile.frame()) as u32,
            slot: y.packet.slot(),
            counter: y.packet.counter(),
        }
    }
}

/// The tick at which the frame of a tick begins.
pub fn frame_start(profile: &Profile, t: u64) -> u64
    ensures { IsInOneFrame profile.now.frame t result }
{
    t - t % profile.frame()
}

/// How y, of this station, interferes with x. Returns `None` if and only if it does not overlap x on its channel.
pub fn rival_to(profile: &Profile, station: &Station, x: &Sending, y: &Sending) -> Option<Rival>
    requires start { x.now.start ≤ 2 ^ 46 }
    requires end { x.now.end ≤ 2 ^ 46 }
    ensures { result ≡ rival_by profile.now x.now station.now y.now }
{
    if !meets_on(x, y) {
        return None;
    }
    Some(Rival {
        node: station.node,
        key: Key::of(profile, y),
        same: same_packet(x, y),
        in_time: comes_in_time(profile, x, y),
    })
}

/// The ended transmission at that place, the oldest at 0.
pub fn ended_at(station: &Station, i: usize) -> &Sending
    requires { i < length station.now.ended.items }
    ensures { result.now ≡ slice_index_or station.now.ended.items i result.now }
{
    station.ended.get(i).unwrap()
}

/// From this place on the ended transmissions may overlap one that begins at `start`. They are in the order of their ends, so
/// the search goes back from the newest, and before the first that was over by `start` all were.
pub fn first_after(station: &Station, start: u64) -> usize
    requires { ByEnd station.now.ended.items }
    ensures within { result ≤ length station.now.ended.items }
    ensures before { All (λ y. y.end ≤ start) (take result station.now.ended.items) }
{
    let mut first = station.ended.len();
    while first > 0 {
        if ended_at(station, first - 1).end <= start {
            return first;
        }
        first -= 1;
    }
    0
}

/// Those of the nodes of `among` to which a link passes at the key from the node at that place.
pub fn reach_of<M: Links>(links: &M, key: Key, place: u8, among: NodeSet) -> NodeSet
    requires { place < length (M.nodes links.now) }
    ensures { IsMaskAmong (λ v. passes_at (M.lines links.now) key (slice_index (M.nodes links.now) place) v) (M.nodes links.now) among result }
{
    links.to_mask_among(key.frame, key.slot, key.counter, place, among)
}
