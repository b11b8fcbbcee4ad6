//! A transmission that ends, with what the medium knows of it.

use crate::mark::{Mark, Origin};
use crate::rivals::Key;
use crate::sending::Sending;
use crate::station::Station;
use link_trace::NodeSet;
use lwb_base::Profile;

/// A transmission x that ends now, with what the medium knows of it. Contracts ask that it is so (`IsEnding`).
#[derive(Clone, Copy)]
pub struct Ending<'a> {
    pub x: &'a Sending,
    /// Its key in the trace.
    pub key: Key,
    /// The origin of its packet.
    pub origin: Origin,
    /// A tick since which the frame is the one in which x began.
    pub opens: u64,
    /// The places among which all its rivals are.
    pub places: NodeSet,
    /// The places of nodes that are known to transmit next to it, and so do not receive it.
    pub busy: NodeSet,
    /// What their marks show: all of these send the packet of x, once each, not before `opens` and in time after x.
    pub close: bool,
    /// All stations, by their places.
    pub stations: &'a [Station],
    /// The transmissions of the stations in short.
    pub marks: &'a [Mark],
    pub profile: &'a Profile,
    /// The greatest displacement at which equal transmissions are received as one, by the profile.
    pub delta: u64,
}
