//! What happens at a node.

use crate::Packet;

/// What happens at a node.
#[derive(Drop)]
pub enum Event {
    /// Its power came on.
    Boot,
    /// Its alarm is due.
    Alarm,
    /// The reception of this packet ended.
    Heard(Packet),
    /// Its own transmission ended.
    Sent,
}
