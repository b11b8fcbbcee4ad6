//! What a node orders of its radio and its alarm.

use crate::{Packet, Rank};

/// What a node orders of its radio and of its alarm. Times are local ticks of 1/64 µs.
#[derive(Default, Drop)]
pub enum Order {
    /// Tune to the channel of this rank.
    Listen(Rank),
    /// End the tuning.
    #[default]
    Off,
    /// Begin to send this packet at this time, in place of a transmission that has not begun.
    SendAt(u64, Packet),
    /// Set the one alarm to this time.
    Alarm(u64),
}
