//! What is set at a device.

use lwb_base::Rank;

/// What is set at a device: the channel that its radio is tuned to, by its rank, and the ticks of its alarm and of the start of
/// its next transmission, in 1/64 µs.
#[derive(Clone, Copy)]
pub struct Settings {
    /// The rank of the channel. It is `None` if and only if the radio is off.
    pub channel: Option<Rank>,
    /// When the alarm is due.
    pub alarm: Option<u64>,
    /// When the next transmission starts.
    pub sending: Option<u64>,
}
