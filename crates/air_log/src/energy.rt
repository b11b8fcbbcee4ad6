//! What the radio of a node costs.

/// What the radio of a node costs in a run. Times are ticks of 1/64 µs.
#[derive(Clone, Copy, Debug, PartialEq, Eq)]
pub struct Energy {
    /// The airtimes of its transmissions, summed.
    pub sent: u64,
    /// What the windows count that it opened in rounds: each until the end of its last transmission, if it sent as often as it
    /// may, and else until the window closes.
    pub windows: u64,
    /// The number of frames at whose start it scanned for a host.
    pub scanned: u32,
    /// The time in which its radio was on, its transmissions included.
    pub on: u64,
}
