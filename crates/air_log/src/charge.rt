//! What the windows of one node count in a run.

/// What the listening of a node comes to in a run.
#[derive(Clone, Copy, Debug, PartialEq, Eq)]
pub struct NodeCharge {
    /// What the windows count that it opened by their alarm, in ticks of 1/64 µs.
    pub windows: u64,
    /// The number of frames at whose start, after their script lines, it scans.
    pub scanned: u32,
}
