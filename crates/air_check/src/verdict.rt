//! What is wrong with a log.

use lwb_base::NodeId;

/// What is wrong first with a log, if anything is. The four exclude each other: `laws::a_log_has_one_verdict`.
#[derive(Clone, Copy)]
pub enum Verdict {
    /// The log is valid: each node did what its trail says over what it received, and each reception is there, once,
    /// that the rules of the medium give.
    Lawful,
    /// The node of the least id whose transmissions and tunings aren't those of its trail.
    Trail(NodeId),
    /// Trails are followed. The first entry, counted from 1, that is a reception which the rules of the medium don't give,
    /// or which is above already.
    Heard(usize),
    /// Trails are followed and each reception is given. The first reception that is missing, by start, then sender, then
    /// receiver: who would receive it, from whom, and the tick of 1/64 µs at which it starts.
    Missing(NodeId, NodeId, u64),
}
