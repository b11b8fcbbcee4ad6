//! The jobs of streams with deadlines.

use lwb_base::Owner;

/// A slot that a stream needs: one in a frame from `release` to `end - 1`. Jobs are ordered by end, then owner, then
/// release.
#[derive(Clone, Copy, Debug, PartialEq, Eq, PartialOrd, Ord)]
pub struct Job {
    /// The frame by which it has to have its slot: one past the last that may give it, 1 to 1,024.
    pub end: u32,
    /// The stream that needs it.
    pub owner: Owner,
    /// The first frame that may give it, 0 to 1,023.
    pub release: u32,
}
