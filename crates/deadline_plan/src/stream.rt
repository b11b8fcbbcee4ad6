//! Streams with deadlines.

ghost use Rattle.std.specs.Prelude.{◌≡◌};

use lwb_base::{NodeId, Owner};

/// A stream with deadlines, in frames. It has a job for each m from 0: its release is `start + m * period`, and its end
/// is `deadline` after that.
#[derive(Clone, Copy, Debug, PartialEq, Eq)]
pub struct DeadlineStream {
    /// The node and its stream.
    pub owner: Owner,
    /// 0 to 1,023.
    pub start: u32,
    /// 1 to 64.
    pub period: u8,
    /// 1 to 64.
    pub deadline: u8,
}

/// What a place of a list contains that holds no stream yet: stream 0 of node 1, whose owner's code is 4, with a job in each
/// frame.
impl Default for DeadlineStream {
    fn default() -> DeadlineStream
        ensures { result ≡ record { owner = 4; start = 0; period = 1; deadline = 1 } }
    {
        DeadlineStream {
            owner: Owner::new(NodeId::new(1).unwrap(), 0),
            start: 0,
            period: 1,
            deadline: 1,
        }
    }
}
