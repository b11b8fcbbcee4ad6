//! A line of a text that breaks a premise.

use crate::power_line::PowerLine;
use drawn_links::RatioLine;
use link_trace::{CutLine, LoseLine};

/// A line of the text by which a premise is not met.
#[derive(Clone, Copy, Debug, PartialEq, Eq)]
pub enum BreakingLine {
    /// A node comes on or goes off.
    Switch(PowerLine),
    /// A link loses what is sent.
    Lose(LoseLine),
    /// A node is cut off.
    Cut(CutLine),
    /// A link has this ratio.
    Rated(RatioLine),
}
