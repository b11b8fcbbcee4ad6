//! A ratio of a link, from some frame on.

/// From that frame on the link passes this part of a million.
#[derive(Clone, Copy)]
pub struct RatioStep {
    pub frame: u32,
    pub ratio: u32,
}
