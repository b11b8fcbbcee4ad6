//! Links that lose by coins: each link has a reception ratio, and a coin of a seed says for each step whether it passes.
#![tactic(auto)]

pub mod coins;
mod drawn_links;
pub mod laws;
mod link_ratios;
mod ratio_line;
mod ratio_step;
mod ratios;

pub use drawn_links::DrawnLinks;
pub use ratio_line::RatioLine;
pub use ratios::Ratios;
