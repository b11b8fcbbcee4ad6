//! Texts of floods and scenarios: what they say, and the first line that is rejected.
#![tactic(auto)]

mod added_lines;
mod boots;
mod flood;
mod flood_draft;
mod flood_line;
mod flood_text;
pub mod known_nodes;
pub mod laws;
mod limits;
mod line_writers;
mod lines;
mod list_writers;
mod network;
mod network_draft;
mod network_line;
mod parsing;
mod payloads;
mod printing;
mod rates;
mod scenario;
mod scenario_draft;
mod scenario_line;
mod scenario_over;
mod script;
mod script_writers;
mod sealing;
mod written_act;

pub use added_lines::{copy_of, with_script};
pub use bus_rules::Act;
pub use flood::parse_flood;
pub use flood_text::FloodText;
pub use limits::{BUS_NODE_FRAMES, BUS_SCRIPT_LINES, RUN_NODE_FRAMES, horizons_have_their_numbers};
pub use lines::{NodeLine, RateLine};
pub use parsing::{parse, parse_long};
pub use printing::print;
pub use scenario::Scenario;
pub use scenario_over::ScenarioOver;
pub use script::ScriptLine;
pub use text_readers::{FaultKind, ParseFault};
