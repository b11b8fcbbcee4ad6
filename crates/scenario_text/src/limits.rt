//! How long a text may be: its nodes times its frames, and its script lines.

ghost use Rattle.std.specs.Prelude.{◌≡◌};
ghost use Rattle.scenario_text.specs.declared.limits.TheConstants.{BUS_NODE_FRAMES, BUS_SCRIPT_LINES, RUN_NODE_FRAMES};

use lwb_base::MOST_SCRIPT_LINES;

/// The most nodes times frames of a scenario that is run with a log: 64 nodes have 256 frames.
pub const RUN_NODE_FRAMES: u32 = 16_384;

/// The most nodes times frames of a network: 64 nodes over all 4,096 frames.
pub const BUS_NODE_FRAMES: u32 = 262_144;

/// The most script lines of a network: its rates, losses, cuts and captures are counted too. One that is run with a log has
/// `MOST_SCRIPT_LINES` at most.
pub const BUS_SCRIPT_LINES: u32 = 262_144;

/// The limits of a text: the most nodes times frames, and the most script lines of all kinds.
#[derive(Drop)]
pub(crate) struct Limits {
    pub(crate) node_frames: u32,
    pub(crate) script_lines: u32,
}

/// Those of a text that is to be run with a log.
pub(crate) const RUN_LIMITS: Limits = Limits {
    node_frames: RUN_NODE_FRAMES,
    script_lines: MOST_SCRIPT_LINES as u32,
};

/// Those of the long horizon, for networks.
pub(crate) const LONG_LIMITS: Limits = Limits {
    node_frames: BUS_NODE_FRAMES,
    script_lines: BUS_SCRIPT_LINES,
};

/// The numbers of the rules, which no other clause tells: definitions cite the constants.
pub fn horizons_have_their_numbers()
    ensures run { RUN_NODE_FRAMES ≡ 16384 }
    ensures bus { BUS_NODE_FRAMES ≡ 262144 }
    ensures lines { BUS_SCRIPT_LINES ≡ 262144 }
{}
