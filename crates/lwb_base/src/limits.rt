//! The numbers that the protocol fixes for every network. Code uses them and definitions cite them, so each is said here.

ghost use Rattle.std.specs.Prelude.{◌≡◌};
ghost use Rattle.lwb_base.specs.declared.limits.TheConstants.{DATA_SLOTS, DRIFT_BOUND, DRIFT_PERIOD, FLOOD_STEPS, GREATEST_GAP};
ghost use Rattle.lwb_base.specs.declared.limits.TheConstants.{GREATEST_ID, LAST_FRAME, LAST_RANK, LAST_STEP, MOST_BOOTS, MOST_FRAMES, MOST_NODES};
ghost use Rattle.lwb_base.specs.declared.limits.TheConstants.{MOST_OWNERS, MOST_RANKS, MOST_SCRIPT_LINES, PLACES_BY_ID, QUIET_FRAMES};
ghost use Rattle.lwb_base.specs.declared.limits.TheConstants.{SEARCH_FRAMES};
ghost use Rattle.lwb_base.specs.declared.read.TheConstants.{INPUT_LIMIT};

/// The most frames from one round of a host to its next.
pub const GREATEST_GAP: u8 = 4;

/// The most by which a clock runs fast or slow, in parts per million.
pub const DRIFT_BOUND: u8 = 20;

/// The ticks in which a clock that drifts by the bound gains or loses one.
pub const DRIFT_PERIOD: u64 = 1_000_000 / DRIFT_BOUND as u64;

/// The last frame number: a node counts its frames no further. A schedule's gap may lead past it.
pub const LAST_FRAME: u32 = 16_777_215;

/// The frames for which a node scans its own rank, without the rank's host, before it hosts it.
pub const QUIET_FRAMES: u8 = 5;

/// The frames for which a node scans any rank, without the rank's host, before it goes on to the next.
pub const SEARCH_FRAMES: u8 = 12;

/// The steps of a flood.
pub const FLOOD_STEPS: u8 = 12;

/// The last step of a flood, steps being counted from 0. No relay counter is above it.
pub const LAST_STEP: u8 = FLOOD_STEPS - 1;

/// The most data slots of a round.
pub const DATA_SLOTS: u8 = 40;

/// The most owners of a round, which has a data slot for each.
pub const MOST_OWNERS: usize = DATA_SLOTS as usize;

/// The greatest id of a node. Ids begin at 1.
pub const GREATEST_ID: u8 = 200;

/// The most boots of a node, and so the greatest boot number. Boots are counted from 1.
pub const MOST_BOOTS: u8 = 200;

/// The length of a table with a place for each id. Its place 0 is no node's.
pub const PLACES_BY_ID: usize = GREATEST_ID as usize + 1;

/// The most nodes of a network.
pub const MOST_NODES: usize = 64;

/// The most frames of a scenario.
pub const MOST_FRAMES: u32 = 4_096;

/// The most hosts of a network, and so the most ranks. Ranks are counted from 0.
pub const MOST_RANKS: u8 = 4;

/// The last rank, ranks being counted from 0.
pub const LAST_RANK: u8 = MOST_RANKS - 1;

/// The most script lines of a scenario: its rates, losses, cuts and captures are counted too.
pub const MOST_SCRIPT_LINES: usize = 20_000;

/// Definitions cite the constants, so no other clause would tell a wrong number. These are the numbers of the rules.
pub fn limits_have_their_numbers()
    ensures gap { GREATEST_GAP ≡ 4 }
    ensures drift { DRIFT_BOUND ≡ 20 }
    ensures period { DRIFT_PERIOD ≡ 50000 }
    ensures frame { LAST_FRAME ≡ 16777215 }
    ensures quiet { QUIET_FRAMES ≡ 5 }
    ensures search { SEARCH_FRAMES ≡ 12 }
    ensures steps { FLOOD_STEPS ≡ 12 }
    ensures step { LAST_STEP ≡ 11 }
    ensures data { DATA_SLOTS ≡ 40 }
    ensures owners { MOST_OWNERS ≡ 40 }
    ensures id { GREATEST_ID ≡ 200 }
    ensures places { PLACES_BY_ID ≡ 201 }
    ensures boots { MOST_BOOTS ≡ 200 }
    ensures nodes { MOST_NODES ≡ 64 }
    ensures frames { MOST_FRAMES ≡ 4096 }
    ensures ranks { MOST_RANKS ≡ 4 }
    ensures rank { LAST_RANK ≡ 3 }
    ensures lines { MOST_SCRIPT_LINES ≡ 20000 }
    ensures input { INPUT_LIMIT ≡ 4194304 }
{}
