//! How the invariant goes from tick to tick, each law a function that does nothing and has the law as its contract.

ghost use Rattle.law_safety.specs.KnownInRows.{HeardInFloods, WellAtAlarms, WellAtHearings, WellInPhases};
ghost use Rattle.law_safety.specs.Invariant.{HoldsThroughout};
ghost use Rattle.law_safety.specs.Rows.{RowsSuffice};

/// The invariant holds before each tick of a run if each step of a tick keeps what it has to keep: script lines, receptions,
/// the end of its own transmission, alarms, the start of a transmission, and the ways from phase to phase and from tick to
/// tick.
pub fn rows_suffice()
    ensures { RowsSuffice }
{}

/// If the invariant holds before a tick, what a node receives in this tick was sent in a flood of the frame of true time, on
/// the channel to which the node is tuned.
pub fn what_is_heard_is_of_a_flood()
    ensures { HeardInFloods }
{}

/// The numbers of the node are then in their ranges when it takes a reception (`hearings`), when its alarm is due (`alarms`),
/// and when it enters each phase of the tick (`phases`).
pub fn nodes_of_a_run_stay_in_range()
    ensures hearings { WellAtHearings }
    ensures alarms { WellAtAlarms }
    ensures phases { WellInPhases }
{}

/// Each step of a tick keeps what it has to keep: script lines, receptions, the end of its own transmission, the alarms of
/// frames, of the openings and closings of windows, the start of a transmission, and the ways from phase to phase and from tick
/// to tick. So the invariant holds before each tick of a run: a sound scenario over any clocks of the drift law, and a
/// protocol-obedient log.
pub fn steps_keep_the_invariant()
    ensures { HoldsThroughout }
{}
