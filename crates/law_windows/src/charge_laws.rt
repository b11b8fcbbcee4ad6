//! How long the radio of a node is on, by the log. Each law is a function that has the law as its contract.

ghost use Rattle.law_windows.specs.ChargeLaws.{OnIsTimeInRun, WindowsCostByBudget};
ghost use Rattle.law_windows.specs.ChargeLaws.{WindowsCostTheirCharge, WindowsTogether};

/// In each window of a valid (`Lawful`) log that opened by its alarm and has closed, the ticks of true time in which the radio
/// of its node was on differ from what the window is charged by at most 64,000, a millisecond (`near`); and by no more than two
/// zeros of one round may, which is 44,960 ticks in the first profile and 58,300 in the second (`budget`). So all windows of a
/// node together differ from what its account says of them by no more than that for each (`together`).
pub fn windows_cost_near_their_charge()
    ensures near { WindowsCostTheirCharge }
    ensures budget { WindowsCostByBudget }
    ensures together { WindowsTogether }
{}

/// Counted in the same way over the whole run, the radio of a node was on as long as its account says.
pub fn on_is_all_time_of_the_run()
    ensures { OnIsTimeInRun }
{}
