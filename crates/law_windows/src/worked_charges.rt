//! Worked examples of windows, each law a function that does nothing and has the law as its contract.

ghost use Rattle.law_windows.specs.WorkedCharges.{asking, window_closed_late, listening_window, Costs, GoesByRows};

/// Three windows of node 2 in the worked rounds of one packet, over clocks that drift apart. In the first it sends twice, as
/// often as it may, and its radio is on for a tick more than is charged (`asking`). In the second nothing happens, and its slow
/// clock keeps it open for 42 ticks more (`listening`). The third opens late, by a zero that came with the opening schedule of
/// its round, and is 24,789 ticks shorter than its charge; its tuning began with the window before (`late`). The last two open
/// and close by their rows (`rows`), as the first does by `a_guest_asks`.
pub fn windows_of_a_worked_round_cost()
    ensures asking { Costs asking 180737 180736 }
    ensures listening { Costs listening_window 2096042 2096000 }
    ensures late { Costs window_closed_late 168235 193024 }
    ensures rows { GoesByRows listening_window × GoesByRows window_closed_late }
{}
