//! Worked examples of windows, each law a function that does nothing and has the law as its contract.

ghost use Rattle.std.specs.Option.{IfSome};
ghost use Rattle.scenario_text.specs.Setups.{setup_of};
ghost use Rattle.law_trails.specs.OnePacket.{drifting, one_packet};
ghost use Rattle.law_windows.specs.WindowFloods.{WindowHasFlood};
ghost use Rattle.law_windows.specs.WindowRows.{ClosesAs, IsOpened};
ghost use Rattle.law_windows.specs.WorkedWindows.{asking_window, joined_window};

/// The window that a received opening schedule opens at node 2 while it scans, over clocks that drift apart: it opens and
/// closes by the rows, and its flood is what happened in it.
pub fn a_scanner_joins()
    ensures opening { IsOpened one_packet drifting 2 joined_window }
    ensures closing { IfSome joined_window.closed (ClosesAs one_packet drifting 2 joined_window) }
    ensures flood { WindowHasFlood (setup_of one_packet 2) joined_window }
{}

/// And that of the next slot, which opens by its alarm, and in which the node asks for its stream.
pub fn a_guest_asks()
    ensures opening { IsOpened one_packet drifting 2 asking_window }
    ensures closing { IfSome asking_window.closed (ClosesAs one_packet drifting 2 asking_window) }
    ensures flood { WindowHasFlood (setup_of one_packet 2) asking_window }
{}
