//! Laws of the worked rounds of one packet, each a function that does nothing and has the law as its contract.

ghost use Rattle.std.specs.Prelude.{ℕ, List};
ghost use Rattle.tick_clock.specs.Clocks.{IsClock};
ghost use Rattle.lwb_base.specs.Profile.{one};
ghost use Rattle.time_reference.specs.Budgets.{budget_one};
ghost use Rattle.time_reference.specs.Zeros.{Ref};
ghost use Rattle.air_log.specs.WindowLogs.{WindowLog};
ghost use Rattle.scenario_text.specs.Setups.{setup_of};
ghost use Rattle.air_log.specs.Trails.{one_alarm};
ghost use Rattle.air_log.specs.Lawful.{Lawful, heard_by};
ghost use Rattle.air_log.specs.Safe.{Safe};
ghost use Rattle.law_trails.specs.DueDevices.{IsDeviceWithWindows, StandsAs};
ghost use Rattle.law_trails.specs.OnePacket.{one_packet, drifting, one_packet_log};
ghost use Rattle.law_trails.specs.OnePacketHost.{host_dues};
ghost use Rattle.law_trails.specs.OnePacketMember.{member_dues, member_36, member_late, member_37};

/// The clocks of the worked rounds of one packet keep the drift law (`clocks`), and each zero of node 2 is a reference of its
/// host: by the opening schedule of frame 5 (`opened`), by its closing schedule for frame 9 (`granted`), by the opening
/// schedule of frame 9 (`reopened`), and by its closing schedule for frame 13 (`closed`).
pub fn zeros_of_one_packet()
    ensures clocks { (v : ℕ) → IsClock (drifting v) }
    ensures opened { Ref one budget_one (drifting 1) (drifting 2) 1343946238 5 5 0 }
    ensures granted { Ref one budget_one (drifting 1) (drifting 2) 2367946068 9 5 2 }
    ensures reopened { Ref one budget_one (drifting 1) (drifting 2) 2367905278 9 9 0 }
    ensures closed { Ref one budget_one (drifting 1) (drifting 2) 3391904772 13 9 6 }
{}

/// Worked example, over clocks that drift apart: the trails of a host and of a node that asks for a stream, is granted its
/// slots, and says its packet. Each is as it is written down from each due tick to the next, until the end of the run.
pub fn trails_of_one_packet()
    ensures host { StandsAs one_packet 1 (drifting 1) (heard_by one_packet_log 1) 0 host_dues }
    ensures member { StandsAs one_packet 2 (drifting 2) (heard_by one_packet_log 2) 0 member_dues }
{}

/// In tick 2370089470 node 2 has two alarms: by the first it closes its window of slot 0 and takes the zero of the opening
/// schedule that it accepted, by which slot 1 opens in the past; so by the second it opens the window of slot 1, and both
/// tunings are one.
pub fn a_window_opens_late()
    ensures closes { (w : List WindowLog) → IsDeviceWithWindows (one_alarm (drifting 2) (setup_of one_packet 2) 2370089470 (member_36 w)) member_late }
    ensures opens { (w : List WindowLog) → IsDeviceWithWindows (one_alarm (drifting 2) (setup_of one_packet 2) 2370089470 (member_late w)) member_37 }
{}

/// The log of both is valid (`Lawful`), and it is safe.
pub fn the_log_of_one_packet_is_lawful_and_safe()
    ensures lawful { Lawful one_packet drifting one_packet_log }
    ensures safe { Safe one_packet drifting one_packet_log }
{}
