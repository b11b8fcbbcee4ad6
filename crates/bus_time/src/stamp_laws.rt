//! Laws of the data that nodes send and of its stamps, each as the contract of a function that does nothing.

ghost use Rattle.bus_time.specs.StampErrors.{StampsErrLittle, StampsStayClose};
ghost use Rattle.bus_time.specs.StampLaws.{DataHostsLaw, OneListLaw};

/// Who begins the flood of a data packet along a valid (`Lawful`) log hosts, by its trail, if and only if the scenario names it as
/// the host of the packet's channel.
pub fn data_of_a_named_host_is_sent_as_a_host()
    ensures { DataHostsLaw }
{}

/// The tick that a node gives to a packet by a schedule differs from what the clock of the channel's host reads then by at most
/// 51, or by 58 if the schedule names its contention slots, and by 40 millionths of the ticks since that schedule was begun.
pub fn stamps_err_little()
    ensures { StampsErrLittle }
{}

/// It differs by less than 44,960 ticks (0.7 ms) in profile 1, and by less than 58,300 (0.92 ms) in profile 2.
pub fn stamps_stay_close()
    ensures { StampsStayClose }
{}

/// Two valid (`Lawful`) logs of one scenario over the same clocks that have the same entries, each as often, have one list of
/// stamps, in whatever order their entries are kept.
pub fn logs_have_one_list_of_stamps()
    ensures { OneListLaw }
{}
