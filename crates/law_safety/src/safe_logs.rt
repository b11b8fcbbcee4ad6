//! From the invariant of a run to safe logs, each law a function that does nothing and has the law as its contract.

ghost use Rattle.law_safety.specs.Invariant.{HoldsThroughout, HeedfulLogsAreSafe, LawfulLogsAreSafe};
ghost use Rattle.law_safety.specs.Endings.{LogsInOrderAreSafe};

/// If the invariant holds at the end of a run, its log is safe. Each transmission lies in one frame, and overlaps none of
/// another frame, slot or step of its channel. Two of one slot differ in the counter alone, unless both are requests. At most
/// one node begins the flood of a slot, requests aside. A node begins one only if it has received a schedule that allows it, or
/// hosts and sends no request. So in a data slot at most one node initiates.
pub fn logs_in_order_are_safe()
    ensures { LogsInOrderAreSafe }
{}

/// So if the invariant holds throughout every run, every protocol-obedient log and every valid (`Lawful`) log is safe.
pub fn the_invariant_makes_logs_safe()
    ensures heedful { HoldsThroughout → HeedfulLogsAreSafe }
    ensures lawful { HoldsThroughout → LawfulLogsAreSafe }
{}

/// It does hold. So for every sound scenario and all clocks of the drift law, every log is safe whose nodes do what they
/// received calls for, and received only what was in their reach (`heedful`). So is every valid log (`lawful`).
pub fn every_lawful_log_is_safe()
    ensures heedful { HeedfulLogsAreSafe }
    ensures lawful { LawfulLogsAreSafe }
{}
