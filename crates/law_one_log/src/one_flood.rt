//! The log of one flood.

ghost use Rattle.law_one_log.specs.OneLog.{OneFloodLogLaw};

use lwb_flood::flood_log_laws::flood_logs_are_floods_by_steps;

/// Two logs of one flood over the same clocks that keep its law have the same entries, each as often.
pub fn a_flood_has_one_log()
    ensures { OneFloodLogLaw }
{
    flood_logs_are_floods_by_steps();
}
