//! The greatest slot of a round.

ghost use Rattle.std.specs.Prelude.{◌≡◌, ◌+◌, ◌≤◌};
ghost use Rattle.lwb_base.specs.declared.limits.TheConstants.{DATA_SLOTS};
ghost use Rattle.lwb_base.specs.Messages.{greatest_slot};

use crate::DATA_SLOTS;

/// The last slot of the longest round, by the number of contention slots that its schedule names, which is 0 where it names none.
/// Such a round has its opening schedule, `DATA_SLOTS`, then one contention slot or 4, and its closing schedule.
pub fn greatest_slot(contend: u8) -> u8
    ensures value { result ≡ greatest_slot contend }
    ensures small { result ≤ DATA_SLOTS + 5 }
{
    if contend == 0 {
        DATA_SLOTS + 2
    } else {
        DATA_SLOTS + 5
    }
}
