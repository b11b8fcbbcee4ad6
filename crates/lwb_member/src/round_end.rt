//! The last slot of a round, by its schedule.

ghost use Rattle.std.specs.Prelude.{◌≡◌, ◌+◌, ◌≤◌, length};
ghost use Rattle.lwb_base.specs.declared.limits.TheConstants.{DATA_SLOTS};
ghost use Rattle.bus_rules.specs.Plans.{last_slot as last_slot_of};

use schedule_codec::Schedule;

/// The slot that closes the round of this schedule, 2 to `DATA_SLOTS + 5`. The schedule names at most 4 contention slots.
pub fn last_slot(schedule: &Schedule) -> u8
    requires { schedule.now.plan.contend ≤ 4 }
    ensures value { result ≡ last_slot_of schedule.now.plan }
    ensures range { (2 ≤ result) × (result ≤ DATA_SLOTS + 5) }
    ensures owners { length schedule.now.plan.owners ≤ DATA_SLOTS }
{
    bus_rules::last_slot(schedule.owners.count(), schedule.contend)
}
