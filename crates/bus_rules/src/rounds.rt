//! The numbers of slots of a round.

ghost use Rattle.std.specs.Prelude.{◌≡◌, ◌+◌, ◌≤◌};
ghost use Rattle.lwb_base.specs.declared.limits.TheConstants.{DATA_SLOTS};
ghost use Rattle.bus_rules.specs.Plans.{last_with, slots_named};

/// The contention slots of a round, 1 to 4: the number that its schedule names, or one where it names none, which is 0.
pub fn contention_slots(contend: u8) -> u8
    requires { contend ≤ 4 }
    ensures value { result ≡ slots_named contend }
    ensures range { (1 ≤ result) × (result ≤ 4) }
{
    contend.max(1)
}

/// The slot that closes a round of at most `DATA_SLOTS` owners, 2 to `DATA_SLOTS + 5`. `contend` is the number of contention slots that its
/// schedule names, at most 4, or 0 for none.
pub fn last_slot(owners: u8, contend: u8) -> u8
    requires owners { owners ≤ DATA_SLOTS }
    requires contend { contend ≤ 4 }
    ensures value { result ≡ last_with owners contend }
    ensures range { (2 ≤ result) × (result ≤ DATA_SLOTS + 5) }
{
    owners + contention_slots(contend) + 1
}
