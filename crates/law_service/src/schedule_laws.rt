//! What the schedules of a round reach where nothing is lost, a function that does nothing and has the laws as its contract.

ghost use Rattle.law_service.specs.ScheduleService.{ClosingsAreAccepted, OpeningsAreAccepted};

/// In an opening slot without losses each node that takes part within `FLOOD_STEPS` hops of the host accepts the schedule, in the step
/// before the number of its hops, has the plan of the round, and may request in it (`openings`). In a closing slot without
/// losses each accepts it too, and then holds the next round: in the frame in which the host has it, by the same plan
/// (`closings`).
pub fn schedules_are_accepted_within_reach()
    ensures openings { OpeningsAreAccepted }
    ensures closings { ClosingsAreAccepted }
{}
