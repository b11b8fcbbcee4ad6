//! What a data slot without losses delivers, a function that does nothing and has the law as its contract.

ghost use Rattle.law_service.specs.DataService.{DataIsDelivered};

/// In a data slot without losses whose owner's node is a member with a packet waiting, each other member within `FLOOD_STEPS` hops
/// delivers the packet that waits longest, in the step before the number of its hops.
pub fn data_is_delivered_within_reach()
    ensures { DataIsDelivered }
{}
