//! What becomes of a request that meets no other where nothing is lost, a function that does nothing and has the laws as its
//! contract.

ghost use Rattle.law_service.specs.RequestService.{LoneRequestsAreAcknowledged, LoneRequestsAreKept};

/// In a contention slot without losses in which one node alone requests, within `FLOOD_STEPS` hops of the host, the host keeps the request
/// (`kept`), and the plan that it makes at the closing slot of this round acknowledges it, unless its table is full by then
/// (`acknowledged`).
pub fn a_lone_request_is_acknowledged()
    ensures kept { LoneRequestsAreKept }
    ensures acknowledged { LoneRequestsAreAcknowledged }
{}
