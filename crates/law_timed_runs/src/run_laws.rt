//! What carries the laws on times over to every valid run, as the contract of a function.

ghost use Rattle.law_timed_runs.specs.TunedRuns.{PacketsGoAsTheBus, RunsGoAsTheBus, StatesAreTheBus};

/// In every valid (`Lawful`) run, over all clocks of the drift law, a node has a tune and a plan after the script lines of a frame
/// if and only if it has them on the bus (`tunes`), and its queues and its table are the bus's (`states`). A packet is delivered in
/// a round if and only if it is on the bus (`packets`). So what is said of first rounds, members, hosts and packets on the bus is said
/// of each run.
pub fn runs_go_as_the_bus()
    ensures tunes { RunsGoAsTheBus }
    ensures states { StatesAreTheBus }
    ensures packets { PacketsGoAsTheBus }
{
    law_bus::frames_begin_as_on_the_bus();
    law_bus::deliveries_and_drops_are_of_the_bus();
}
