//! Which slots lose nothing, a function that does nothing and has the law as its contract.

ghost use Rattle.law_service.specs.Reach.{SlotsWithoutLinesLoseNothing};

/// A slot of which the scenario has no `lose` line, in a frame of which it has no `cut` line, is one without losses, whoever
/// takes part in it.
pub fn slots_without_lines_lose_nothing()
    ensures { SlotsWithoutLinesLoseNothing }
{}
