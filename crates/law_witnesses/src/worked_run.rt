//! A worked run that meets the premises of all laws of valid (`Lawful`) runs.

ghost use Rattle.scenario_text.specs.ScenarioGrammar.{IsScenario};
ghost use Rattle.law_terms.specs.LawfulRuns.{IsLawfulRun};
ghost use Rattle.law_trails.specs.OnePacket.{drifting, one_packet, one_packet_log};

use law_trails::{the_log_of_one_packet_is_lawful_and_safe, zeros_of_one_packet};
use scenario_text::laws::scenarios_are_sound;

/// Two nodes whose clocks gain and lose 20 parts per million, and a packet that arrives though something is lost: a text says the
/// scenario (`said`); it is sound, its clocks keep the drift law, and its log is valid (`run`). A law: the function does nothing.
pub fn a_valid_run_is_there()
    ensures said { IsScenario one_packet }
    ensures run { IsLawfulRun one_packet drifting one_packet_log }
{
    scenarios_are_sound();
    zeros_of_one_packet();
    the_log_of_one_packet_is_lawful_and_safe();
}
