//! The schedules and plans of a host over its life, the laws as the contract of a function that does nothing.

ghost use Rattle.law_trails.specs.Lives.{HostsAreQuiet, OnePlan, QuietPeriod};

/// Whatever comes in the life of a host, powered on and off at any frames: each closing schedule is over before its next one
/// and before its next opening schedule, and says what the opening schedule of its due frame says (`quiet`); for one frame it
/// has one plan (`one`). After it went off in frame b no closing schedule that it made before is due later than frame b + 3,
/// and until it opens or closes again it hosts no round before frame b + 5 (`silent`).
pub fn hosts_plan_apart()
    ensures quiet { HostsAreQuiet }
    ensures one { OnePlan }
    ensures silent { QuietPeriod }
{}
