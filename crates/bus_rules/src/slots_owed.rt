//! The number of slots that are owed to a stream.

ghost use Rattle.std.specs.Prelude.{◌≡◌, ◌+◌, ◌<◌, ◌≤◌};
ghost use Rattle.lwb_base.specs.declared.limits.TheConstants.{GREATEST_GAP, LAST_FRAME};
ghost use Rattle.bus_rules.specs.Granting.{owed};

/// The slots owed to a stream in a frame: `floor(seconds * (frame - accepted) / interval) - granted`, or 0 where that is
/// negative. `seconds` are those of a frame, at most 5; the interval is in seconds, at least 1; `accepted` is the frame
/// in which the stream was accepted, and the frame is not below it and at most a greatest gap after the last.
pub fn owed(seconds: u8, frame: u32, accepted: u32, interval: u8, granted: u32) -> u32
    requires seconds { seconds ≤ 5 }
    requires interval { 0 < interval }
    requires accepted { accepted ≤ frame }
    requires frame { frame ≤ LAST_FRAME + GREATEST_GAP }
    ensures { result ≡ owed seconds frame accepted interval granted }
{
    let due = u32::from(seconds) * (frame - accepted) / u32::from(interval);
    due.saturating_sub(granted)
}
