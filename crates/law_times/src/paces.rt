//! How the slots of a stream keep pace with its interval.

ghost use Rattle.std.specs.Prelude.{◌≡◌, ◌≤◌};
ghost use Rattle.law_times.specs.Paces.{OwedAlwaysFits, SlotsComeWithin, StreamsKeepPace, latency_bound};
ghost use Rattle.law_times.specs.Queues.{AgreedPacketsComeWithin, PacketsComeWithin};

/// If no stream of a scenario asks for an interval below a frame, all that is owed by the next round of a host fits into it
/// (`fits`), and each stream in its table has been granted just the slots that have come due by that round (`pace`).
pub fn owed_always_fits()
    ensures fits { OwedAlwaysFits }
    ensures pace { StreamsKeepPace }
{}

/// The frames within which one of the first `queue` packets that wait in a stream is delivered, with this interval in seconds and this
/// number of seconds a frame, counted from the frame in which it is put: if nothing is lost, and its node and the host have agreed to the
/// stream (`agreed`); or if nothing is lost and the host keeps the stream in its table (`packets`), as it does for an agreed stream of
/// another node. This number of slots is granted within them, counted from any frame after a round of the host (`slots`). For intervals of at
/// least a frame.
pub fn latency_frames(queue: u8, interval: u8, seconds: u8) -> u32
    requires { (1 ≤ interval) × (1 ≤ seconds) }
    ensures value { result ≡ latency_bound queue interval seconds }
    ensures slots { SlotsComeWithin queue interval seconds result }
    ensures packets { PacketsComeWithin queue interval seconds result }
    ensures agreed { AgreedPacketsComeWithin queue interval seconds result }
{
    (u32::from(queue) * u32::from(interval) + u32::from(seconds) - 1) / u32::from(seconds) + 2
}
