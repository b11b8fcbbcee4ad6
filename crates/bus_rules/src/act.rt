//! What a script has a node do.

ghost use Rattle.std.specs.Prelude.{◌≡◌, ◌<◌, ◌≤◌, All, length};
ghost use Rattle.bus_rules.specs.States.{payload_of, put_stream, switch_of, wish_after};

use lwb_base::Payload;

/// What a node has to do.
#[derive(Drop)]
pub enum Act {
    /// It boots, unless it is on already. A node boots at most `MOST_BOOTS` times.
    On,
    /// It is powered off.
    Off,
    /// From now on the stream, 0 to 3, has an interval of this number of seconds, 1 to 120.
    Declare(u8, u8),
    /// The stream, 0 to 3, ends.
    Leave(u8),
    /// The stream, 0 to 3, gets a packet more to send. Its payload has at most 32 bytes in profile 1, and 96 in
    /// profile 2.
    Put(u8, Payload),
}

/// What an act does to the power of a node.
#[derive(Clone, Copy, Debug, PartialEq, Eq)]
pub enum Switch {
    /// It comes on.
    On,
    /// It goes off.
    Off,
}

impl Act {
    /// What it does to the power of its node. Returns `None` if and only if it is for a stream.
    pub fn switch(&self) -> Option<Switch>
        ensures { result ≡ switch_of self.now }
    {
        match self {
            Act::On => Some(Switch::On),
            Act::Off => Some(Switch::Off),
            Act::Declare(..) | Act::Leave(_) | Act::Put(..) => None,
        }
    }

    /// The stream that gets a packet, 0 to 3. Returns `None` if and only if the act puts none.
    pub fn put_stream(&self) -> Option<u8>
        ensures { result ≡ put_stream self.now }
    {
        match self {
            Act::Put(stream, _) => Some(*stream),
            Act::On | Act::Off | Act::Declare(..) | Act::Leave(_) => None,
        }
    }

    /// The interval in seconds that a stream of a node that is on requests after the act, 0 for none, where it requested this
    /// one before.
    pub fn wish_after(&self, stream: u8, before: u8) -> u8
        ensures { result ≡ wish_after stream self.now before }
    {
        match self {
            Act::Declare(declared, interval) if *declared == stream => *interval,
            Act::Leave(left) if *left == stream => 0,
            _ => before,
        }
    }

    /// The same act again.
    pub fn copy(&self) -> Act
        ensures same { result ≡ self.now }
        ensures bytes { All (λ b. b < 256) (payload_of self.now) }
    {
        match self {
            Act::On => Act::On,
            Act::Off => Act::Off,
            Act::Declare(stream, interval) => Act::Declare(*stream, *interval),
            Act::Leave(stream) => Act::Leave(*stream),
            Act::Put(stream, payload) => Act::Put(*stream, copy_of(payload.bytes())),
        }
    }
}

// The clause on bytes is of the slice: a payload by itself does not say it.
fn copy_of(bytes: &[u8]) -> Payload
    requires { length bytes.now ≤ 96 }
    ensures same { result ≡ bytes.now }
    ensures bytes { All (λ b. b < 256) bytes.now }
{
    Payload::new(bytes).unwrap()
}
