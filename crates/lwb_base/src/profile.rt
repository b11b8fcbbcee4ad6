//! The times and lengths by which a network runs.

ghost use Rattle.std.specs.Prelude.{◌≡◌, ◌≤◌};

use std::marker::Model;

/// The numbers that a network goes by. Times are ticks of 1/64 µs, lengths are bytes.
///
/// It is made by its constructors alone, so its numbers are those of one of them.
#[derive(Clone, Copy, Debug, PartialEq, Eq)]
pub struct Profile {
    byte: u64,
    turn: u64,
    delta: u64,
    listen: u64,
    slot: u64,
    close: u64,
    lead: u64,
    end: u64,
    frame: u64,
    seconds: u8,
    packet_max: u8,
    payload_max: u8,
    contend: u8,
}

impl Model for Profile {
    ghost use Rattle.lwb_base.specs.Profile.{Numbers, IsProfile};

    ghost Value = { Numbers };

    ghost view = { λ p. record {
      byte = p.byte;
      turn = p.turn;
      delta = p.delta;
      listen = p.listen;
      slot = p.slot;
      close = p.close;
      lead = p.lead;
      end = p.end;
      frame = p.frame;
      seconds = p.seconds;
      packet_max = p.packet_max;
      payload_max = p.payload_max;
      contend = p.contend;
    } };

    ghost invariant = { λ p. IsProfile (record {
      byte = p.byte;
      turn = p.turn;
      delta = p.delta;
      listen = p.listen;
      slot = p.slot;
      close = p.close;
      lead = p.lead;
      end = p.end;
      frame = p.frame;
      seconds = p.seconds;
      packet_max = p.packet_max;
      payload_max = p.payload_max;
      contend = p.contend;
    }) };

    ghost inverse = { λ n. record {
      byte = n.byte;
      turn = n.turn;
      delta = n.delta;
      listen = n.listen;
      slot = n.slot;
      close = n.close;
      lead = n.lead;
      end = n.end;
      frame = n.frame;
      seconds = n.seconds;
      packet_max = n.packet_max;
      payload_max = n.payload_max;
      contend = n.contend;
    } };
}

impl Profile {
    ghost use Rattle.lwb_base.specs.Profile.{IsProfile, one as profile_one, contended as profile_two, airtime as airtime_of, step as step_of};
    ghost use Rattle.lwb_base.specs.Profile.{is_one as is_profile_one};

    /// Frames of 4 seconds, payloads of at most 32 bytes, one contention slot a round.
    pub fn one() -> Profile
        ensures { result ≡ profile_one }
    {
        Profile {
            byte: 2_048,
            turn: 12_288,
            delta: 32,
            listen: 64_000,
            slot: 2_112_000,
            close: 2_096_000,
            lead: 64_000_000,
            end: 204_800_000,
            frame: 256_000_000,
            seconds: 4,
            packet_max: 64,
            payload_max: 32,
            contend: 0,
        }
    }

    /// Frames of 5 seconds, payloads of at most 96 bytes, one contention slot a round.
    pub fn two() -> Profile
        ensures { result ≡ profile_two 0 }
    {
        Profile::with_contention(0)
    }

    /// As `two`, but with 1 to 4 contention slots a round, which schedules name.
    pub fn contended(contend: u8) -> Profile
        requires { (1 ≤ contend) × (contend ≤ 4) }
        ensures { result ≡ profile_two contend }
    {
        Profile::with_contention(contend)
    }

    fn with_contention(contend: u8) -> Profile
        requires { contend ≤ 4 }
        ensures { result ≡ profile_two contend }
    {
        Profile {
            byte: 2_048,
            turn: 12_288,
            delta: 32,
            listen: 64_000,
            slot: 3_584_000,
            close: 3_568_000,
            lead: 64_000_000,
            end: 288_000_000,
            frame: 320_000_000,
            seconds: 5,
            packet_max: 125,
            payload_max: 96,
            contend,
        }
    }

    /// Whether it is that of `one`: a frame of it counts 4 seconds, and one of the second profile 5.
    pub fn is_one(&self) -> bool
        ensures { result ≡ is_profile_one self.now }
    {
        self.seconds == 4
    }

    /// One byte on the air.
    pub fn byte(&self) -> u64
        ensures value { result ≡ self.now.byte }
        ensures made { IsProfile self.now }
    {
        self.byte
    }

    /// From the end of a reception to the start of its relay.
    pub fn turn(&self) -> u64
        ensures value { result ≡ self.now.turn }
        ensures made { IsProfile self.now }
    {
        self.turn
    }

    /// The greatest displacement at which equal transmissions are received as one.
    pub fn delta(&self) -> u64
        ensures value { result ≡ self.now.delta }
        ensures made { IsProfile self.now }
    {
        self.delta
    }

    /// From the opening of a window to the initiator's start.
    pub fn listen(&self) -> u64
        ensures value { result ≡ self.now.listen }
        ensures made { IsProfile self.now }
    {
        self.listen
    }

    /// One slot of a round.
    pub fn slot(&self) -> u64
        ensures value { result ≡ self.now.slot }
        ensures made { IsProfile self.now }
    {
        self.slot
    }

    /// From the opening of a window until it closes.
    pub fn close(&self) -> u64
        ensures value { result ≡ self.now.close }
        ensures made { IsProfile self.now }
    {
        self.close
    }

    /// From the start of a frame to the start of slot 0.
    pub fn lead(&self) -> u64
        ensures value { result ≡ self.now.lead }
        ensures made { IsProfile self.now }
    {
        self.lead
    }

    /// From the start of a frame to the frame alarm.
    pub fn end(&self) -> u64
        ensures value { result ≡ self.now.end }
        ensures made { IsProfile self.now }
    {
        self.end
    }

    /// One frame.
    pub fn frame(&self) -> u64
        ensures value { result ≡ self.now.frame }
        ensures made { IsProfile self.now }
    {
        self.frame
    }

    /// The seconds that a frame counts in the arithmetic of intervals.
    pub fn seconds(&self) -> u8
        ensures value { result ≡ self.now.seconds }
        ensures made { IsProfile self.now }
    {
        self.seconds
    }

    /// The longest packet, in bytes.
    pub fn packet_max(&self) -> u8
        ensures value { result ≡ self.now.packet_max }
        ensures made { IsProfile self.now }
    {
        self.packet_max
    }

    /// The longest payload, in bytes.
    pub fn payload_max(&self) -> u8
        ensures value { result ≡ self.now.payload_max }
        ensures made { IsProfile self.now }
    {
        self.payload_max
    }

    /// The number of contention slots that schedules name, 1 to 4; 0 where they name none and a round has one.
    pub fn contend(&self) -> u8
        ensures value { result ≡ self.now.contend }
        ensures made { IsProfile self.now }
    {
        self.contend
    }

    /// How long a packet of n bytes is on the air: 8 bytes come before it.
    pub fn airtime(&self, n: u8) -> u64
        ensures value { result ≡ airtime_of self.now n }
        ensures made { IsProfile self.now }
    {
        (u64::from(n) + 8) * self.byte
    }

    /// From the start of a step of a flood to the start of the next, for a packet of n bytes.
    pub fn step(&self, n: u8) -> u64
        ensures value { result ≡ step_of self.now n }
        ensures made { IsProfile self.now }
    {
        self.airtime(n) + self.turn
    }
}
