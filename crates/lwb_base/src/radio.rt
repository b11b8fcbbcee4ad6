//! The radio and the alarm of a node, as a trait.

ghost use Rattle.std.specs.Prelude.{◌≤◌, ◌∷◌, []};
ghost use Rattle.lwb_base.specs.Orders.{Told, Gives};
ghost use Rattle.lwb_base.specs.declared.order.Order.TheVariants.{Listen, Off, SendAt, Alarm};

use crate::{Packet, Rank};

/// A radio with an alarm, as a node gives orders to it. Local times are ticks of 1/64 µs.
pub trait Radio {
    /// The orders given to it so far, and how many more it takes.
    ghost told: { Self → Told };

    /// Tunes to the channel of this rank.
    fn listen(&mut self, rank: Rank)
        requires { 1 ≤ (told self.old).room }
        ensures { Gives (told self.old) (told self.new) (Listen rank ∷ []) };

    /// Ends the tuning.
    fn off(&mut self)
        requires { 1 ≤ (told self.old).room }
        ensures { Gives (told self.old) (told self.new) (Off ∷ []) };

    /// Begins to send this packet at a local time, in place of a transmission that has not begun.
    fn send_at(&mut self, local: u64, packet: &Packet)
        requires { 1 ≤ (told self.old).room }
        ensures { Gives (told self.old) (told self.new) (SendAt local packet.now ∷ []) };

    /// Sets the one alarm to a local time.
    fn alarm(&mut self, local: u64)
        requires { 1 ≤ (told self.old).room }
        ensures { Gives (told self.old) (told self.new) (Alarm local ∷ []) };
}
