//! What is so of all that is said, as contracts of functions that do nothing.

ghost use Rattle.std.specs.Prelude.{◌≡◌, ℕ, length, Some};
ghost use Rattle.bus_rules.specs.Slots.{Message, message_length};
ghost use Rattle.lwb_member.specs.Said.{bytes_of, message_of, MaySay};

/// The number of bytes of a packet does not depend on its slot.
pub fn lengths_of_what_is_said()
    ensures { (m : Message) (j : ℕ) → length (bytes_of m j) ≡ message_length m }
{}

/// A packet says what its initiator said, and so no two messages in range have the same bytes.
pub fn packets_say_what_was_said()
    ensures { (m : Message) (j : ℕ) → MaySay j m → message_of (bytes_of m j) ≡ Some m }
{}
