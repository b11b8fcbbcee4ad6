//! The line that says why an input is rejected.

ghost use Rattle.std.specs.Prelude.{◌≡◌, IfOk, string_bytes};
ghost use Rattle.command_line.specs.Streams.{fault_line as fault_line_of};

use std::alloc::{AllocError, Global};
use std::fmt::Write;
use text_readers::FaultKind;
use text_writers::write_words;

/// What is written of an input that is too long.
pub const TOO_LONG: &[u8; 15] = b"fault too long\n";

/// The line that names the first fault of an input.
pub fn fault_line(alloc: Global, line: u32, kind: FaultKind) -> Result<String, AllocError>
    ensures { IfOk result (λ text. string_bytes text ≡ fault_line_of line kind) }
{
    let mut text = String::new(alloc);
    write_words(&mut text, "fault line", &[line])?;
    write!(text, ": {kind}\n")?;
    Ok(text)
}
