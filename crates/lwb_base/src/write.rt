//! Writes a whole text to a sink.

ghost use Rattle.std.specs.Prelude.{◌≡◌, ◌<◌, ◌≤◌, length, take, IfErr, OnOk};
ghost use Rattle.std.specs.Io.KnownBytes.{Appends};
ghost use Rattle.lwb_base.specs.Causes.{HasCause};

use crate::Sink;

/// A write that ended before the end of its text.
#[derive(Clone, Copy, Debug, PartialEq, Eq)]
pub struct WriteFault {
    /// How many bytes of the text went out, fewer than it has.
    pub gone: usize,
}

/// Puts the whole text, piece by piece. A fault comes only where the sink's count of faults rose.
pub fn write_all<K: Sink>(sink: &mut K, text: &[u8]) -> Result<(), WriteFault>
    ensures ok { OnOk result (Appends (K.held sink.old) (K.held sink.new) text.now) }
    ensures gone { IfErr result (λ f. (f.gone < length text.now) × Appends (K.held sink.old) (K.held sink.new) (take f.gone text.now)) }
    ensures cause { HasCause (K.faults sink.old) (K.faults sink.new) result }
{
    let mut gone = 0;
    while gone < text.len() {
        match sink.put(&text[gone..]) {
            Ok(count) => gone += count,
            Err(_) => return Err(WriteFault { gone }),
        }
    }
    Ok(())
}
