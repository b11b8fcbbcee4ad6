//! What a program reads whole from its source, and writes whole to its sink.

ghost use Rattle.std.specs.Prelude.{◌≡◌, ◌≢◌, ◌⊎◌, ◌≤◌, ◌<◌, IsErrOf, false};
ghost use Rattle.std.specs.Io.KnownBytes.{Appends};
ghost use Rattle.lwb_base.specs.Causes.{Rose};
ghost use Rattle.lwb_base.specs.declared.read.ReadStop.TheVariants as stop;
ghost use Rattle.command_line.specs.Streams.{HasRead, PartWritten};

use lwb_base::{ReadStop, Sink, Source, read_all, write_all};
use std::alloc::Global;

/// The input of a program that reads its source to its end, or nothing where it `reads` none.
pub fn input<S: Source>(alloc: Global, reads: bool, source: &mut S) -> Result<Vec<u8>, ReadStop>
    ensures bytes { HasRead reads (S.left source.old) (S.left source.new) result }
    ensures fault { IsErrOf result stop.ReadFault → Rose (S.faults source.old) (S.faults source.new) }
    ensures later { S.faults source.old ≤ S.faults source.new }
    ensures untouched { reads ≡ false → source.new ≡ source.old }
{
    if !reads {
        return Ok(Vec::new(alloc));
    }
    read_all(alloc, source)
}

/// Writes a text whole, and gives that status, or a part of it, and gives 4.
pub fn say<K: Sink>(sink: &mut K, text: &[u8], status: u8) -> u8
    requires { status < 3 }
    ensures known { (result ≡ status) ⊎ (result ≡ 4) }
    ensures whole { result ≡ status → Appends (K.held sink.old) (K.held sink.new) text.now }
    ensures part { result ≢ status → PartWritten (K.held sink.old) (K.held sink.new) (λ t. t ≡ text.now) × Rose (K.faults sink.old) (K.faults sink.new) }
    ensures later { K.faults sink.old ≤ K.faults sink.new }
{
    match write_all(sink, text) {
        Ok(()) => status,
        Err(_) => 4,
    }
}
