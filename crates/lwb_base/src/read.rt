//! Reads a source to its end.

ghost use Rattle.std.specs.Prelude.{◌≡◌, ℕ, ◌≤◌, length, IsErrOf};
ghost use Rattle.lwb_base.specs.Causes.{Rose};
ghost use Rattle.lwb_base.specs.Reading.{ReadsAll, ReadsPiece};

use crate::Source;
use std::alloc::{AllocError, Global};

/// The most bytes that are read: an input of one byte more is too long.
pub const INPUT_LIMIT: usize = 4_194_304;

const PIECE: usize = 4096;

/// Why a read ended before the end of its source.
#[derive(Clone, Copy, Debug, PartialEq, Eq)]
pub enum ReadStop {
    /// The source failed, and its count of faults rose.
    ReadFault,
    /// One byte more than the limit was taken, and no more.
    TooLong,
    /// Out of memory.
    Memory,
}

/// All bytes up to the end of the source.
pub fn read_all<S: Source>(alloc: Global, source: &mut S) -> Result<Vec<u8>, ReadStop>
    ensures bytes { ReadsAll (S.left source.old) (S.left source.new) result }
    ensures fault { IsErrOf result ReadStop.ReadFault → Rose (S.faults source.old) (S.faults source.new) }
    ensures later { S.faults source.old ≤ S.faults source.new }
{
    let mut bytes = Vec::new(alloc);
    while read_piece(source, &mut bytes)? {}
    Ok(bytes)
}

// Takes one piece more, and says whether there was one. No memory is asked for where the input is too long.
fn read_piece<S: Source>(source: &mut S, bytes: &mut Vec<u8>) -> Result<bool, ReadStop>
    requires { length bytes.old.items ≤ INPUT_LIMIT }
    ensures bytes { ReadsPiece (S.left source.old) (S.left source.new) bytes.old.items bytes.new.items result }
    ensures fault { IsErrOf result ReadStop.ReadFault → Rose (S.faults source.old) (S.faults source.new) }
    ensures later { S.faults source.old ≤ S.faults source.new }
{
    let mut room = [0u8; PIECE];
    let most = PIECE.min(INPUT_LIMIT + 1 - bytes.len());
    let count = match source.take(&mut room[..most]) {
        Ok(count) => count,
        Err(_) => return Err(ReadStop::ReadFault),
    };
    if bytes.len() + count > INPUT_LIMIT {
        return Err(ReadStop::TooLong);
    }
    match bytes.extend_from_slice(&room[..count]) {
        Ok(()) => Ok(count > 0),
        Err(AllocError) => Err(ReadStop::Memory),
    }
}
