//! The words of the command line, from what the process was given.

ghost use Rattle.std.specs.Prelude.{◌≡◌, drop};
ghost use Rattle.command_line.specs.ProcessWords.{IsWords};

use std::alloc::Global;
use std::env::Args;
use std::io;
use std::io::ErrorKind;

/// The statuses of a process that cannot get its words.
const OUT_OF_MEMORY: u8 = 5;

const NO_WORDS: u8 = 6;

/// The words after the program's name, from what the call for the process's words answered, or a status: 5 for out of memory,
/// and 6 where that call answered anything else, as it does for a word that is no UTF-8.
pub fn words_of(alloc: Global, answer: io::Result<Args>) -> Result<Vec<String>, u8>
    ensures { IsWords answer result }
{
    let args = match answer {
        Ok(args) => args,
        Err(error) if error.kind() == ErrorKind::OutOfMemory => return Err(OUT_OF_MEMORY),
        Err(_) => return Err(NO_WORDS),
    };
    match args.collect(alloc) {
        Ok(words) => Ok(without_name(words)),
        Err(_) => Err(OUT_OF_MEMORY),
    }
}

fn without_name(mut words: Vec<String>) -> Vec<String>
    ensures { result.items ≡ drop 1 words.items }
{
    if !words.is_empty() {
        words.remove(0);
    }
    words
}
