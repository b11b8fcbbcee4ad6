//! How many lines a text has.

ghost use Rattle.std.specs.Prelude.{◌≡◌, ◌<◌, ◌≤◌, ◌^◌, length};
ghost use Rattle.std.specs.Str.Lines.{lines};

use text_readers::first_line;

/// The number of lines of a text of fewer than 2^31 bytes. A line feed at its end begins no line.
pub fn line_count(bytes: &[u8]) -> u32
    requires { length bytes.now < 2 ^ 31 }
    ensures count { result ≡ length (lines bytes.now) }
    ensures few { result ≤ length bytes.now }
{
    let mut rest = bytes;
    let mut count = 0;
    while !rest.is_empty() {
        let (_, others) = first_line(rest);
        rest = others;
        count += 1;
    }
    count
}
