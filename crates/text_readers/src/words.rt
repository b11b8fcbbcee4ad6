//! The lines of a text, and the words of a line.

ghost use Rattle.std.specs.Prelude.{◌≡◌, ◌<◌, ◌==◌, ℕ, [], ◌∷◌, ◌++◌, IfOk, OnOk, filter, position, length, map, nat_le, nat_lt};
ghost use Rattle.std.specs.Str.{bytes_eq, is_utf8 as is_utf8_of};
ghost use Rattle.std.specs.Str.Lines.{lines, strip_carriage_return};
ghost use Rattle.text_readers.specs.LineEnds.{IsLineAndRest};
ghost use Rattle.text_readers.specs.Words.{is_blank as is_blank_of, words as words_of, word as word_of, is_skipped as is_skipped_of};

use lwb_base::Memory;
use memchr::memchr;
use std::alloc::Global;

/// The first line, without what ends it, and what follows.
pub fn first_line(bytes: &[u8]) -> (&[u8], &[u8])
    requires { 0 < length bytes.now }
    ensures cut { lines bytes.now ≡ result.0.now ∷ lines result.1.now }
    ensures front { IsLineAndRest bytes.now result.0.now result.1.now }
    ensures shorter { length result.1.now < length bytes.now }
{
    match line_feed(bytes) {
        Some(end) => (without_return(&bytes[..end]), &bytes[end + 1..]),
        None => (bytes, &[]),
    }
}

fn line_feed(bytes: &[u8]) -> Option<usize>
    ensures { result ≡ position (λ b. b == 10) bytes.now }
{
    memchr(b'\n', bytes)
}

// Without the one carriage return at its end.
fn without_return(line: &[u8]) -> &[u8]
    ensures { result.now ≡ strip_carriage_return line.now }
{
    match line {
        [front @ .., b'\r'] => front,
        _ => line,
    }
}

/// The words of a line, which blanks part.
pub fn split_words(alloc: Global, line: &[u8]) -> Result<Vec<&[u8]>, Memory>
    ensures { IfOk result (λ v. map (λ w. w.now) v.items ≡ words_of line.now) }
{
    let mut words = Vec::new(alloc);
    split_into(&mut words, line)?;
    Ok(words)
}

/// Puts the words of a line in the place of those that were there: one list does for all lines of a text.
pub fn split_into<'a>(words: &mut Vec<&'a [u8]>, line: &'a [u8]) -> Result<(), Memory>
    ensures { OnOk result (map (λ w. w.now) words.new.items ≡ words_of line.now) }
{
    words.clear();
    let mut rest = line;
    while let Some(end) = blank(rest) {
        push_word(words, &rest[..end])?;
        rest = &rest[end + 1..];
    }
    push_word(words, rest)
}

fn blank(bytes: &[u8]) -> Option<usize>
    ensures { result ≡ position is_blank_of bytes.now }
{
    let mut seen = 0;
    while let Some(step) = low_byte(&bytes[seen..]) {
        let end = seen + step;
        if is_blank(bytes[end]) {
            return Some(end);
        }
        seen = end + 1;
    }
    None
}

// Most bytes of a text are above both blanks, so one comparison passes over them.
fn low_byte(bytes: &[u8]) -> Option<usize>
    ensures { result ≡ position (λ b. nat_le b 32) bytes.now }
{
    bytes.iter().position(|b| *b <= b' ')
}

fn is_blank(byte: u8) -> bool
    ensures { result ≡ is_blank_of byte }
{
    byte == b' ' || byte == b'\t'
}

// What is between two blanks is a word, unless it is empty.
fn push_word<'a>(words: &mut Vec<&'a [u8]>, word: &'a [u8]) -> Result<(), Memory>
    ensures { OnOk result (map (λ w. w.now) words.new.items ≡ map (λ w. w.now) words.old.items ++ filter (λ w. nat_lt 0 (length w)) (word.now ∷ [])) }
{
    if !word.is_empty() {
        words.push(word)?;
    }
    Ok(())
}

/// Word i, where the first is word 0, or nothing.
pub fn word<'a>(words: &[&'a [u8]], i: usize) -> &'a [u8]
    ensures { result.now ≡ word_of (map (λ w. w.now) words.now) i }
{
    match words.get(i) {
        Some(word) => word,
        None => &[],
    }
}

/// Whether there are no words, or the first begins with `#`.
pub fn is_skipped(words: &[&[u8]]) -> bool
    ensures { result ≡ is_skipped_of (map (λ w. w.now) words.now) }
{
    words.is_empty() || word(words, 0).first() == Some(&b'#')
}

/// Whether the line is UTF-8.
pub fn is_text(line: &[u8]) -> bool
    ensures { result ≡ is_utf8_of line.now }
{
    str::from_utf8(line).is_ok()
}

/// Whether the word has these letters.
pub fn is(word: &[u8], letters: &[u8]) -> bool
    ensures { result ≡ bytes_eq word.now letters.now }
{
    word == letters
}
