//! Numbers as words of a text.

ghost use Rattle.std.specs.Prelude.{◌≡◌, ◌≤◌, ℕ, Ok, Err, Some, None, if◌then◌else◌, length, map, drop};
ghost use Rattle.std.specs.Char.{is_ascii_digit};
ghost use Rattle.std.specs.List.{list_all};
ghost use Rattle.std.specs.Str.Parse.{digits_value};
ghost use Rattle.text_readers.specs.Faults.{spelled};
ghost use Rattle.text_readers.specs.Words.{number_at, line_of_words, is_number as is_number_of, number as number_of};
ghost use Rattle.text_readers.specs.Words.{has_minus as has_minus_of, magnitude as magnitude_of, is_signed as is_signed_of};
ghost use Rattle.text_readers.specs.declared.fault.FaultKind.TheVariants.{BadNumber};

use crate::FaultKind;

// The value of the digits. None where another character is among them.
fn value(digits: &[u8]) -> Option<u64>
    requires few { length digits.now ≤ 13 }
    ensures { result ≡ (if list_all is_ascii_digit digits.now then Some (digits_value 10 digits.now) else None) }
{
    let mut value = 0u64;
    for b in digits {
        if !b.is_ascii_digit() {
            return None;
        }
        value = 10 * value + u64::from(*b - b'0');
    }
    Some(value)
}

/// The number that the word is: one digit, or up to 13 digits of which the first is not 0. Else `BadNumber`.
pub fn number(word: &[u8]) -> Result<u64, FaultKind>
    ensures { result ≡ (if is_number_of word.now then Ok (number_of word.now) else Err BadNumber) }
{
    let is_short = !word.is_empty() && word.len() <= 13;
    if !is_short || (word.len() != 1 && word[0] == b'0') {
        return Err(FaultKind::BadNumber);
    }
    value(word).ok_or(FaultKind::BadNumber)
}

fn has_minus(word: &[u8]) -> bool
    ensures { result ≡ has_minus_of word.now }
{
    word.first() == Some(&b'-')
}

// The word without the `-` before it.
fn magnitude(word: &[u8]) -> &[u8]
    ensures { result.now ≡ magnitude_of word.now }
{
    if has_minus(word) { &word[1..] } else { word }
}

/// Whether the word has a `-`, and the number after that, which is not 0 then. `BadNumber` where it is no such word.
pub fn signed_number(word: &[u8]) -> Result<(bool, u64), FaultKind>
    ensures { result ≡ (if is_signed_of word.now then Ok (has_minus_of word.now, number_of (magnitude_of word.now)) else Err BadNumber) }
{
    let minus = has_minus(word);
    let size = number(magnitude(word))?;
    if minus && size == 0 {
        return Err(FaultKind::BadNumber);
    }
    Ok((minus, size))
}

/// The number after the first word. `BadWord` unless it is the only word there, and else `BadNumber` where it is misspelled.
pub fn one_number(words: &[&[u8]]) -> Result<u64, FaultKind>
    ensures { let ws = map (λ w. w.now) words.now in
        result ≡ spelled (line_of_words 2 ws (number_at ws 1)) (λ _. list_all is_number_of (drop 1 ws)) }
{
    let [_, a] = words else {
        return Err(FaultKind::BadWord);
    };
    number(a)
}

/// The two numbers after the first word, with the faults of `one_number`.
pub fn two_numbers(words: &[&[u8]]) -> Result<(u64, u64), FaultKind>
    ensures { let ws = map (λ w. w.now) words.now in
        result ≡ spelled (line_of_words 3 ws (number_at ws 1, number_at ws 2)) (λ _. list_all is_number_of (drop 1 ws)) }
{
    let [_, a, b] = words else {
        return Err(FaultKind::BadWord);
    };
    Ok((number(a)?, number(b)?))
}

/// The three numbers after the first word, with the faults of `one_number`.
pub fn three_numbers(words: &[&[u8]]) -> Result<(u64, u64, u64), FaultKind>
    ensures { let ws = map (λ w. w.now) words.now in
        result ≡ spelled (line_of_words 4 ws (number_at ws 1, number_at ws 2, number_at ws 3)) (λ _. list_all is_number_of (drop 1 ws)) }
{
    let [_, a, b, c] = words else {
        return Err(FaultKind::BadWord);
    };
    Ok((number(a)?, number(b)?, number(c)?))
}

/// The four numbers after the first word, with the faults of `one_number`.
pub fn four_numbers(words: &[&[u8]]) -> Result<(u64, u64, u64, u64), FaultKind>
    ensures { let ws = map (λ w. w.now) words.now in
        result ≡ spelled (line_of_words 5 ws (number_at ws 1, number_at ws 2, number_at ws 3, number_at ws 4)) (λ _. list_all is_number_of (drop 1 ws)) }
{
    let [_, a, b, c, d] = words else {
        return Err(FaultKind::BadWord);
    };
    Ok((number(a)?, number(b)?, number(c)?, number(d)?))
}

/// The five numbers after the first word, with the faults of `one_number`.
pub fn five_numbers(words: &[&[u8]]) -> Result<(u64, u64, u64, u64, u64), FaultKind>
    ensures { let ws = map (λ w. w.now) words.now in
        result ≡ spelled (line_of_words 6 ws (number_at ws 1, number_at ws 2, number_at ws 3, number_at ws 4, number_at ws 5))
        (λ _. list_all is_number_of (drop 1 ws)) }
{
    let [_, a, b, c, d, e] = words else {
        return Err(FaultKind::BadWord);
    };
    Ok((number(a)?, number(b)?, number(c)?, number(d)?, number(e)?))
}
