//! Lines, words and numbers of a script, without their meaning.

ghost use Rattle.std.specs.Prelude.{◌≡◌, ◌<◌, ◌≤◌, ◌+◌, ◌-◌, ◌*◌, ◌&&◌, Some, None, ◌∷◌, map, length, position, ◌==◌, nat_le, IfOk, IfSome, if◌then◌else◌};
ghost use Rattle.std.specs.Option.{option_map};
ghost use Rattle.byte_files.specs.Text.{lines_of, is_ascii, words_of, cut_at, is_digit, number_to};

use std::alloc::{AllocError, Global};

/// Index of the first byte `separator` of a word, if any.
fn place_of(word: &[u8], separator: u8) -> Option<usize>
    ensures place { result ≡ position (λ b. b == separator) word.now }
    ensures within { IfSome result (λ i. i < length word.now) }
{
    word.iter().position(|b| *b == separator)
}

/// The parts of a word before and after the first byte `separator`, if any.
pub fn split_once(word: &[u8], separator: u8) -> Option<(&[u8], &[u8])>
    ensures { option_map (λ p. (p.0.now, p.1.now)) result ≡ cut_at separator word.now }
{
    match place_of(word, separator) {
        Some(at) => Some((&word[..at], &word[at + 1..])),
        None => None,
    }
}

/// The first line of a text, which must have one, without its line feed, and the text after it.
pub fn first_line(text: &[u8]) -> (&[u8], &[u8])
    requires { 0 < length text.now }
    ensures lines { lines_of text.now ≡ result.0.now ∷ lines_of result.1.now }
    ensures shorter { length result.1.now < length text.now }
{
    match split_once(text, b'\n') {
        Some((line, rest)) => (line, rest),
        None => (text, &[]),
    }
}

/// Whether all bytes of a line are ASCII.
pub fn is_ascii(line: &[u8]) -> bool
    ensures { result ≡ is_ascii line.now }
{
    line.iter().all(|b| *b < 128)
}

/// The words of a line, which single spaces separate.
pub fn words(alloc: Global, line: &[u8]) -> Result<Vec<&[u8]>, AllocError>
    ensures { IfOk result (λ words. map (λ w. w.now) words.items ≡ words_of line.now) }
{
    line.split(|b| *b == b' ').collect(alloc)
}

/// The number with one more digit appended, if it is a digit and the number is at most `largest`.
fn with_digit(value: u64, digit: u8, largest: u64) -> Option<u64>
    ensures { result ≡ (if is_digit digit && nat_le (10 * value + (digit - 48)) largest then Some (10 * value + (digit - 48)) else None) }
{
    if digit < b'0' || digit > b'9' {
        return None;
    }
    let value = value.checked_mul(10)?.checked_add(u64::from(digit - b'0'))?;
    if value > largest { None } else { Some(value) }
}

/// The number that a word spells in decimal digits, if it is at most `largest`.
pub fn number_to(word: &[u8], largest: u64) -> Option<u64>
    ensures value { result ≡ number_to largest word.now }
    ensures within { IfSome result (λ n. n ≤ largest) }
{
    if word.is_empty() {
        return None;
    }
    let mut value = 0;
    for digit in word {
        value = with_digit(value, *digit, largest)?;
    }
    Some(value)
}

/// The number of 16 bits that a word spells.
pub fn number_16(word: &[u8]) -> Option<u16>
    ensures { result ≡ number_to 65535 word.now }
{
    Some(number_to(word, 0xFFFF)? as u16)
}

/// The number of 32 bits that a word spells.
pub fn number_32(word: &[u8]) -> Option<u32>
    ensures { result ≡ number_to 4294967295 word.now }
{
    Some(number_to(word, 0xFFFF_FFFF)? as u32)
}
