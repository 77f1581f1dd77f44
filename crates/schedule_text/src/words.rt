//! The words of a line, and the numbers that they spell.

ghost use Rattle.std.specs.Prelude.{◌≡◌, IfOk, is_some, map, min, option_map};
ghost use Rattle.std.specs.Str.{bytes_eq, is_utf8};
ghost use Rattle.std.specs.List.{list_all, list_any};
ghost use Rattle.std.specs.Char.{is_ascii_digit};
ghost use Rattle.schedule_text.specs.Words.{count_of, decimal, is_empty, number_of, words_of, worker_of};

use std::alloc::{AllocError, Global};

/// The pieces of a line between blanks, which are spaces and tabs.
pub(crate) fn words_of<'a>(alloc: Global, line: &'a [u8]) -> Result<Vec<&'a [u8]>, AllocError>
    ensures { IfOk result (λ words. map (λ word. word.now) words.items ≡ words_of line.now) }
{
    line.split(|byte| *byte == b' ' || *byte == b'\t')
        .collect(alloc)
}

/// Whether bytes are UTF-8.
pub(crate) fn is_utf8(bytes: &[u8]) -> bool
    ensures { result ≡ is_utf8 bytes.now }
{
    str::from_utf8(bytes).is_ok()
}

/// Whether one of these pieces is empty.
pub(crate) fn has_empty(pieces: &[&[u8]]) -> bool
    ensures { result ≡ list_any is_empty (map (λ piece. piece.now) pieces.now) }
{
    for piece in pieces {
        if piece.is_empty() {
            return true;
        }
    }
    false
}

/// Whether a word is this text.
pub(crate) fn is_text(word: &[u8], text: &str) -> bool
    ensures { result ≡ bytes_eq word.now text.now }
{
    word == text.as_bytes()
}

/// Whether all bytes are decimal digits.
fn are_digits(bytes: &[u8]) -> bool
    ensures { result ≡ list_all is_ascii_digit bytes.now }
{
    bytes.iter().all(|byte| byte.is_ascii_digit())
}

/// The number that decimal digits spell, or the greatest number if it is greater.
pub(crate) fn decimal(digits: &[u8]) -> u64
    ensures { result ≡ min (decimal digits.now) u64.MAX }
{
    let mut number = 0u64;
    for digit in digits {
        number = number
            .saturating_mul(10)
            .saturating_add(u64::from(digit.saturating_sub(b'0')));
    }
    number
}

/// The number of a word of one or more decimal digits, or the greatest number if it is greater. None for any other
/// word.
pub(crate) fn number_of(word: &[u8]) -> Option<u64>
    ensures { result ≡ option_map (λ number. min number u64.MAX) (number_of word.now) }
{
    if is_number(word) {
        Some(decimal(word))
    } else {
        None
    }
}

/// Whether a word is one or more decimal digits.
pub(crate) fn is_number(word: &[u8]) -> bool
    ensures { result ≡ is_some (number_of word.now) }
{
    !word.is_empty() && are_digits(word)
}

/// The worker that a word names: a number from 1 to 9999.
pub(crate) fn worker_of(word: &[u8]) -> Option<u32>
    ensures { result ≡ worker_of word.now }
{
    let number = number_of(word)?;
    if 1 <= number && number <= 9999 {
        Some(number as u32)
    } else {
        None
    }
}

/// The number of records that a word asks for: from 0 to 200,000.
pub(crate) fn count_of(word: &[u8]) -> Option<u64>
    ensures { result ≡ count_of word.now }
{
    let number = number_of(word)?;
    if number <= 200_000 {
        Some(number)
    } else {
        None
    }
}
