ghost use Rattle.std.specs.Prelude.{◌≡◌, ◌≤◌, ◌++◌, if◌then◌else◌, length, nat_le, take, drop, IfOk, IsTrue, string_bytes, string_len, reverse};
ghost use Rattle.std.specs.Fmt.{signed_decimal};
ghost use Rattle.std.specs.Str.{chars, encode_utf8_all};
ghost use Rattle.std.specs.Str.Parse.{signed_digits_value, without_leading_sign};
ghost use Rattle.ksql_expr.specs.Value.{joined, bytes_of, index_of, at_most, part_of, tail_of, middle_of, after_spaces, trimmed, length_of, without_spaces, in_capitals, in_small_letters, are_digits, fitting, cast_number, cast_text, cast_truth, truth_text};
ghost use Rattle.ksql_types.specs.Text.{longest_value};

use crate::number::{fitting, whole};
use ksql_types::{Chars, CopyOf, LONGEST_VALUE, SqlType, Value};
use std::alloc::{AllocError, Global};

/// Two texts joined; NULL if one of them is NULL or the result is too long.
#[tactic(auto, unfolding(ksql_types::specs::Text::longest_text))]
pub fn joined(alloc: Global, left: &Value, right: &Value) -> Result<Value, AllocError>
    ensures { IfOk result (λ value. value ≡ joined left.now right.now) }
{
    match (left, right) {
        (Value::Txt(left), Value::Txt(right)) => {
            let (left, right) = (left.items(), right.items());
            let len = left.len() + right.len();
            if len > LONGEST_VALUE {
                return Ok(Value::Null);
            }
            let mut both = String::with_capacity(alloc, len)?;
            both.push_str(left)?;
            both.push_str(right)?;
            Ok(Value::Txt(Chars::of(both)?))
        }
        _ => Ok(Value::Null),
    }
}

/// Appends the bytes of a value, of which NULL has none, unless the result is too long; returns whether it did.
pub fn push_bytes(whole: &mut String, value: &Value) -> Result<bool, AllocError>
    requires { string_len whole.old ≤ longest_value }
    ensures test { IfOk result (λ fits. fits ≡ nat_le (length (string_bytes whole.old ++ bytes_of value.now)) longest_value) }
    ensures pushed { IfOk result (λ fits. IsTrue fits → string_bytes whole.new ≡ string_bytes whole.old ++ bytes_of value.now) }
{
    let Value::Txt(text) = value else {
        return Ok(true);
    };
    let text = text.items();
    if whole.len() + text.len() > LONGEST_VALUE {
        return Ok(false);
    }
    whole.push_str(text)?;
    Ok(true)
}

/// The number of characters of a text.
fn count_of(text: &str) -> usize
    ensures { result ≡ length (chars text.now) }
{
    text.chars().count()
}

/// The number of characters of a text; NULL for NULL.
#[tactic(auto, unfolding(ksql_types::specs::Text::longest_text))]
pub fn length_of(value: &Value) -> Value
    ensures { result ≡ length_of value.now }
{
    match value {
        Value::Txt(text) => Value::Int(count_of(text.items()) as i32),
        _ => Value::Null,
    }
}

/// The text without its first `count` characters.
fn after(text: &str, count: usize) -> &str
    ensures value { result.now ≡ encode_utf8_all (drop count (chars text.now)) }
    ensures bound { length result.now ≤ length text.now }
{
    let mut rest = text.chars();
    for _passed in 0..count {
        if rest.next().is_none() {
            return "";
        }
    }
    rest.as_str()
}

/// The first `count` characters of a text.
fn front(text: &str, count: usize) -> &str
    ensures value { result.now ≡ encode_utf8_all (take count (chars text.now)) }
    ensures bound { length result.now ≤ length text.now }
{
    let rest = after(text, count);
    &text[..text.len() - rest.len()]
}

/// The index of the character at a position of a text of `count` characters: 1 is the first, and negative positions
/// count from the end.
fn index_of(count: usize, at: i64) -> usize
    ensures { result ≡ index_of count at }
{
    if at > 0 {
        (at - 1) as usize
    } else if at < 0 {
        count.saturating_sub(at.unsigned_abs() as usize)
    } else {
        0
    }
}

/// At most the first `len` characters of a text; all of them if `len` is None.
fn at_most(text: &str, len: Option<i64>) -> &str
    ensures value { result.now ≡ encode_utf8_all (at_most len (chars text.now)) }
    ensures bound { length result.now ≤ length text.now }
{
    match len {
        None => text,
        Some(len) if len > 0 => front(text, len as usize),
        Some(_) => "",
    }
}

/// At most `len` characters of a text from a position on, borrowed; all of them if `len` is None.
fn part_of(text: &str, at: i64, len: Option<i64>) -> &str
    ensures value { result.now ≡ part_of text.now at len }
    ensures bound { length result.now ≤ length text.now }
{
    at_most(after(text, index_of(count_of(text), at)), len)
}

/// SUBSTRING without a length: the text from a position on.
#[tactic(auto, unfolding(ksql_types::specs::Text::longest_text))]
pub fn tail_of(alloc: Global, text: &Value, at: &Value) -> Result<Value, AllocError>
    ensures { IfOk result (λ value. value ≡ tail_of text.now at.now) }
{
    match (text, whole(at)) {
        (Value::Txt(text), Some(at)) => {
            let part = String::from_str(alloc, part_of(text.items(), at, None))?;
            Ok(Value::Txt(Chars::of(part)?))
        }
        _ => Ok(Value::Null),
    }
}

/// SUBSTRING with a length: at most `len` characters from a position on.
#[tactic(auto, unfolding(ksql_types::specs::Text::longest_text))]
pub fn middle_of(alloc: Global, text: &Value, at: &Value, len: &Value) -> Result<Value, AllocError>
    ensures { IfOk result (λ value. value ≡ middle_of text.now at.now len.now) }
{
    match (text, whole(at), whole(len)) {
        (Value::Txt(text), Some(at), Some(len)) => {
            let part = String::from_str(alloc, part_of(text.items(), at, Some(len)))?;
            Ok(Value::Txt(Chars::of(part)?))
        }
        _ => Ok(Value::Null),
    }
}

/// A text without leading spaces, borrowed.
fn after_spaces(text: &str) -> &str
    ensures value { result.now ≡ after_spaces text.now }
    ensures bound { length result.now ≤ length text.now }
{
    let mut rest = text;
    while let Some(after) = rest.strip_prefix(' ') {
        rest = after;
    }
    rest
}

/// A text without trailing spaces, borrowed.
fn before_spaces(text: &str) -> &str
    ensures value { result.now ≡ reverse (after_spaces (reverse text.now)) }
    ensures bound { length result.now ≤ length text.now }
{
    let mut rest = text;
    while let Some(before) = rest.strip_suffix(' ') {
        rest = before;
    }
    rest
}

/// TRIM: a text without leading and trailing spaces; NULL for NULL.
#[tactic(auto, unfolding(ksql_types::specs::Text::longest_text))]
pub fn without_spaces(alloc: Global, value: &Value) -> Result<Value, AllocError>
    ensures { IfOk result (λ text. text ≡ without_spaces value.now) }
{
    match value {
        Value::Txt(text) => {
            let kept = String::from_str(alloc, before_spaces(after_spaces(text.items())))?;
            Ok(Value::Txt(Chars::of(kept)?))
        }
        _ => Ok(Value::Null),
    }
}

/// UCASE: a text with its ASCII letters in upper case; NULL for NULL.
pub fn in_capitals(alloc: Global, value: &Value) -> Result<Value, AllocError>
    ensures { IfOk result (λ text. text ≡ in_capitals value.now) }
{
    match value {
        Value::Txt(text) => {
            let capitals = text.items().to_ascii_uppercase(alloc)?;
            Ok(Value::Txt(Chars::of(capitals)?))
        }
        _ => Ok(Value::Null),
    }
}

/// LCASE: a text with its ASCII letters in lower case; NULL for NULL.
pub fn in_small_letters(alloc: Global, value: &Value) -> Result<Value, AllocError>
    ensures { IfOk result (λ text. text ≡ in_small_letters value.now) }
{
    match value {
        Value::Txt(text) => {
            let small = text.items().to_ascii_lowercase(alloc)?;
            Ok(Value::Txt(Chars::of(small)?))
        }
        _ => Ok(Value::Null),
    }
}

/// The number that an optional sign and digits spell, in a type; NULL for any other text and out of range.
fn read_number(to: SqlType, text: &str) -> Value
    ensures { result ≡ (if are_digits (without_leading_sign text.now) then fitting to (signed_digits_value 10 text.now) else Value.Null) }
{
    match text.parse::<i64>() {
        Ok(number) => fitting(to, number),
        Err(_) => Value::Null,
    }
}

/// CAST to a number.
pub fn cast_number(to: SqlType, value: &Value) -> Value
    ensures { result ≡ cast_number to value.now }
{
    match value {
        Value::Int(number) => fitting(to, i64::from(*number)),
        Value::Big(number) => fitting(to, *number),
        Value::Txt(text) => read_number(to, text.items()),
        _ => Value::Null,
    }
}

/// The decimal text of a number.
#[tactic(auto, unfolding(ksql_types::specs::Text::longest_text))]
fn decimal(alloc: Global, number: i64) -> Result<Value, AllocError>
    ensures { IfOk result (λ text. text ≡ Value.Txt (signed_decimal number)) }
{
    Ok(Value::Txt(Chars::of(number.to_string(alloc)?)?))
}

/// The text of a truth value.
fn truth_text(truth: bool) -> &'static str
    ensures text { result.now ≡ truth_text truth }
    ensures bound { length result.now ≤ 5 }
{
    if truth { "true" } else { "false" }
}

/// CAST to VARCHAR.
#[tactic(auto, unfolding(ksql_types::specs::Text::longest_text))]
pub fn cast_text(alloc: Global, value: &Value) -> Result<Value, AllocError>
    ensures { IfOk result (λ text. text ≡ cast_text value.now) }
{
    match value {
        Value::Int(number) => decimal(alloc, i64::from(*number)),
        Value::Big(number) => decimal(alloc, *number),
        Value::Bool(truth) => {
            let text = String::from_str(alloc, truth_text(*truth))?;
            Ok(Value::Txt(Chars::of(text)?))
        }
        _ => value.copy(alloc),
    }
}

/// CAST to BOOLEAN.
pub fn cast_truth(value: &Value) -> Value
    ensures { result ≡ cast_truth value.now }
{
    match value {
        Value::Txt(text) => Value::Bool(text.items().eq_ignore_ascii_case("true")),
        Value::Bool(truth) => Value::Bool(*truth),
        _ => Value::Null,
    }
}
