use crate::texts::{chars, halves, number};
use ksql_types::{Key, Value, cmp_key, key_bytes, lane};
use std::alloc::{AllocError, Global};
use std::cmp::Ordering;

/// A value: `true`, `false`, `7`, `7L` of BIGINT, or a text after a mark `'`.
fn value(alloc: Global, word: &str) -> Result<Value, AllocError> {
    if let Some(text) = word.strip_prefix('\'') {
        return Ok(Value::Txt(chars(alloc, text)?));
    }
    if let Some(digits) = word.strip_suffix('L') {
        return Ok(Value::Big(digits.parse::<i64>().unwrap_or(0)));
    }
    match word.parse::<i32>() {
        Ok(number) => Ok(Value::Int(number)),
        Err(_) => Ok(Value::Bool(word == "true")),
    }
}

/// A key of the values with blanks between them, if they make one.
fn key(alloc: Global, text: &str) -> Result<Key, AllocError> {
    let mut values = Vec::new(alloc);
    for word in text.split_whitespace() {
        values.push(value(alloc, word)?)?;
    }
    if !Key::is_key(values.as_slice()) {
        return Err(AllocError);
    }
    Ok(Key::of(values))
}

/// The bytes of a key, and whether its lane is a number modulo each count of partitions, from a text `KEY | NUMBER`.
pub fn hashed(alloc: Global, text: &str) -> Result<String, AllocError> {
    let (values, hash) = halves(text);
    let (key, hash) = (key(alloc, values)?, number(hash));
    let agree = (1..65u32).all(|n| lane(&key, n, 7) == hash % n);
    format!(in alloc; "{:?} {agree}", key_bytes(alloc, &key)?.items())
}

/// The lanes of a key among two partitions, and among four.
pub fn lane_of(alloc: Global, text: &str) -> Result<String, AllocError> {
    let key = key(alloc, text)?;
    format!(in alloc; "{} {}", lane(&key, 2, 0), lane(&key, 4, 7))
}

/// The number and the truth value of a text with a blank between them.
fn pair(text: &str) -> (i32, bool) {
    let (number, truth) = text.split_once(' ').unwrap_or((text, ""));
    (number.parse::<i32>().unwrap_or(0), truth == "true")
}

/// How two keys of an INTEGER and a BOOLEAN compare.
fn cmp_pairs(alloc: Global, a: (i32, bool), b: (i32, bool)) -> Result<Ordering, AllocError> {
    let first = Key::of(vec![in alloc; Value::Int(a.0), Value::Bool(a.1)]?);
    let second = Key::of(vec![in alloc; Value::Int(b.0), Value::Bool(b.1)]?);
    Ok(cmp_key(&first, &second))
}

/// How two keys of a VARCHAR compare.
fn cmp_texts(alloc: Global, a: &str, b: &str) -> Result<Ordering, AllocError> {
    let first = Key::of(vec![in alloc; Value::Txt(chars(alloc, a)?)]?);
    let second = Key::of(vec![in alloc; Value::Txt(chars(alloc, b)?)]?);
    Ok(cmp_key(&first, &second))
}

/// How two keys of a VARCHAR compare, and whether the first text comes first.
fn compared_texts(alloc: Global, a: &str, b: &str) -> Result<String, AllocError> {
    let order = cmp_texts(alloc, a, b)?;
    let first = chars(alloc, a)? < chars(alloc, b)?;
    format!(in alloc; "{order:?} {first}")
}

/// How two keys of an INTEGER and a BOOLEAN compare, or two of a VARCHAR after a mark `'`.
pub fn compared(alloc: Global, text: &str) -> Result<String, AllocError> {
    let (a, b) = halves(text);
    if let Some(a) = a.strip_prefix('\'') {
        return compared_texts(alloc, a, b.strip_prefix('\'').unwrap_or(b));
    }
    let order = cmp_pairs(alloc, pair(a), pair(b))?;
    format!(in alloc; "{order:?}")
}
