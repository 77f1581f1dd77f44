ghost use Rattle.std.specs.Prelude.{◌≡◌, ◌≤◌, ◌<◌, true, false, List, length, Some, is_some, IfOk, IfSome};
ghost use Rattle.std.specs.List.{flat_map};
ghost use Rattle.std.specs.Str.{is_utf8};
ghost use Rattle.ksql_types.specs.declared.value.Value.{Value as OneValue};
ghost use Rattle.ksql_place.specs.declared.change.Change.{Change as OneChange};
ghost use Rattle.record_codec.specs.Reading.{IsRead, IsReadWhole, with_rest, with_items};
ghost use Rattle.record_codec.specs.Spelling as spelled;
ghost use Rattle.record_codec.specs.Spelling.{spelling, values, ThisMany, AtMost, Optionally};
ghost use Rattle.record_codec.specs.Spelling.{IsSpellable, IsSpellableRow, AreSpellable, IsSpellableValue, IsSpellableSpan, IsSpellableBody};

use crate::fault::ReadError;
use ksql_place::{Body, Change, Path, Place, Stamp};
use ksql_types::{Chars, Items, Key, Row, Span, Value};
use std::alloc::{AllocError, Global};
use std::str;

pub(crate) fn four(bytes: &[u8]) -> Result<(u32, &[u8]), ReadError>
    ensures { IsRead spelled.four spelled.InFour with_rest bytes.now result }
{
    if bytes.len() < 4 {
        return Err(ReadError::Unspelled);
    }
    let (front, rest) = bytes.split_at(4);
    let number = u32::from_be_bytes([front[0], front[1], front[2], front[3]]);
    Ok((number, rest))
}

pub(crate) fn eight(bytes: &[u8]) -> Result<(u64, &[u8]), ReadError>
    ensures { IsRead spelled.eight spelled.InEight with_rest bytes.now result }
{
    if bytes.len() < 8 {
        return Err(ReadError::Unspelled);
    }
    let (front, rest) = bytes.split_at(8);
    let number = u64::from_be_bytes([
        front[0], front[1], front[2], front[3], front[4], front[5], front[6], front[7],
    ]);
    Ok((number, rest))
}

fn text(alloc: Global, bytes: &[u8]) -> Result<(Chars, &[u8]), ReadError>
    ensures { IsRead spelled.text spelled.IsSpellableText with_rest bytes.now result }
{
    let (len, rest) = four(bytes)?;
    let len = len as usize;
    if len > 65536 || rest.len() < len {
        return Err(ReadError::Unspelled);
    }
    let (front, rest) = rest.split_at(len);
    match utf8(front) {
        Some(text) => Ok((chars(alloc, text)?, rest)),
        None => Err(ReadError::Unspelled),
    }
}

/// The bytes as a text, if they are valid UTF-8.
fn utf8(bytes: &[u8]) -> Option<&str>
    ensures value { IfSome result (λ text. text.now ≡ bytes.now) }
    ensures utf8 { is_some result ≡ is_utf8 bytes.now }
{
    match str::from_utf8(bytes) {
        Ok(text) => Some(text),
        Err(_) => None,
    }
}

#[tactic(auto, unfolding(ksql_types::specs::Text::longest_text))]
fn chars(alloc: Global, text: &str) -> Result<Chars, AllocError>
    requires { length text.now ≤ 65536 }
    ensures { IfOk result (λ chars. chars ≡ text.now) }
{
    Chars::copy_of(alloc, text)
}

fn truth(bytes: &[u8]) -> Result<(bool, &[u8]), ReadError>
    ensures { IsRead spelled.truth_byte spelled.Always with_rest bytes.now result }
{
    match bytes {
        [0, rest @ ..] => Ok((false, rest)),
        [1, rest @ ..] => Ok((true, rest)),
        _ => Err(ReadError::Unspelled),
    }
}

fn value(alloc: Global, bytes: &[u8]) -> Result<(Value, &[u8]), ReadError>
    ensures { IsRead spelled.value IsSpellableValue with_rest bytes.now result }
{
    match bytes {
        [0, rest @ ..] => Ok((Value::Null, rest)),
        [1, rest @ ..] => {
            let (bits, rest) = four(rest)?;
            Ok((Value::Int(bits.cast_signed()), rest))
        }
        [2, rest @ ..] => {
            let (bits, rest) = eight(rest)?;
            Ok((Value::Big(bits.cast_signed()), rest))
        }
        [3, rest @ ..] => {
            let (text, rest) = text(alloc, rest)?;
            Ok((Value::Txt(text), rest))
        }
        [4, rest @ ..] => {
            let (truth, rest) = truth(rest)?;
            Ok((Value::Bool(truth), rest))
        }
        _ => Err(ReadError::Unspelled),
    }
}

fn many_values(
    alloc: Global,
    count: u32,
    room: usize,
    bytes: &[u8],
) -> Result<(Vec<Value>, &[u8]), ReadError>
    ensures { IsRead (flat_map spelled.value) (ThisMany count IsSpellableValue) with_items bytes.now result }
{
    let most = bytes.len().min(count as usize);
    let mut values = Vec::with_capacity(alloc, most.saturating_add(room))?;
    let mut rest = bytes;
    for _ in 0..count {
        let (value, after) = value(alloc, rest)?;
        values.push(value)?;
        rest = after;
    }
    Ok((values, rest))
}

fn values_of(
    alloc: Global,
    limit: u32,
    room: usize,
    bytes: &[u8],
) -> Result<(Vec<Value>, &[u8]), ReadError>
    ensures { IsRead values (AtMost limit IsSpellableValue) with_items bytes.now result }
{
    let (count, rest) = four(bytes)?;
    if count > limit {
        return Err(ReadError::Unspelled);
    }
    many_values(alloc, count, room, rest)
}

pub(crate) fn row(alloc: Global, bytes: &[u8]) -> Result<(Row, &[u8]), ReadError>
    ensures { IsRead values IsSpellableRow with_rest bytes.now result }
{
    let (values, rest) = values_of(alloc, 64, 0, bytes)?;
    Ok((Items::of(values), rest))
}

fn key(alloc: Global, bytes: &[u8]) -> Result<(Key, &[u8]), ReadError>
    ensures { IsRead values spelled.IsSpellableKey with_rest bytes.now result }
{
    let (values, rest) = values_of(alloc, 8, 0, bytes)?;
    if !Key::is_key(&values) {
        return Err(ReadError::Unspelled);
    }
    Ok((Key::of(values), rest))
}

fn many_numbers(alloc: Global, count: u32, bytes: &[u8]) -> Result<(Vec<u32>, &[u8]), ReadError>
    ensures { IsRead (flat_map spelled.four) (ThisMany count spelled.InFour) with_items bytes.now result }
{
    let mut numbers = Vec::with_capacity(alloc, bytes.len().min(count as usize))?;
    let mut rest = bytes;
    for _ in 0..count {
        let (number, after) = four(rest)?;
        numbers.push(number)?;
        rest = after;
    }
    Ok((numbers, rest))
}

fn path(alloc: Global, bytes: &[u8]) -> Result<(Path, &[u8]), ReadError>
    ensures { IsRead spelled.path spelled.IsSpellablePath with_rest bytes.now result }
{
    let (count, rest) = four(bytes)?;
    if count > 512 {
        return Err(ReadError::Unspelled);
    }
    let (numbers, rest) = many_numbers(alloc, count, rest)?;
    Ok((Path::of(alloc, numbers.as_slice())?, rest))
}

fn stamp(bytes: &[u8]) -> Result<(Stamp, &[u8]), ReadError>
    ensures { IsRead spelled.stamp spelled.IsTypedStamp with_rest bytes.now result }
{
    let (feed, rest) = eight(bytes)?;
    let (high, rest) = eight(rest)?;
    let (topic, rest) = four(rest)?;
    let (part, rest) = four(rest)?;
    let (offset, rest) = eight(rest)?;
    let stamp = Stamp {
        feed,
        high,
        topic,
        part,
        offset,
    };
    Ok((stamp, rest))
}

fn span(bytes: &[u8]) -> Result<(Span, &[u8]), ReadError>
    ensures { IsRead spelled.span IsSpellableSpan with_rest bytes.now result }
{
    let (start, rest) = eight(bytes)?;
    let (end, rest) = eight(rest)?;
    if start >= end {
        return Err(ReadError::Unspelled);
    }
    Ok((Span { start, end }, rest))
}

fn optional_span(bytes: &[u8]) -> Result<(Option<Span>, &[u8]), ReadError>
    ensures { IsRead (spelled.optional spelled.span) (Optionally IsSpellableSpan) with_rest bytes.now result }
{
    match bytes {
        [0, rest @ ..] => Ok((None, rest)),
        [1, rest @ ..] => {
            let (span, rest) = span(rest)?;
            Ok((Some(span), rest))
        }
        _ => Err(ReadError::Unspelled),
    }
}

/// The window of a change, which only a table's change can have.
fn window(of_table: bool, bytes: &[u8]) -> Result<(Option<Span>, &[u8]), ReadError>
    ensures { IsRead (spelled.optional spelled.span) (spelled.IsSpellableWindow of_table) with_rest bytes.now result }
{
    let (window, rest) = optional_span(bytes)?;
    if !of_table && window.is_some() {
        return Err(ReadError::Unspelled);
    }
    Ok((window, rest))
}

fn optional_row(alloc: Global, bytes: &[u8]) -> Result<(Option<Row>, &[u8]), ReadError>
    ensures { IsRead (spelled.optional values) (Optionally IsSpellableRow) with_rest bytes.now result }
{
    match bytes {
        [0, rest @ ..] => Ok((None, rest)),
        [1, rest @ ..] => {
            let (row, rest) = row(alloc, rest)?;
            Ok((Some(row), rest))
        }
        _ => Err(ReadError::Unspelled),
    }
}

/// The version, and whether the change that follows is a table's.
fn head(bytes: &[u8]) -> Result<(bool, &[u8]), ReadError>
    ensures { IsRead spelled.head spelled.Always with_rest bytes.now result }
{
    match bytes {
        [1, rest @ ..] => truth(rest),
        _ => Err(ReadError::Unspelled),
    }
}

fn said(alloc: Global, bytes: &[u8]) -> Result<(Body, &[u8]), ReadError>
    ensures { IsRead spelled.body (IsSpellableBody false) with_rest bytes.now result }
{
    let (row, rest) = row(alloc, bytes)?;
    Ok((Body::Said(row), rest))
}

fn turned(alloc: Global, bytes: &[u8]) -> Result<(Body, &[u8]), ReadError>
    ensures { IsRead spelled.body (IsSpellableBody true) with_rest bytes.now result }
{
    let (old, rest) = optional_row(alloc, bytes)?;
    let (new, rest) = optional_row(alloc, rest)?;
    if old.is_none() && new.is_none() {
        return Err(ReadError::Unspelled);
    }
    Ok((Body::Turned { old, new }, rest))
}

fn body(alloc: Global, of_table: bool, bytes: &[u8]) -> Result<(Body, &[u8]), ReadError>
    ensures { IsRead spelled.body (IsSpellableBody of_table) with_rest bytes.now result }
{
    if of_table {
        turned(alloc, bytes)
    } else {
        said(alloc, bytes)
    }
}

fn change(alloc: Global, bytes: &[u8]) -> Result<(Change, &[u8]), ReadError>
    ensures { IsRead spelling IsSpellable with_rest bytes.now result }
{
    let (of_table, rest) = head(bytes)?;
    let (stamp, rest) = stamp(rest)?;
    let (path, rest) = path(alloc, rest)?;
    let (time, rest) = eight(rest)?;
    let (span, rest) = window(of_table, rest)?;
    let (key, rest) = key(alloc, rest)?;
    let (body, rest) = body(alloc, of_table, rest)?;
    let place = Place { stamp, path };
    let change = Change {
        place,
        time,
        key,
        span,
        body,
    };
    Ok((change, rest))
}

fn whole_change(alloc: Global, bytes: &[u8]) -> Result<Change, ReadError>
    ensures { IsReadWhole spelling IsSpellable bytes.now result }
{
    let (change, rest) = change(alloc, bytes)?;
    if !rest.is_empty() {
        return Err(ReadError::Unspelled);
    }
    Ok(change)
}

fn whole_row(alloc: Global, bytes: &[u8]) -> Result<Row, ReadError>
    ensures { IsReadWhole values IsSpellableRow bytes.now result }
{
    let (row, rest) = row(alloc, bytes)?;
    if !rest.is_empty() {
        return Err(ReadError::Unspelled);
    }
    Ok(row)
}

fn whole_values(alloc: Global, bytes: &[u8], room: usize) -> Result<Items<Value>, ReadError>
    ensures { IsReadWhole values AreSpellable bytes.now result }
{
    let (values, rest) = values_of(alloc, u32::MAX, room, bytes)?;
    if !rest.is_empty() {
        return Err(ReadError::Unspelled);
    }
    Ok(Items::of(values))
}

/// The change that the bytes spell, or `None` if they spell none.
pub fn decode(alloc: Global, bytes: &[u8]) -> Result<Option<Change>, AllocError>
    ensures found { IfOk result (λ o. IfSome o (λ c. IsSpellable c × (bytes.now ≡ spelling c))) }
    ensures only { (c : OneChange) → IsSpellable c → bytes.now ≡ spelling c → IfOk result (λ o. o ≡ Some c) }
{
    match whole_change(alloc, bytes) {
        Ok(change) => Ok(Some(change)),
        Err(ReadError::Unspelled) => Ok(None),
        Err(ReadError::OutOfMemory) => Err(AllocError),
    }
}

/// The row that the bytes spell, or `None` if they spell none.
pub fn decode_row(alloc: Global, bytes: &[u8]) -> Result<Option<Row>, AllocError>
    ensures found { IfOk result (λ o. IfSome o (λ r. IsSpellableRow r × (bytes.now ≡ values r))) }
    ensures only { (r : List OneValue) → IsSpellableRow r → bytes.now ≡ values r → IfOk result (λ o. o ≡ Some r) }
{
    match whole_row(alloc, bytes) {
        Ok(row) => Ok(Some(row)),
        Err(ReadError::Unspelled) => Ok(None),
        Err(ReadError::OutOfMemory) => Err(AllocError),
    }
}

/// The values that the bytes spell, in a list with room for `room` more, or `None` if they spell none.
pub fn decode_values(
    alloc: Global,
    bytes: &[u8],
    room: usize,
) -> Result<Option<Items<Value>>, AllocError>
    ensures found { IfOk result (λ o. IfSome o (λ vs. AreSpellable vs × (bytes.now ≡ values vs))) }
    ensures only { (vs : List OneValue) → AreSpellable vs → bytes.now ≡ values vs → IfOk result (λ o. o ≡ Some vs) }
{
    match whole_values(alloc, bytes, room) {
        Ok(values) => Ok(Some(values)),
        Err(ReadError::Unspelled) => Ok(None),
        Err(ReadError::OutOfMemory) => Err(AllocError),
    }
}
