//! The time and the new row of a table's change, read without its place, window and key.
ghost use Rattle.std.specs.Prelude.{◌≡◌, ℕ, List, ◌++◌, length, None, Some, IfOk};
ghost use Rattle.std.specs.List.{flat_map};
ghost use Rattle.ksql_types.specs.declared.value.Value.{Value as OneValue};
ghost use Rattle.ksql_place.specs.declared.change.Body.TheVariants.{Turned};
ghost use Rattle.ksql_place.specs.declared.change.Change.{Change as OneChange};
ghost use Rattle.record_codec.specs.Reading.{IsSkipped, Finds, with_rest};
ghost use Rattle.record_codec.specs.Spelling as spelled;
ghost use Rattle.record_codec.specs.Spelling.{spelling, before_time, window_and_key, before_body, ThisMany, Optionally};
ghost use Rattle.record_codec.specs.Spelling.{IsSpellable, IsSpellableRow, IsSpellableValue};

use crate::fault::ReadError;
use crate::reading::{eight, four, row};
use ksql_types::Row;
use std::alloc::{AllocError, Global};

/// The bytes of a change before its path: version, kind and stamp.
const BEFORE_PATH: usize = 34;

fn past(count: usize, bytes: &[u8]) -> Result<&[u8], ReadError>
    ensures { IsSkipped (λ bytes. bytes) (λ bytes. length bytes ≡ count) bytes.now result }
{
    if bytes.len() < count {
        return Err(ReadError::Unspelled);
    }
    let (_, rest) = bytes.split_at(count);
    Ok(rest)
}

fn past_path(bytes: &[u8]) -> Result<&[u8], ReadError>
    ensures { IsSkipped spelled.path spelled.IsSpellablePath bytes.now result }
{
    let (count, rest) = four(bytes)?;
    past(count as usize * 4, rest)
}

fn past_window(bytes: &[u8]) -> Result<&[u8], ReadError>
    ensures { IsSkipped (spelled.optional spelled.span) (Optionally spelled.IsSpellableSpan) bytes.now result }
{
    match bytes {
        [0, rest @ ..] => Ok(rest),
        [1, rest @ ..] => past(16, rest),
        _ => Err(ReadError::Unspelled),
    }
}

fn past_text(bytes: &[u8]) -> Result<&[u8], ReadError>
    ensures { IsSkipped spelled.text spelled.IsSpellableText bytes.now result }
{
    let (len, rest) = four(bytes)?;
    past(len as usize, rest)
}

fn past_value(bytes: &[u8]) -> Result<&[u8], ReadError>
    ensures { IsSkipped spelled.value IsSpellableValue bytes.now result }
{
    match bytes {
        [0, rest @ ..] => Ok(rest),
        [1, rest @ ..] => past(4, rest),
        [2, rest @ ..] => past(8, rest),
        [3, rest @ ..] => past_text(rest),
        [4, rest @ ..] => past(1, rest),
        _ => Err(ReadError::Unspelled),
    }
}

fn past_values(count: u32, bytes: &[u8]) -> Result<&[u8], ReadError>
    ensures { IsSkipped (flat_map spelled.value) (ThisMany count IsSpellableValue) bytes.now result }
{
    if count == 0 {
        return Ok(bytes);
    }
    let rest = past_value(bytes)?;
    past_values(count - 1, rest)
}

fn past_key(bytes: &[u8]) -> Result<&[u8], ReadError>
    ensures { IsSkipped spelled.values spelled.IsSpellableKey bytes.now result }
{
    let (count, rest) = four(bytes)?;
    past_values(count, rest)
}

fn past_place(bytes: &[u8]) -> Result<&[u8], ReadError>
    ensures { IsSkipped before_time IsSpellable bytes.now result }
{
    let rest = past(BEFORE_PATH, bytes)?;
    past_path(rest)
}

fn past_window_and_key(bytes: &[u8]) -> Result<&[u8], ReadError>
    ensures { IsSkipped window_and_key IsSpellable bytes.now result }
{
    let rest = past_window(bytes)?;
    past_key(rest)
}

fn time(bytes: &[u8]) -> Result<(u64, &[u8]), ReadError>
    ensures { (c : OneChange) (rest : List ℕ) → IsSpellable c → bytes.now ≡ before_body c ++ rest →
        Finds with_rest (c.time, rest) result }
{
    let rest = past_place(bytes)?;
    let (time, rest) = eight(rest)?;
    let rows = past_window_and_key(rest)?;
    Ok((time, rows))
}

fn new_row(alloc: Global, bytes: &[u8]) -> Result<(Row, &[u8]), ReadError>
    ensures { (row : List OneValue) (rest : List ℕ) → IsSpellableRow row → bytes.now ≡ spelled.body (Turned None (Some row)) ++ rest →
        Finds with_rest (row, rest) result }
{
    match bytes {
        [0, 1, rest @ ..] => row(alloc, rest),
        _ => Err(ReadError::Unspelled),
    }
}

fn timed_row(alloc: Global, bytes: &[u8]) -> Result<(u64, Row), ReadError>
    ensures { (c : OneChange) (row : List OneValue) → IsSpellable (record c { body = Turned None (Some row) }) →
        bytes.now ≡ spelling (record c { body = Turned None (Some row) }) → Finds (λ timed. timed) (c.time, row) result }
{
    let (time, rows) = time(bytes)?;
    let (row, _) = new_row(alloc, rows)?;
    Ok((time, row))
}

/// The time and the new row of the change that the bytes spell, if it is a table's change with a new row and without an
/// old one, as `encode_new` writes it. The contract says nothing of other bytes, since they aren't read whole.
pub fn decode_new(alloc: Global, bytes: &[u8]) -> Result<Option<(u64, Row)>, AllocError>
    ensures { (c : OneChange) (row : List OneValue) → IsSpellable (record c { body = Turned None (Some row) }) →
        bytes.now ≡ spelling (record c { body = Turned None (Some row) }) → IfOk result (λ found. found ≡ Some (c.time, row)) }
{
    match timed_row(alloc, bytes) {
        Ok(timed) => Ok(Some(timed)),
        Err(ReadError::Unspelled) => Ok(None),
        Err(ReadError::OutOfMemory) => Err(AllocError),
    }
}
