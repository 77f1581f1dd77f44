ghost use Rattle.std.specs.Prelude.{◌≡◌, ◌<◌, ◌^◌, ◌++◌, None, length, OnOk, IfOk, IfSome};
ghost use Rattle.std.specs.List.{All};
ghost use Rattle.ksql_types.specs.Key.{IsKey};
ghost use Rattle.ksql_place.specs.declared.change.Body.TheVariants.{Turned};
ghost use Rattle.record_codec.specs.Spelling as spelled;
ghost use Rattle.record_codec.specs.Spelling.{spelling, IsWithinLimits, IsSpellable, IsShort, IsShortRow, IsSpellableRow, IsTypedValue, AreSpellable};

use byteorder::{BigEndian, ByteOrder};
use ksql_place::{Body, Change, Stamp};
use ksql_types::{Bytes, Items, Row, Span, Value};
use std::alloc::{AllocError, Global};

#[tactic(auto, unfolding(crate::specs::Spelling::four))]
fn put_four(out: &mut Vec<u8>, number: u32) -> Result<(), AllocError>
    ensures { OnOk result (out.new.items ≡ out.old.items ++ spelled.four number) }
{
    let mut bytes = [0; 4];
    BigEndian::write_u32(&mut bytes, number);
    out.extend_from_slice(&bytes)
}

#[tactic(auto, unfolding(crate::specs::Spelling::eight))]
fn put_eight(out: &mut Vec<u8>, number: u64) -> Result<(), AllocError>
    ensures { OnOk result (out.new.items ≡ out.old.items ++ spelled.eight number) }
{
    let mut bytes = [0; 8];
    BigEndian::write_u64(&mut bytes, number);
    out.extend_from_slice(&bytes)
}

fn put_value(out: &mut Vec<u8>, value: &Value) -> Result<(), AllocError>
    requires { IsShort value.now }
    ensures bytes { OnOk result (out.new.items ≡ out.old.items ++ spelled.value value.now) }
    ensures typed { OnOk result (IsTypedValue value.now) }
{
    match value {
        Value::Null => out.push(0)?,
        Value::Int(number) => {
            out.push(1)?;
            put_four(out, number.cast_unsigned())?;
        }
        Value::Big(number) => {
            out.push(2)?;
            put_eight(out, number.cast_unsigned())?;
        }
        Value::Txt(text) => {
            let text = text.items();
            out.push(3)?;
            put_four(out, text.len() as u32)?;
            out.extend_from_slice(text.as_bytes())?;
        }
        Value::Bool(truth) => {
            out.push(4)?;
            out.push(u8::from(*truth))?;
        }
    }
    Ok(())
}

fn put_values(out: &mut Vec<u8>, values: &[Value]) -> Result<(), AllocError>
    requires few { length values.now < 2 ^ 32 }
    requires short { All IsShort values.now }
    ensures bytes { OnOk result (out.new.items ≡ out.old.items ++ spelled.values values.now) }
    ensures typed { OnOk result (All IsTypedValue values.now) }
{
    put_four(out, values.len() as u32)?;
    for value in values {
        put_value(out, value)?;
    }
    Ok(())
}

fn put_path(out: &mut Vec<u8>, path: &[u32]) -> Result<(), AllocError>
    requires { length path.now < 2 ^ 32 }
    ensures bytes { OnOk result (out.new.items ≡ out.old.items ++ spelled.path path.now) }
    ensures typed { OnOk result (All (λ n. n < 2 ^ 32) path.now) }
{
    put_four(out, path.len() as u32)?;
    for number in path {
        put_four(out, *number)?;
    }
    Ok(())
}

fn put_stamp(out: &mut Vec<u8>, stamp: &Stamp) -> Result<(), AllocError>
    ensures bytes { OnOk result (out.new.items ≡ out.old.items ++ spelled.stamp stamp.now) }
    ensures typed { OnOk result (spelled.IsTypedStamp stamp.now) }
{
    put_eight(out, stamp.feed)?;
    put_eight(out, stamp.high)?;
    put_four(out, stamp.topic)?;
    put_four(out, stamp.part)?;
    put_eight(out, stamp.offset)
}

fn put_window(out: &mut Vec<u8>, window: Option<Span>) -> Result<(), AllocError>
    ensures bytes { OnOk result (out.new.items ≡ out.old.items ++ spelled.optional spelled.span window) }
    ensures typed { OnOk result (IfSome window spelled.IsTypedSpan) }
{
    match window {
        None => out.push(0)?,
        Some(span) => {
            out.push(1)?;
            put_eight(out, span.start)?;
            put_eight(out, span.end)?;
        }
    }
    Ok(())
}

fn put_row(out: &mut Vec<u8>, row: &Option<Row>) -> Result<(), AllocError>
    requires { IfSome row.now IsShortRow }
    ensures bytes { OnOk result (out.new.items ≡ out.old.items ++ spelled.optional spelled.values row.now) }
    ensures typed { OnOk result (IfSome row.now (All IsTypedValue)) }
{
    match row {
        None => out.push(0)?,
        Some(row) => {
            out.push(1)?;
            put_values(out, row.items())?;
        }
    }
    Ok(())
}

fn put_body(out: &mut Vec<u8>, body: &Body) -> Result<(), AllocError>
    requires { spelled.IsShortBody body.now }
    ensures bytes { OnOk result (out.new.items ≡ out.old.items ++ spelled.body body.now) }
    ensures typed { OnOk result (spelled.IsTypedBody body.now) }
{
    match body {
        Body::Said(row) => put_values(out, row.items()),
        Body::Turned { old, new } => {
            put_row(out, old)?;
            put_row(out, new)
        }
    }
}

fn put_head(out: &mut Vec<u8>, body: &Body) -> Result<(), AllocError>
    ensures { OnOk result (out.new.items ≡ out.old.items ++ spelled.head (spelled.is_turned body.now)) }
{
    out.push(1)?;
    match body {
        Body::Said(_) => out.push(0)?,
        Body::Turned { .. } => out.push(1)?,
    }
    Ok(())
}

/// Appends what stands between the head and the body of a change.
fn put_before_body(out: &mut Vec<u8>, change: &Change) -> Result<(), AllocError>
    requires path { length change.now.place.path < 2 ^ 32 }
    requires key { All IsShort change.now.key }
    ensures bytes { let c = change.now in OnOk result (out.new.items ≡ out.old.items ++ spelled.stamp c.place.stamp ++ spelled.path c.place.path
        ++ spelled.eight c.time ++ spelled.optional spelled.span c.span ++ spelled.values c.key) }
    ensures stamp { OnOk result (spelled.IsTypedStamp change.now.place.stamp) }
    ensures path { OnOk result (All (λ n. n < 2 ^ 32) change.now.place.path) }
    ensures window { OnOk result (IfSome change.now.span spelled.IsTypedSpan) }
    ensures time { OnOk result (change.now.time < 2 ^ 64) }
    ensures key { OnOk result (IsKey change.now.key) }
    ensures values { OnOk result (All IsTypedValue change.now.key) }
{
    put_stamp(out, &change.place.stamp)?;
    put_path(out, change.place.path.items())?;
    put_eight(out, change.time)?;
    put_window(out, change.span)?;
    put_values(out, change.key.items())
}

/// The only spelling of a change.
#[tactic(auto, unfolding(crate::specs::Spelling::spelling))]
pub fn encode(alloc: Global, change: &Change) -> Result<Bytes, AllocError>
    requires { IsWithinLimits change.now }
    ensures bytes { IfOk result (λ bytes. bytes ≡ spelling change.now) }
    ensures spellable { OnOk result (IsSpellable change.now) }
{
    let mut out = Vec::with_capacity(alloc, 128)?;
    put_head(&mut out, &change.body)?;
    put_before_body(&mut out, change)?;
    put_body(&mut out, &change.body)?;
    Ok(Items::of(out))
}

/// The only spelling of a table's change to this row, with the place, time, key and window of `change`.
#[tactic(auto, unfolding(crate::specs::Spelling::spelling))]
pub fn encode_new(alloc: Global, change: &Change, row: &Row) -> Result<Bytes, AllocError>
    requires { IsWithinLimits (record change.now { body = Turned None (Some row.now) }) }
    ensures bytes { IfOk result (λ bytes. bytes ≡ spelling (record change.now { body = Turned None (Some row.now) })) }
    ensures spellable { OnOk result (IsSpellable (record change.now { body = Turned None (Some row.now) })) }
{
    let mut out = Vec::with_capacity(alloc, 128)?;
    out.extend_from_slice(&[1, 1])?;
    put_before_body(&mut out, change)?;
    out.extend_from_slice(&[0, 1])?;
    put_values(&mut out, row.items())?;
    Ok(Items::of(out))
}

/// The only spelling of a row: the number of values, and each value.
pub fn encode_row(alloc: Global, row: &Row) -> Result<Bytes, AllocError>
    requires { IsShortRow row.now }
    ensures bytes { IfOk result (λ bytes. bytes ≡ spelled.values row.now) }
    ensures spellable { OnOk result (IsSpellableRow row.now) }
{
    let mut out = Vec::with_capacity(alloc, row.items().len() * 16 + 4)?;
    put_values(&mut out, row.items())?;
    Ok(Items::of(out))
}

/// The only spelling of a list of values: their number, and each value. A row's is the same.
pub fn encode_values(alloc: Global, values: &[Value]) -> Result<Bytes, AllocError>
    requires few { length values.now < 2 ^ 32 }
    requires short { All IsShort values.now }
    ensures bytes { IfOk result (λ bytes. bytes ≡ spelled.values values.now) }
    ensures spellable { OnOk result (AreSpellable values.now) }
{
    let mut out = Vec::with_capacity(alloc, values.len() * 16 + 4)?;
    put_values(&mut out, values)?;
    Ok(Items::of(out))
}
