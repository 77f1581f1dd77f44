ghost use Rattle.std.specs.Prelude.{◌≡◌, ◌<◌, ◌≤◌, ◌++◌, IfOk, OnOk, flat_map, fold, length};
ghost use Rattle.ksql_types.specs.Lane.{after_length, hash_step, value_bytes};
ghost use Rattle.ksql_types.specs.Lane as spec;

use crate::Bytes;
use crate::items::Items;
use crate::key::Key;
use crate::value::Value;
use std::alloc::{AllocError, Global};

/// The bytes of a key: a single value's own bytes, or for several values the bytes of each after their length as 4
/// bytes. A text is its UTF-8, an INTEGER 4 and a BIGINT 8 bytes, a BOOLEAN one byte; numbers are big-endian.
pub fn key_bytes(alloc: Global, key: &Key) -> Result<Bytes, AllocError>
    ensures { IfOk result (λ bytes. bytes ≡ spec.key_bytes key.now) }
{
    let mut out = Vec::new(alloc);
    match key.items() {
        [value] => put_value(&mut out, value)?,
        values => put_values(&mut out, values)?,
    }
    Ok(Items::of(out))
}

/// The partition of a key among `n`: the hash of its bytes modulo `n`, or `home` modulo `n` for no key. Takes no
/// memory.
#[tactic(auto, unfolding(crate::specs::Lane::hash))]
pub fn lane(key: &Key, n: u32, home: u32) -> u32
    requires some { 1 ≤ n }
    requires few { n ≤ 64 }
    ensures value { result ≡ spec.lane key.now n home }
    ensures within { result < n }
{
    match key.items() {
        [] => home % n,
        [value] => hash_value(0, value) % n,
        values => hash_values(values) % n,
    }
}

/// Appends the bytes of a value.
fn put_value(out: &mut Vec<u8>, value: &Value) -> Result<(), AllocError>
    ensures { OnOk result (out.new.items ≡ out.old.items ++ value_bytes value.now) }
{
    match value {
        Value::Null => Ok(()),
        Value::Int(number) => out.extend_from_slice(&number.to_be_bytes()),
        Value::Big(number) => out.extend_from_slice(&number.to_be_bytes()),
        Value::Txt(text) => out.extend_from_slice(text.items().as_bytes()),
        Value::Bool(truth) => out.extend_from_slice(&[u8::from(*truth)]),
    }
}

/// Appends each value's length and bytes.
fn put_values(out: &mut Vec<u8>, values: &[Value]) -> Result<(), AllocError>
    ensures { OnOk result (out.new.items ≡ out.old.items ++ flat_map (λ v. after_length (value_bytes v)) values.now) }
{
    for value in values {
        out.extend_from_slice(&value_len(value).to_be_bytes())?;
        put_value(out, value)?;
    }
    Ok(())
}

/// The number of bytes of a value.
#[tactic(auto, unfolding(crate::specs::Text::longest_text))]
fn value_len(value: &Value) -> u32
    ensures { result ≡ length (value_bytes value.now) }
{
    match value {
        Value::Null => 0,
        Value::Int(_) => 4,
        Value::Big(_) => 8,
        Value::Txt(text) => text.items().len() as u32,
        Value::Bool(_) => 1,
    }
}

/// The hash `before`, continued over these bytes.
fn hash_bytes(before: u32, bytes: &[u8]) -> u32
    ensures { result ≡ fold hash_step before bytes.now }
{
    bytes.iter().fold(before, |hash, byte| {
        hash.wrapping_mul(31).wrapping_add(u32::from(*byte))
    })
}

/// The hash `before`, continued over the bytes of a value.
fn hash_value(before: u32, value: &Value) -> u32
    ensures { result ≡ fold hash_step before (value_bytes value.now) }
{
    match value {
        Value::Null => before,
        Value::Int(number) => hash_bytes(before, &number.to_be_bytes()),
        Value::Big(number) => hash_bytes(before, &number.to_be_bytes()),
        Value::Txt(text) => hash_bytes(before, text.items().as_bytes()),
        Value::Bool(truth) => hash_bytes(before, &[u8::from(*truth)]),
    }
}

/// The hash of the values' bytes, each after its length.
#[tactic(auto, unfolding(crate::specs::Lane::hash))]
fn hash_values(values: &[Value]) -> u32
    ensures { result ≡ spec.hash (flat_map (λ v. after_length (value_bytes v)) values.now) }
{
    let mut hash = 0;
    for value in values {
        hash = hash_bytes(hash, &value_len(value).to_be_bytes());
        hash = hash_value(hash, value);
    }
    hash
}
