use crate::places::record;
use crate::texts::{chars, halves, number};
use ksql_place::{Decoded, Stamp, is_skipped, said_by};
use ksql_types::{Format, Items, Key, Kind, Relation, Schema, Value};
use std::alloc::{AllocError, Global};

fn kind(text: &str) -> Kind {
    match text {
        "stream" => Kind::Stream,
        "table" => Kind::Table,
        _ => Kind::Windowed,
    }
}

/// The key 7, or none.
fn key(alloc: Global, text: &str) -> Result<Key, AllocError> {
    if text == "none" {
        return Ok(Key::of(Vec::new(alloc)));
    }
    Ok(Key::of(vec![in alloc; Value::Big(7)]?))
}

/// The value of a text: a row of the number 1 and a NULL, none, or one that couldn't be read.
fn value(alloc: Global, text: &str) -> Result<Decoded, AllocError> {
    match text {
        "row" => Ok(Decoded::Good(Items::of(vec![in alloc; Value::Int(1), Value::Null]?))),
        "tombstone" => Ok(Decoded::Tombstone),
        _ => Ok(Decoded::Skipped),
    }
}

/// What a record says, from a text `KIND KEY | VALUE`.
pub fn said(alloc: Global, text: &str) -> Result<String, AllocError> {
    let (relation, what) = halves(text);
    let (kind_name, key_name) = relation.split_once(' ').unwrap_or((relation, ""));
    let key = key(alloc, key_name)?;
    let value = value(alloc, what)?;
    let said = match said_by(kind(kind_name), &key, &value) {
        Some(Some(_)) => "a row",
        Some(None) => "a deletion",
        None => "nothing",
    };
    String::from_str(alloc, said)
}

fn table(alloc: Global, number: u32) -> Result<Relation, AllocError> {
    Ok(Relation {
        number,
        name: chars(alloc, "")?,
        kind: Kind::Table,
        schema: Schema {
            keys: Items::of(Vec::new(alloc)),
            values: Items::of(Vec::new(alloc)),
        },
        topic: chars(alloc, "")?,
        partitions: 1,
        format: Format::Json,
        declared: true,
    })
}

/// Whether the table of a number skips a record of topic 0 without a key.
pub fn skipped(alloc: Global, text: &str) -> Result<String, AllocError> {
    let stamp = Stamp {
        feed: 1,
        high: 9,
        topic: 0,
        part: 1,
        offset: 0,
    };
    let skipped = is_skipped(&table(alloc, number(text))?, &record(alloc, stamp));
    format!(in alloc; "{skipped}")
}
