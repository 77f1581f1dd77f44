use crate::Bytes;
use crate::chars::Chars;
use crate::copying::CopyOf;
use crate::items::Items;
use crate::value::SqlType;
use std::alloc::{AllocError, Global};

/// A column: its name and its type.
#[derive(Debug, Drop)]
pub struct Column {
    pub name: Chars,
    pub ty: SqlType,
}

/// Columns, in order.
pub type Columns = Items<Column>;

/// The columns of a relation: key columns first, then value columns.
#[derive(Debug, Drop)]
pub struct Schema {
    pub keys: Columns,
    pub values: Columns,
}

/// The kind of a relation: a stream, a table, or a table whose rows have a window.
#[derive(Clone, Copy, Debug, PartialEq, Eq)]
pub enum Kind {
    Stream,
    Table,
    Windowed,
}

/// The format of a topic's values.
#[derive(Clone, Copy, Debug, PartialEq, Eq)]
pub enum Format {
    Json,
    Delimited,
}

/// A stream or a table of a script. Its number is its index among the script's relations, and its topic has the same
/// number. `partitions` is 1 to 64. `declared` is false for the result of a query.
#[derive(Debug, Drop)]
pub struct Relation {
    pub number: u32,
    pub name: Chars,
    pub kind: Kind,
    pub schema: Schema,
    pub topic: Chars,
    pub partitions: u32,
    pub format: Format,
    pub declared: bool,
}

/// A window: its start inclusive and its end exclusive, in milliseconds.
#[derive(Clone, Copy, Debug, PartialEq, Eq)]
pub struct Span {
    pub start: u64,
    pub end: u64,
}

/// The windows of a grouped query, in milliseconds: they start at multiples of `advance` and last `size`. A record is
/// too late for a window that ended `grace` before stream time.
#[derive(Clone, Copy, Debug, PartialEq, Eq)]
pub struct Window {
    pub size: u64,
    pub advance: u64,
    pub grace: u64,
}

/// A task: partition `part` of sub-topology `sub`.
#[derive(Clone, Copy, Debug, PartialEq, Eq, PartialOrd, Ord)]
pub struct TaskName {
    pub sub: u32,
    pub part: u32,
}

/// A committed change of one key of a state store: its new value, or None if it is deleted. `store` is 0 for `left`, 1
/// for `right` and 2 for `aggregate`.
#[derive(Debug, Drop)]
pub struct StoreEntry {
    pub store: u32,
    pub key: Bytes,
    pub value: Option<Bytes>,
}

/// Entries in the order in which they were written.
pub type Changelog = Items<StoreEntry>;

impl CopyOf for Column {
    fn copy(&self, alloc: Global) -> Result<Column, AllocError> {
        Ok(Column {
            name: self.name.copy(alloc)?,
            ty: self.ty,
        })
    }
}

impl CopyOf for Schema {
    fn copy(&self, alloc: Global) -> Result<Schema, AllocError> {
        Ok(Schema {
            keys: self.keys.copy(alloc)?,
            values: self.values.copy(alloc)?,
        })
    }
}

impl CopyOf for Relation {
    fn copy(&self, alloc: Global) -> Result<Relation, AllocError> {
        Ok(Relation {
            number: self.number,
            name: self.name.copy(alloc)?,
            kind: self.kind,
            schema: self.schema.copy(alloc)?,
            topic: self.topic.copy(alloc)?,
            partitions: self.partitions,
            format: self.format,
            declared: self.declared,
        })
    }
}

impl CopyOf for StoreEntry {
    fn copy(&self, alloc: Global) -> Result<StoreEntry, AllocError> {
        Ok(StoreEntry {
            store: self.store,
            key: self.key.copy(alloc)?,
            value: self.value.copy(alloc)?,
        })
    }
}
