use crate::stamp::{Place, Stamp};
use ksql_types::{CopyOf, Items, Key, Row, Span};
use std::alloc::{AllocError, Global};

/// The value of a record, decoded by its relation's schema.
#[derive(Debug, Drop)]
pub enum Decoded {
    Good(Row),
    Tombstone,
    Skipped,
}

/// A record that was fed: its stamp, its time in milliseconds from 0 to 2^53, its key and its value.
#[derive(Debug, Drop)]
pub struct SourceRecord {
    pub stamp: Stamp,
    pub time: u64,
    pub key: Key,
    pub value: Decoded,
}

/// The content of a change: for a stream, one more row; for a table, the row of its key before and after, if any.
#[derive(Debug, Drop)]
pub enum Body {
    Said(Row),
    Turned { old: Option<Row>, new: Option<Row> },
}

/// A change of a relation. `span` is the window if the relation is a windowed table.
#[derive(Debug, Drop)]
pub struct Change {
    pub place: Place,
    pub time: u64,
    pub key: Key,
    pub span: Option<Span>,
    pub body: Body,
}

/// The changes of a relation, in the order of their places.
pub type Changes = Items<Change>;

impl CopyOf for Decoded {
    fn copy(&self, alloc: Global) -> Result<Decoded, AllocError> {
        match self {
            Decoded::Good(row) => Ok(Decoded::Good(row.copy(alloc)?)),
            Decoded::Tombstone => Ok(Decoded::Tombstone),
            Decoded::Skipped => Ok(Decoded::Skipped),
        }
    }
}

impl CopyOf for SourceRecord {
    fn copy(&self, alloc: Global) -> Result<SourceRecord, AllocError> {
        Ok(SourceRecord {
            stamp: self.stamp,
            time: self.time,
            key: self.key.copy(alloc)?,
            value: self.value.copy(alloc)?,
        })
    }
}

impl CopyOf for Body {
    fn copy(&self, alloc: Global) -> Result<Body, AllocError> {
        match self {
            Body::Said(row) => Ok(Body::Said(row.copy(alloc)?)),
            Body::Turned { old, new } => Ok(Body::Turned {
                old: old.copy(alloc)?,
                new: new.copy(alloc)?,
            }),
        }
    }
}

impl CopyOf for Change {
    fn copy(&self, alloc: Global) -> Result<Change, AllocError> {
        Ok(Change {
            place: self.place.copy(alloc)?,
            time: self.time,
            key: self.key.copy(alloc)?,
            span: self.span,
            body: self.body.copy(alloc)?,
        })
    }
}
