use crate::path::Path;
use ksql_types::CopyOf;
use std::alloc::{AllocError, Global};

/// The place of a record in the order of consumption. Stamps compare field by field: the number of the feed, the
/// greatest time in the record's partition in that feed up to the record, the topic's number, the partition and the
/// offset.
#[derive(Clone, Copy, Debug, PartialEq, Eq, PartialOrd, Ord)]
pub struct Stamp {
    pub feed: u64,
    pub high: u64,
    pub topic: u32,
    pub part: u32,
    pub offset: u64,
}

/// The place of a change: the stamp of the record that caused it, and a path.
#[derive(Debug, Drop)]
pub struct Place {
    pub stamp: Stamp,
    pub path: Path,
}

impl CopyOf for Place {
    fn copy(&self, alloc: Global) -> Result<Place, AllocError> {
        Ok(Place {
            stamp: self.stamp,
            path: self.path.copy(alloc)?,
        })
    }
}
