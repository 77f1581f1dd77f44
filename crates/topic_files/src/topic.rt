use ksql_place::Decoded;
use ksql_types::{CopyOf, Items, Key};
use std::alloc::{AllocError, AllocFailed, Global};
use thiserror::Error;

/// A record of a topic file: its time in milliseconds from 0 to 2^53, its key and its value, a tombstone if the line
/// has none. The key is empty if the line has none, or one that isn't of the type of the relation's key; in the latter
/// case the value is skipped.
#[derive(Debug, Drop)]
pub struct Fed {
    pub time: u64,
    pub key: Key,
    pub value: Decoded,
}

/// Records in the order of their file.
pub type Feds = Items<Fed>;

/// The records of the topic file of the relation with this number.
#[derive(Debug, Drop)]
pub struct TopicLines {
    pub relation: u32,
    pub feds: Feds,
}

/// The most records and bytes that a file may have.
#[derive(Clone, Copy, Debug, PartialEq, Eq)]
pub struct Room {
    pub records: u64,
    pub bytes: u64,
}

/// Why a line is refused: it is neither blank nor a topic line, or there the file exceeds its room.
#[derive(Clone, Copy, Debug, PartialEq, Eq)]
pub enum LineWhy {
    BadLine,
    TooLarge,
}

/// Why a file can't be read: its first bad line, counted from 1, or out of memory.
#[derive(Debug, Drop, Error)]
pub enum FileFault {
    #[error("line {line}: {why:?}")]
    Refused { line: u32, why: LineWhy },
    #[error("out of memory")]
    OutOfMemory,
}

impl Room {
    ghost use Rattle.std.specs.Prelude.{◌≡◌, ◌||◌, nat_lt};

    /// Whether this many records or bytes exceed the room.
    pub(crate) fn is_passed(self, records: usize, bytes: usize) -> bool
        ensures { result ≡ (nat_lt self.records records || nat_lt self.bytes bytes) }
    {
        records as u64 > self.records || bytes as u64 > self.bytes
    }
}

impl From<AllocError> for FileFault {
    ghost use Rattle.std.specs.Prelude.{◌≡◌};
    ghost use Rattle.topic_files.specs.declared.topic.FileFault.TheVariants.{OutOfMemory};

    ghost from_gives = { λ _ fault. fault ≡ OutOfMemory };

    fn from(_error: AllocError) -> FileFault {
        FileFault::OutOfMemory
    }
}

impl<T: Drop> From<AllocFailed<T>> for FileFault {
    ghost use Rattle.std.specs.Prelude.{◌≡◌};
    ghost use Rattle.topic_files.specs.declared.topic.FileFault.TheVariants.{OutOfMemory};

    ghost from_gives = { λ _ fault. fault ≡ OutOfMemory };

    fn from(_error: AllocFailed<T>) -> FileFault {
        FileFault::OutOfMemory
    }
}

impl CopyOf for Fed {
    fn copy(&self, alloc: Global) -> Result<Fed, AllocError> {
        Ok(Fed {
            time: self.time,
            key: self.key.copy(alloc)?,
            value: self.value.copy(alloc)?,
        })
    }
}

impl CopyOf for TopicLines {
    fn copy(&self, alloc: Global) -> Result<TopicLines, AllocError> {
        Ok(TopicLines {
            relation: self.relation,
            feds: self.feds.copy(alloc)?,
        })
    }
}
