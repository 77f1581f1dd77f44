use ksql_place::{Change, Changes, SourceRecord};
use ksql_types::{Changelog, CopyOf, TaskName};
use std::alloc::{AllocError, Global};

/// An entry of a topic: a record that was fed, or a change that a task sent.
#[derive(Debug, Drop)]
pub enum LogEntry {
    Fed(SourceRecord),
    Said(Change),
}

/// What a task offers to commit: its results for the feeds after `from` up to `to`, in the order of their places, and
/// the changes of its stores.
#[derive(Debug, Drop)]
pub struct Proposal {
    pub task: TaskName,
    pub generation: u64,
    pub from: u64,
    pub to: u64,
    pub outputs: Changes,
    pub entries: Changelog,
}

impl CopyOf for LogEntry {
    fn copy(&self, alloc: Global) -> Result<LogEntry, AllocError> {
        match self {
            LogEntry::Fed(record) => Ok(LogEntry::Fed(record.copy(alloc)?)),
            LogEntry::Said(change) => Ok(LogEntry::Said(change.copy(alloc)?)),
        }
    }
}

impl CopyOf for Proposal {
    fn copy(&self, alloc: Global) -> Result<Proposal, AllocError> {
        Ok(Proposal {
            task: self.task,
            generation: self.generation,
            from: self.from,
            to: self.to,
            outputs: self.outputs.copy(alloc)?,
            entries: self.entries.copy(alloc)?,
        })
    }
}
