use ksql_types::{CopyOf, Items, TaskName};
use std::alloc::{AllocError, Global};

/// What happened in a cluster, in order.
pub type Journal = Items<JournalEntry>;

/// An event of a run: a step of the schedule begins, on its line; a round begins; a feed; a commit; a task leaves its
/// owner, or is restored at one; a commit is refused.
#[derive(Clone, Copy, Debug, PartialEq, Eq)]
pub enum JournalEntry {
    Step {
        line: u32,
    },
    Round {
        number: u32,
    },
    Fed {
        feed: u64,
        records: u64,
    },
    Committed {
        task: TaskName,
        from: u64,
        to: u64,
    },
    Left {
        task: TaskName,
        generation: u64,
    },
    Restored {
        task: TaskName,
        worker: u32,
        generation: u64,
        done: u64,
    },
    Fenced {
        task: TaskName,
        held: u64,
        newest: u64,
    },
}

impl CopyOf for JournalEntry {
    fn copy(&self, _alloc: Global) -> Result<JournalEntry, AllocError> {
        Ok(*self)
    }
}
