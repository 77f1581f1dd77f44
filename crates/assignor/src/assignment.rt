use ksql_types::{CopyOf, Items, TaskName};
use std::alloc::{AllocError, Global};

/// A task and the number of the worker that owns it.
#[derive(Clone, Copy, Debug, PartialEq, Eq)]
pub struct Owned {
    pub task: TaskName,
    pub worker: u32,
}

/// Tasks and their owners. `assign` returns them in task order; a task it leaves out has no owner.
pub type Assignment = Items<Owned>;

/// Each worker's share: `low` tasks, and one more for `extra` of the workers.
#[derive(Clone, Copy, Debug)]
pub struct Share {
    pub low: usize,
    pub extra: usize,
}

impl CopyOf for Owned {
    fn copy(&self, _alloc: Global) -> Result<Owned, AllocError> {
        Ok(*self)
    }
}
