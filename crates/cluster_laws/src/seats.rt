//! Tasks at their workers.

use task_core::{Moved, Task};

/// A task and the number of the worker that owns it.
#[derive(Drop)]
pub struct Seat {
    pub worker: u32,
    pub task: Task,
}

/// A task after a round, what it proposes, and the worker that owns it.
#[derive(Drop)]
pub struct Ran {
    pub worker: u32,
    pub moved: Moved,
}
