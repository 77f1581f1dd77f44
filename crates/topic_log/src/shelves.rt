ghost use Rattle.std.specs.Prelude.{◌≡◌};
ghost use Rattle.core_state.specs.State.{lowest};

use ksql_place::{Change, SourceRecord};
use ksql_types::{StoreEntry, TopicSpec};
use std::collections::VecDeque;

/// What a partition shows, borrowed: the records that were fed to it, or the changes that tasks sent.
#[derive(Clone, Copy, Drop)]
pub struct Entries<'a> {
    pub fed: &'a [SourceRecord],
    pub said: &'a [Change],
}

/// A partition of a topic: the records that were fed to it, or the tasks' changes that it shows and, for each writing
/// task by its partition, those that wait.
#[derive(Drop)]
pub struct PartShelf {
    pub fed: Vec<SourceRecord>,
    pub said: Vec<Change>,
    pub waiting: Vec<VecDeque<Change>>,
}

/// The data kept for a task that writes a topic.
#[derive(Drop)]
pub struct TaskShelf {
    pub done: u64,
    pub newest: u64,
    pub logs: Vec<StoreEntry>,
}

/// A topic, its partitions, and the tasks that write it, by their partitions.
#[derive(Drop)]
pub struct TopicShelf {
    pub spec: TopicSpec,
    pub parts: Vec<PartShelf>,
    pub tasks: Vec<TaskShelf>,
}

/// All topics, by number.
#[derive(Drop)]
pub struct Shelves {
    pub fed: u64,
    pub topics: Vec<TopicShelf>,
}

/// The least feed that all tasks have committed, or `fed` if there are no tasks.
pub(crate) fn closed_of(tasks: &[TaskShelf], fed: u64) -> u64
    ensures { result ≡ lowest fed (λ k. k.done) tasks.now }
{
    let Some(first) = tasks.first() else {
        return fed;
    };
    let mut least = first.done;
    for task in tasks {
        least = least.min(task.done);
    }
    least
}
