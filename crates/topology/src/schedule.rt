use ksql_types::{CopyOf, Items, TaskName};
use std::alloc::{AllocError, Global};

/// The steps of a run, each with its line in the schedule's file, counted from 1.
#[derive(Debug, Drop)]
pub struct Schedule {
    pub steps: Steps,
}

/// Steps, in order.
pub type Steps = Items<Lined>;

/// A step and its line.
#[derive(Debug, Drop)]
pub struct Lined {
    pub line: u32,
    pub step: Step,
}

/// How many of the next records of a topic's file to feed.
#[derive(Clone, Copy, Debug, PartialEq, Eq)]
pub struct Count {
    pub topic: u32,
    pub n: u64,
}

/// The counts of one feed, at most one per topic.
pub type Counts = Items<Count>;

/// A step of a run: a feed of all remaining records, or of some from each file; a round, in which a worker may be lost
/// or may stall; a worker that comes, goes or wakes; the loss of a task; and a drain, which is as many rounds as the
/// topology's chain.
#[derive(Debug, Drop)]
pub enum Step {
    FeedAll,
    Feed(Counts),
    Round {
        lost: Option<u32>,
        stalled: Option<u32>,
    },
    Start(u32),
    Stop(u32),
    Lose(TaskName),
    Wake(u32),
    Drain,
}

impl CopyOf for Count {
    fn copy(&self, _alloc: Global) -> Result<Count, AllocError> {
        Ok(*self)
    }
}

impl CopyOf for Step {
    fn copy(&self, alloc: Global) -> Result<Step, AllocError> {
        match self {
            Step::FeedAll => Ok(Step::FeedAll),
            Step::Feed(counts) => Ok(Step::Feed(counts.copy(alloc)?)),
            Step::Round { lost, stalled } => Ok(Step::Round {
                lost: *lost,
                stalled: *stalled,
            }),
            Step::Start(worker) => Ok(Step::Start(*worker)),
            Step::Stop(worker) => Ok(Step::Stop(*worker)),
            Step::Lose(task) => Ok(Step::Lose(*task)),
            Step::Wake(worker) => Ok(Step::Wake(*worker)),
            Step::Drain => Ok(Step::Drain),
        }
    }
}

impl CopyOf for Lined {
    fn copy(&self, alloc: Global) -> Result<Lined, AllocError> {
        Ok(Lined {
            line: self.line,
            step: self.step.copy(alloc)?,
        })
    }
}

impl CopyOf for Schedule {
    fn copy(&self, alloc: Global) -> Result<Schedule, AllocError> {
        Ok(Schedule {
            steps: self.steps.copy(alloc)?,
        })
    }
}
