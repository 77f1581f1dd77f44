//! The topics of a broker before the first feed.
ghost use Rattle.std.specs.Prelude.{◌≡◌, ℕ, [], length, All, IfOk, OnOk, Some, if◌then◌else◌, unwrap_or};
ghost use Rattle.std.specs.BTreeMap.{get};
ghost use Rattle.std.specs.List.{AllZip};
ghost use Rattle.std.specs.Ordering.{nat_cmp};
ghost use Rattle.core_state.specs.Routes.{is_written_by, topic_from};
ghost use Rattle.topic_log.specs.Opening.{IsEmptyPart, IsFreshTask, IsFreshTopic, task_count};
ghost use Rattle.topic_log.specs.Shelves.{AreTopics};

use crate::shelves::{PartShelf, TaskShelf, TopicShelf};
use ksql_place::Change;
use ksql_types::{CopyOf, TopicSpec};
use std::alloc::{AllocError, Global};
use std::collections::{BTreeMap, VecDeque};

/// Topics with empty partitions and fresh tasks.
pub(crate) fn fresh_topics(
    alloc: Global,
    topics: &[TopicSpec],
) -> Result<Vec<TopicShelf>, AllocError>
    ensures { IfOk result (λ fresh. AllZip IsFreshTopic topics.now fresh.items) }
{
    let mut fresh = Vec::new(alloc);
    for topic in topics {
        fresh.push(fresh_topic(alloc, topic)?)?;
    }
    Ok(fresh)
}

/// A topic with empty partitions and fresh tasks.
fn fresh_topic(alloc: Global, topic: &TopicSpec) -> Result<TopicShelf, AllocError>
    ensures { IfOk result (IsFreshTopic topic.now) }
{
    let writers = task_count(topic);
    Ok(TopicShelf {
        spec: topic.copy(alloc)?,
        parts: empty_parts(alloc, topic.partitions, writers)?,
        tasks: fresh_tasks(alloc, writers)?,
    })
}

/// The number of tasks that write a topic.
fn task_count(topic: &TopicSpec) -> u32
    ensures { result ≡ task_count topic.now }
{
    match &topic.writer {
        None => 0,
        Some(writer) => writer.partitions,
    }
}

/// `count` empty partitions, written by `writers` tasks.
fn empty_parts(alloc: Global, count: u32, writers: u32) -> Result<Vec<PartShelf>, AllocError>
    ensures count { IfOk result (λ parts. length parts.items ≡ count) }
    ensures empty { IfOk result (λ parts. All (IsEmptyPart writers) parts.items) }
{
    let mut parts = Vec::new(alloc);
    for _ in 0..count {
        parts.push(PartShelf {
            fed: Vec::new(alloc),
            said: Vec::new(alloc),
            waiting: empty_waiting(alloc, writers)?,
        })?;
    }
    Ok(parts)
}

/// Empty queues, one for each of `writers` tasks.
fn empty_waiting(alloc: Global, writers: u32) -> Result<Vec<VecDeque<Change>>, AllocError>
    ensures count { IfOk result (λ waiting. length waiting.items ≡ writers) }
    ensures empty { IfOk result (λ waiting. All (λ w. w.items ≡ []) waiting.items) }
{
    let mut waiting = Vec::new(alloc);
    for _ in 0..writers {
        waiting.push(VecDeque::new(alloc))?;
    }
    Ok(waiting)
}

/// `count` tasks that have committed nothing.
fn fresh_tasks(alloc: Global, count: u32) -> Result<Vec<TaskShelf>, AllocError>
    ensures count { IfOk result (λ tasks. length tasks.items ≡ count) }
    ensures fresh { IfOk result (λ tasks. All IsFreshTask tasks.items) }
{
    let mut tasks = Vec::new(alloc);
    for _ in 0..count {
        tasks.push(TaskShelf {
            done: 0,
            newest: 1,
            logs: Vec::new(alloc),
        })?;
    }
    Ok(tasks)
}

/// The number of the topic that each sub-topology writes.
pub(crate) fn written_topics(
    alloc: Global,
    topics: &[TopicSpec],
) -> Result<BTreeMap<u32, u32>, AllocError>
    requires { AreTopics topics.now }
    ensures { IfOk result (λ written. (sub : ℕ) → unwrap_or (get nat_cmp written sub) (length topics.now) ≡ topic_from 0 topics.now sub) }
{
    let mut written = BTreeMap::new(alloc);
    let mut after = topics.len();
    while after > 0 {
        after -= 1;
        note_writer(&mut written, &topics[after])?;
    }
    Ok(written)
}

/// Records the topic that a sub-topology writes, if the topic has a writer.
fn note_writer(written: &mut BTreeMap<u32, u32>, topic: &TopicSpec) -> Result<(), AllocError>
    ensures { OnOk result ((sub : ℕ) → get nat_cmp written.new sub
        ≡ (if is_written_by sub topic.now.writer then Some topic.now.number else get nat_cmp written.old sub)) }
{
    if let Some(writer) = &topic.writer {
        written.insert(writer.sub, topic.number)?;
    }
    Ok(())
}
