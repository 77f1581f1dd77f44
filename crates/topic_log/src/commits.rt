//! Commits to a topic: outputs join those that wait, and what is due is shown in the order of places.
ghost use Rattle.std.specs.Prelude.{◌≡◌, ◌∷◌, ◌+◌, ◌<◌, ◌≤◌, ◌++◌, ◌⊎◌, [], All, IfSome, IsTrue, length, map, option_map, slice_set, vec_capacity};
ghost use Rattle.std.specs.VecDeque.{deque_capacity};
ghost use Rattle.ksql_place.specs.Ascending.{Rises};
ghost use Rattle.ksql_place.specs.Routing.{change_cmp};
ghost use Rattle.core_state.specs.State.{after, feed_of};
ghost use Rattle.topic_log.specs.Commits.{EachCommits, EachFits, IsAlone, IsNext, IsWholeDue, PartCommits, PartFits, TopicCommits, TopicFits, due_of, first_if, goes_before, is_due, waiting_lists};
ghost use Rattle.topic_log.specs.Ready.{waiting_len};
ghost use Rattle.topic_log.specs.Shelves.{IsTopicShelf, waiting_in};

use crate::prepared::Prepared;
use crate::shelves::{PartShelf, TaskShelf, TopicShelf, closed_of};
use ksql_place::{Change, cmp_place};
use ksql_types::StoreEntry;
use std::cmp::Ordering;
use std::collections::VecDeque;
use std::mem;

/// Commits a prepared proposal to the topic that its task writes.
pub(crate) fn commit(topic: &mut TopicShelf, fed: u64, prepared: Prepared)
    requires shelf { IsTopicShelf fed topic.old }
    requires fits { TopicFits prepared topic.old }
    ensures shelf { IsTopicShelf fed topic.new }
    ensures commits { TopicCommits fed prepared topic.old topic.new }
{
    let writer = prepared.task.part as usize;
    commit_task(&mut topic.tasks[writer], prepared.to, prepared.entries);
    let closed = closed_of(&topic.tasks, fed);
    commit_parts(topic.parts.as_mut_slice(), writer, prepared.sent, closed);
}

/// Records the task's progress, and its changelog entries, for which room is reserved.
fn commit_task(task: &mut TaskShelf, to: u64, mut entries: Vec<StoreEntry>)
    requires { length task.old.logs.items + length entries.items ≤ vec_capacity task.old.logs }
    ensures done { task.new.done ≡ to }
    ensures newest { task.new.newest ≡ task.old.newest }
    ensures logs { task.new.logs.items ≡ task.old.logs.items ++ entries.items }
{
    task.done = to;
    task.logs.append(&mut entries).unwrap();
}

/// Adds what a writer sent to each partition, the last partition first.
fn commit_parts(parts: &mut [PartShelf], writer: usize, mut sent: Vec<Vec<Change>>, closed: u64)
    requires count { length sent.items ≡ length parts.old }
    requires fits { EachFits writer sent.items parts.old }
    ensures { EachCommits closed writer sent.items parts.old parts.new }
{
    while let Some(changes) = sent.pop() {
        commit_part(&mut parts[sent.len()], writer, changes, closed);
    }
}

/// Adds what a writer sent to the partition's waiting changes, and shows what is due.
fn commit_part(part: &mut PartShelf, writer: usize, sent: Vec<Change>, closed: u64)
    requires { PartFits writer sent.items part.old }
    ensures { PartCommits closed writer sent.items part.old part.new }
{
    gather(&mut part.waiting[writer], sent);
    show_due(part, closed);
}

/// Appends what was sent to the waiting changes, for which room is reserved, or replaces them if nothing waits.
fn gather(waiting: &mut VecDeque<Change>, sent: Vec<Change>)
    requires { (waiting.old.items ≡ []) ⊎ (length waiting.old.items + length sent.items ≤ deque_capacity waiting.old) }
    ensures { waiting.new.items ≡ waiting.old.items ++ sent.items }
{
    let mut sent = VecDeque::from_vec(sent);
    if waiting.is_empty() {
        *waiting = sent;
    } else {
        waiting.append(&mut sent).unwrap();
    }
}

/// The first waiting change, if its feed is closed.
fn due(changes: &VecDeque<Change>, closed: u64) -> Option<&Change>
    ensures { option_map (λ x. x.now) result ≡ first_if (is_due closed) changes.now.items }
{
    let first = changes.front()?;
    if first.place.stamp.feed <= closed {
        Some(first)
    } else {
        None
    }
}

/// Whether a change exists and comes before the best one so far, if any.
fn goes_before(change: Option<&Change>, best: Option<&Change>) -> bool
    ensures { result ≡ goes_before (option_map (λ x. x.now) change.entry) (option_map (λ x. x.now) best.entry) }
{
    match (change, best) {
        (None, _) => false,
        (Some(_), None) => true,
        (Some(change), Some(best)) => cmp_place(&change.place, &best.place) == Ordering::Less,
    }
}

/// The writer whose waiting changes begin with the next one that is due: the one with the smallest place, and on a tie
/// that of the first writer.
fn next_writer(waiting: &[VecDeque<Change>], closed: u64) -> Option<usize>
    requires { All (λ w. Rises change_cmp w.items) waiting.now }
    ensures { IsNext closed (map (λ w. w.items) waiting.now) result }
{
    let mut next = None;
    let mut best = None;
    for (writer, changes) in waiting.iter().enumerate() {
        let first = due(changes, closed);
        if goes_before(first, best) {
            next = Some(writer);
            best = first;
        }
    }
    next
}

/// Takes the first waiting change. An emptied queue gives back its memory.
fn take_first(waiting: &mut VecDeque<Change>) -> Change
    requires { 0 < length waiting.old.items }
    ensures { waiting.old.items ≡ result ∷ waiting.new.items }
{
    let first = waiting.pop_front().unwrap();
    if waiting.is_empty() {
        waiting.shrink_to_fit();
    }
    first
}

/// Shows what waits up to a closed feed, in the order of places. Room for it is reserved.
fn show_due(part: &mut PartShelf, closed: u64)
    requires ascends { All (λ w. Rises change_cmp w.items) part.old.waiting.items }
    requires room { length part.old.said.items + waiting_len part.old ≤ vec_capacity part.old.said }
    ensures fed { part.new.fed ≡ part.old.fed }
    ensures said { part.new.said.items ≡ part.old.said.items ++ due_of closed (waiting_lists part.old) }
    ensures waiting { waiting_lists part.new ≡ map (after closed) (waiting_lists part.old) }
{
    match whole_due(part, closed) {
        Some(writer) => show_whole(part, writer),
        None => show_each(part, closed),
    }
}

/// Shows what waits up to a closed feed one change at a time, in the order of places. Room for it is reserved.
fn show_each(part: &mut PartShelf, closed: u64)
    requires ascends { All (λ w. Rises change_cmp w.items) part.old.waiting.items }
    requires room { length part.old.said.items + waiting_len part.old ≤ vec_capacity part.old.said }
    ensures fed { part.new.fed ≡ part.old.fed }
    ensures said { part.new.said.items ≡ part.old.said.items ++ due_of closed (waiting_lists part.old) }
    ensures waiting { waiting_lists part.new ≡ map (after closed) (waiting_lists part.old) }
{
    while let Some(writer) = next_writer(part.waiting.as_slice(), closed) {
        let change = take_first(&mut part.waiting[writer]);
        part.said.push_reserved(change);
    }
}

/// Shows all waiting changes of a writer, in a partition that shows no change yet.
fn show_whole(part: &mut PartShelf, writer: usize)
    requires writer { writer < length part.old.waiting.items }
    ensures fed { part.new.fed ≡ part.old.fed }
    ensures said { part.new.said.items ≡ waiting_in writer part.old }
    ensures waiting { waiting_lists part.new ≡ slice_set (waiting_lists part.old) writer [] }
{
    let none = VecDeque::new(*part.said.allocator());
    part.said = mem::replace(&mut part.waiting[writer], none).into_vec();
}

/// The only writer with waiting changes, if all of them are of closed feeds and the partition shows no change yet.
fn whole_due(part: &PartShelf, closed: u64) -> Option<usize>
    requires { All (λ w. Rises change_cmp w.items) part.now.waiting.items }
    ensures { IfSome result (IsWholeDue closed part.now) }
{
    if !part.said.is_empty() {
        return None;
    }
    let writer = next_writer(part.waiting.as_slice(), closed)?;
    if is_alone(part.waiting.as_slice(), writer) && is_all_due(&part.waiting[writer], closed) {
        Some(writer)
    } else {
        None
    }
}

/// Whether only this writer has waiting changes.
fn is_alone(waiting: &[VecDeque<Change>], writer: usize) -> bool
    ensures { IsTrue result → IsAlone (map (λ w. w.items) waiting.now) writer }
{
    for (number, changes) in waiting.iter().enumerate() {
        if number != writer && !changes.is_empty() {
            return false;
        }
    }
    true
}

/// Whether ascending changes are all of closed feeds.
fn is_all_due(changes: &VecDeque<Change>, closed: u64) -> bool
    requires { Rises change_cmp changes.now.items }
    ensures { IsTrue result → All (λ x. feed_of x ≤ closed) changes.now.items }
{
    match changes.back() {
        Some(last) => last.place.stamp.feed <= closed,
        None => true,
    }
}
