//! The lines of a trace about one step.

ghost use Rattle.std.specs.Prelude.{◌≡◌, ◌++◌, [], OnOk, string_bytes};
ghost use Rattle.std.specs.List.{list_any};
ghost use Rattle.std.specs.Option.{option_map_or};
ghost use Rattle.trace_text.specs.Trace.{is_leaving, moved_line, own_lines, progress_line, worker_line};

use core_state::JournalEntry;
use ksql_types::TaskName;
use std::alloc::AllocError;
use topology::Step;

/// Appends the line of a feed, a round or a commit, and nothing for other entries.
#[tactic(auto, using(crate::proofs::Texts::appends), unfolding(crate::specs::Trace::progress_line, crate::specs::Trace::task_text))]
pub fn push_progress(out: &mut String, entry: &JournalEntry) -> Result<(), AllocError>
    ensures { OnOk result (string_bytes out.new ≡ string_bytes out.old ++ progress_line entry.now) }
{
    match entry {
        JournalEntry::Fed { feed, records } => writeln!(out, "feed {feed} records {records}"),
        JournalEntry::Round { number } => writeln!(out, "round {number}"),
        JournalEntry::Committed { task, from, to } => {
            writeln!(out, "commit {}_{} {from} {to}", task.sub, task.part)
        }
        _ => Ok(()),
    }
}

/// Appends the line of a refused commit or of a restored task, and nothing for other entries.
#[tactic(auto, using(crate::proofs::Texts::appends), unfolding(crate::specs::Trace::moved_line, crate::specs::Trace::task_text))]
pub fn push_moved(out: &mut String, entry: &JournalEntry) -> Result<(), AllocError>
    ensures { OnOk result (string_bytes out.new ≡ string_bytes out.old ++ moved_line entry.now) }
{
    match entry {
        JournalEntry::Fenced { task, held, newest } => writeln!(
            out,
            "fenced {}_{} held {held} newest {newest}",
            task.sub, task.part
        ),
        JournalEntry::Restored {
            task,
            worker,
            generation,
            done,
        } => writeln!(
            out,
            "restore {}_{} worker {worker} generation {generation} at {done}",
            task.sub, task.part
        ),
        _ => Ok(()),
    }
}

/// Appends the lines about what a step of the schedule itself did, given the entries of what happened in it.
#[tactic(auto, using(crate::proofs::Texts::appends), unfolding(crate::specs::Trace::own_lines, crate::specs::Trace::task_text))]
pub fn push_own(out: &mut String, step: &Step, happened: &[JournalEntry]) -> Result<(), AllocError>
    ensures { OnOk result (string_bytes out.new ≡ string_bytes out.old ++ own_lines step.now happened.now) }
{
    match step {
        Step::Round { lost, stalled } => {
            push_some_worker(out, "gone", *lost)?;
            push_some_worker(out, "stall", *stalled)
        }
        Step::Start(worker) => push_worker(out, "start", *worker),
        Step::Stop(worker) => push_worker(out, "stop", *worker),
        Step::Wake(worker) => push_worker(out, "wake", *worker),
        Step::Lose(task) if has_left(*task, happened) => {
            writeln!(out, "lose {}_{}", task.sub, task.part)
        }
        Step::Lose(_) | Step::FeedAll | Step::Feed(_) | Step::Drain => Ok(()),
    }
}

/// Whether a task left its owner.
fn has_left(task: TaskName, happened: &[JournalEntry]) -> bool
    ensures { result ≡ list_any (is_leaving task) happened.now }
{
    happened.iter().any(|entry| is_leaving(task, entry))
}

/// Whether an entry records that a task left its owner.
fn is_leaving(task: TaskName, entry: &JournalEntry) -> bool
    ensures { result ≡ is_leaving task entry.now }
{
    match entry {
        JournalEntry::Left { task: left, .. } => left.sub == task.sub && left.part == task.part,
        _ => false,
    }
}

/// Appends the line about what became of a worker, if there is one.
fn push_some_worker(out: &mut String, word: &str, worker: Option<u32>) -> Result<(), AllocError>
    ensures { OnOk result (string_bytes out.new ≡ string_bytes out.old ++ option_map_or (worker_line word.now) worker []) }
{
    match worker {
        Some(worker) => push_worker(out, word, worker),
        None => Ok(()),
    }
}

/// Appends the line about what became of a worker.
#[tactic(auto, using(crate::proofs::Texts::appends), unfolding(crate::specs::Trace::worker_line))]
fn push_worker(out: &mut String, word: &str, worker: u32) -> Result<(), AllocError>
    ensures { OnOk result (string_bytes out.new ≡ string_bytes out.old ++ worker_line word.now worker) }
{
    writeln!(out, "{word} {worker}")
}
