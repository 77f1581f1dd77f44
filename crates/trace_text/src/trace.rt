//! The trace: each step of a journal, next to the step of the schedule.

ghost use Rattle.std.specs.Prelude.{◌≡◌, ◌++◌, ◌≤◌, [], OnOk, drop, flat_map, length, option_map, slice_get, string_bytes};
ghost use Rattle.std.specs.List.{before_first, position_or_len};
ghost use Rattle.std.specs.Option.{option_map_or};
ghost use Rattle.trace_text.specs.Trace.{blocks_of, blocks_text, is_step, moved_line, own_lines, planned_steps, progress_line, step_text, trace_of};

use crate::lines::{push_moved, push_own, push_progress};
use core_state::JournalEntry;
use std::alloc::AllocError;
use topology::{Lined, Step};

/// Appends the trace of a run: the line `trace`, and then each step of the journal with what happened up to the next
/// one. The journal's first step is the first assignment, which isn't in the schedule; each later step is that of the
/// next line. If the two don't fit, steps after the last line have only what their entries say, and lines that the
/// journal doesn't reach are left out, as are entries before its first step.
#[tactic(auto, using(crate::proofs::Texts::appends), unfolding(crate::specs::Trace::trace_of))]
pub fn push_trace(
    out: &mut String,
    journal: &[JournalEntry],
    steps: &[Lined],
) -> Result<(), AllocError>
    ensures { OnOk result (string_bytes out.new ≡ string_bytes out.old ++ trace_of journal.now steps.now) }
{
    out.push_str("trace\n")?;
    push_steps(out, journal, steps)
}

/// Appends the lines of each step of a journal. Its first step isn't in the schedule.
fn push_steps(out: &mut String, journal: &[JournalEntry], steps: &[Lined]) -> Result<(), AllocError>
    ensures { OnOk result (string_bytes out.new ≡ string_bytes out.old ++ blocks_text (blocks_of journal.now) (planned_steps steps.now)) }
{
    let mut steps = steps;
    let mut step = None;
    for (index, entry) in journal.iter().enumerate() {
        if let JournalEntry::Step { line } = entry {
            push_step(out, *line, step, up_to_step(&journal[index + 1..]))?;
            (step, steps) = next_step(steps);
        }
    }
    Ok(())
}

/// The first of some steps, if any, and the others.
fn next_step(steps: &[Lined]) -> (Option<&Step>, &[Lined])
    ensures first { option_map (λ s. s.now) result.0 ≡ option_map (λ l. l.step) (slice_get steps.now 0) }
    ensures others { result.1.now ≡ drop 1 steps.now }
{
    match steps {
        [next, others @ ..] => (Some(&next.step), others),
        [] => (None, steps),
    }
}

/// The entries before the next step.
fn up_to_step(later: &[JournalEntry]) -> &[JournalEntry]
    ensures { result.now ≡ before_first is_step later.now }
{
    &later[..count_to_step(later)]
}

/// The number of entries before the next step.
fn count_to_step(later: &[JournalEntry]) -> usize
    ensures value { result ≡ position_or_len is_step later.now }
    ensures within { result ≤ length later.now }
{
    later.iter().take_while(|entry| !is_step(entry)).count()
}

/// Whether an entry begins a step.
fn is_step(entry: &JournalEntry) -> bool
    ensures { result ≡ is_step entry.now }
{
    matches!(entry, JournalEntry::Step { .. })
}

/// Appends the lines of a step, which is `step` of the schedule, if any.
#[tactic(auto, using(crate::proofs::Texts::appends), unfolding(crate::specs::Trace::step_text))]
fn push_step(
    out: &mut String,
    line: u32,
    step: Option<&Step>,
    happened: &[JournalEntry],
) -> Result<(), AllocError>
    ensures { OnOk result (string_bytes out.new ≡ string_bytes out.old
        ++ step_text line (option_map (λ s. s.now) step.entry) happened.now) }
{
    writeln!(out, "step {line}")?;
    push_all_progress(out, happened)?;
    push_some_own(out, step, happened)?;
    push_all_moved(out, happened)
}

/// Appends the lines of the feeds, rounds and commits of a step.
fn push_all_progress(out: &mut String, happened: &[JournalEntry]) -> Result<(), AllocError>
    ensures { OnOk result (string_bytes out.new ≡ string_bytes out.old ++ flat_map progress_line happened.now) }
{
    for entry in happened {
        push_progress(out, entry)?;
    }
    Ok(())
}

/// Appends the lines about what a step of the schedule itself did, if there is one.
fn push_some_own(
    out: &mut String,
    step: Option<&Step>,
    happened: &[JournalEntry],
) -> Result<(), AllocError>
    ensures { OnOk result (string_bytes out.new ≡ string_bytes out.old
        ++ option_map_or (λ s. own_lines s happened.now) (option_map (λ s. s.now) step.entry) []) }
{
    match step {
        Some(step) => push_own(out, step, happened),
        None => Ok(()),
    }
}

/// Appends the lines of a step's refused commits and restored tasks.
fn push_all_moved(out: &mut String, happened: &[JournalEntry]) -> Result<(), AllocError>
    ensures { OnOk result (string_bytes out.new ≡ string_bytes out.old ++ flat_map moved_line happened.now) }
{
    for entry in happened {
        push_moved(out, entry)?;
    }
    Ok(())
}
