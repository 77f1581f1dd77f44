//! The windows of a time.
ghost use Rattle.std.specs.Prelude.{◌≡◌, ℕ, ◌+◌, ◌*◌, ◌/◌, ◌<◌, ◌≤◌, ◌^◌, IfOk, IsTrue, length};
ghost use Rattle.ksql_nodes.specs.Windows.{windows_of};
ghost use Rattle.agg_ops.specs.Totals.{is_sound_window};

use ksql_types::{Span, Window};
use std::alloc::{AllocError, Global};

/// The windows that contain a time, by ascending start. Windows that end earlier cost nothing.
pub(crate) fn windows_of(alloc: Global, window: Window, time: u64) -> Result<Vec<Span>, AllocError>
    requires sound { IsTrue (is_sound_window window) }
    requires time { time ≤ 2 ^ 53 }
    ensures spans { IfOk result (λ spans. spans.items ≡ windows_of window time) }
    ensures few { IfOk result (λ spans. length spans.items ≤ 64) }
{
    let first = first_open(window, time);
    let count = (time / window.advance + 1).saturating_sub(first);
    let mut spans = Vec::with_capacity(alloc, count as usize)?;
    for number in first..time / window.advance + 1 {
        let start = number * window.advance;
        let end = start + window.size;
        spans.push(Span { start, end })?;
    }
    Ok(spans)
}

/// The number of the first window that ends after a time.
fn first_open(window: Window, time: u64) -> u64
    requires sound { IsTrue (is_sound_window window) }
    requires time { time ≤ 2 ^ 53 }
    ensures over { (number : ℕ) → number < result → number * window.advance + window.size ≤ time }
    ensures lasts { time < result * window.advance + window.size }
    ensures few { time / window.advance + 1 ≤ result + 64 }
{
    if time < window.size {
        0
    } else {
        (time - window.size) / window.advance + 1
    }
}
