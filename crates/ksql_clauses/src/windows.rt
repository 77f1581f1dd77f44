//! Windows, in milliseconds.

ghost use Rattle.std.specs.Prelude.{◌≡◌, ◌<◌, ◌^◌, false};
ghost use Rattle.ksql_clauses.specs.Windows as spec;

use ksql_types::Window;
use statement_trees::{SpanText, Unit, WindowText};

/// The longest span of a window, 2^53 milliseconds.
const LONGEST_SPAN: u128 = 9_007_199_254_740_992;

/// The most windows that one record can be in.
const MOST_WINDOWS: u128 = 64;

/// The GRACE PERIOD if none is written: 24 hours.
const GRACE: u128 = 86_400_000;

/// The length of a span in milliseconds.
fn millis(span: SpanText) -> u128
    ensures value { result ≡ spec.millis span }
    ensures bound { result < 2 ^ 96 }
{
    let digits = u128::from(span.digits);
    match span.unit {
        Unit::Day => digits * 86_400_000,
        Unit::Hour => digits * 3_600_000,
        Unit::Minute => digits * 60_000,
        Unit::Second => digits * 1_000,
        Unit::Millisecond => digits,
    }
}

fn grace_millis(grace: Option<SpanText>) -> u128
    ensures value { result ≡ spec.grace_millis grace }
    ensures bound { result < 2 ^ 96 }
{
    match grace {
        None => GRACE,
        Some(grace) => millis(grace),
    }
}

fn is_long(span: SpanText) -> bool
    ensures { result ≡ spec.is_long span }
{
    LONGEST_SPAN < millis(span)
}

fn has_long(span: Option<SpanText>) -> bool
    ensures { result ≡ spec.has_long span }
{
    match span {
        None => false,
        Some(span) => is_long(span),
    }
}

fn has_many(size: SpanText, advance: SpanText) -> bool
    ensures { result ≡ spec.has_many size advance }
{
    let advance = millis(advance);
    0 < advance && MOST_WINDOWS * advance < millis(size)
}

/// Whether a window exceeds a limit: a span is above 2^53 milliseconds, or a record has more than 64 windows.
pub fn is_too_large(window: &WindowText) -> bool
    ensures { result ≡ spec.is_too_large window.now }
{
    match *window {
        WindowText::Tumbling {
            size,
            retention,
            grace,
        } => is_long(size) || has_long(retention) || has_long(grace),
        WindowText::Hopping {
            size,
            advance,
            retention,
            grace,
        } => {
            is_long(size)
                || is_long(advance)
                || has_long(retention)
                || has_long(grace)
                || has_many(size, advance)
        }
    }
}

fn keeps_too_little(size: SpanText, retention: Option<SpanText>, grace: Option<SpanText>) -> bool
    ensures { result ≡ spec.keeps_too_little size retention grace }
{
    match retention {
        None => false,
        Some(retention) => millis(retention) < millis(size) + grace_millis(grace),
    }
}

/// Whether a window is invalid: its size or advance is 0, it advances by more than its size, or its retention is
/// shorter than the window and its grace.
pub fn is_bad(window: &WindowText) -> bool
    ensures { result ≡ spec.is_bad window.now }
{
    match *window {
        WindowText::Tumbling {
            size,
            retention,
            grace,
        } => millis(size) == 0 || keeps_too_little(size, retention, grace),
        WindowText::Hopping {
            size,
            advance,
            retention,
            grace,
        } => {
            millis(size) == 0
                || millis(advance) == 0
                || millis(size) < millis(advance)
                || keeps_too_little(size, retention, grace)
        }
    }
}

/// The window as written, in milliseconds; a tumbling window advances by its size.
pub fn window_of(window: &WindowText) -> Window
    requires { spec.is_too_large window.now ≡ false }
    ensures { result ≡ spec.window_of window.now }
{
    let (size, advance, grace) = match *window {
        WindowText::Tumbling { size, grace, .. } => (size, size, grace),
        WindowText::Hopping {
            size,
            advance,
            grace,
            ..
        } => (size, advance, grace),
    };
    Window {
        size: millis(size) as u64,
        advance: millis(advance) as u64,
        grace: grace_millis(grace) as u64,
    }
}
