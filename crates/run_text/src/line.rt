//! The lines of a relation's section.

ghost use Rattle.std.specs.Prelude.{◌≡◌, is_some, option_map};
ghost use Rattle.ksql_place.specs.Said.{row_in};
ghost use Rattle.run_text.specs.Lines.{fed_in, key_of, row_brought, row_of, shown_of, span_of, time_of};
ghost use Rattle.run_text.specs.Printed.{shown_in};

use ksql_place::{Body, Change, Decoded, SourceRecord};
use ksql_types::{Span, Value};

/// A line of a relation's section: a change, and its partition.
#[derive(Clone, Copy, Drop)]
pub struct Line<'a> {
    pub part: u32,
    pub told: Told<'a>,
}

/// The change on a line, borrowed, or the record that brings it.
#[derive(Clone, Copy, Drop)]
pub enum Told<'a> {
    Change(&'a Change),
    Record(&'a SourceRecord),
}

impl<'a> Line<'a> {
    /// The line of a change, in this partition.
    pub fn of_change(part: u32, change: &'a Change) -> Line<'a>
        ensures { shown_of result ≡ shown_in part change.now }
    {
        Line {
            part,
            told: Told::Change(change),
        }
    }

    /// The line of what a record brings, in this partition.
    pub fn of_record(part: u32, fed: &'a SourceRecord) -> Line<'a>
        ensures { shown_of result ≡ fed_in part fed.now }
    {
        Line {
            part,
            told: Told::Record(fed),
        }
    }
}

impl<'a> Told<'a> {
    /// The time of the change.
    pub fn time(self) -> u64
        ensures { result ≡ time_of self.entry }
    {
        match self {
            Told::Change(change) => change.time,
            Told::Record(fed) => fed.time,
        }
    }

    /// Its key.
    pub fn key(self) -> &'a [Value]
        ensures { result.now ≡ key_of self.entry }
    {
        match self {
            Told::Change(change) => change.key.items(),
            Told::Record(fed) => fed.key.items(),
        }
    }

    /// Its window, if any.
    pub fn span(self) -> Option<Span>
        ensures { result ≡ span_of self.entry }
    {
        match self {
            Told::Change(change) => change.span,
            Told::Record(_) => None,
        }
    }

    /// The row that it leaves, if any.
    pub fn row(self) -> Option<&'a [Value]>
        ensures { option_map (λ row. row.now) result ≡ row_of self.entry }
    {
        match self {
            Told::Change(change) => row_in(&change.body),
            Told::Record(fed) => row_brought(&fed.value),
        }
    }

    /// Whether it leaves a row.
    pub fn has_row(self) -> bool
        ensures { result ≡ is_some (row_of self.entry) }
    {
        self.row().is_some()
    }
}

/// The row that a change brings, if any.
fn row_in(body: &Body) -> Option<&[Value]>
    ensures { option_map (λ row. row.now) result ≡ row_in body.now }
{
    match body {
        Body::Said(row) => Some(row.items()),
        Body::Turned { new: Some(row), .. } => Some(row.items()),
        Body::Turned { new: None, .. } => None,
    }
}

/// The row that a record brings, if any.
fn row_brought(value: &Decoded) -> Option<&[Value]>
    ensures { option_map (λ row. row.now) result ≡ row_brought value.now }
{
    match value {
        Decoded::Good(row) => Some(row.items()),
        Decoded::Tombstone | Decoded::Skipped => None,
    }
}
