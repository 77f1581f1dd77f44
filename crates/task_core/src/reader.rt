//! What a task reads of its inputs, in the order of the places.
ghost use Rattle.std.specs.Prelude.{◌≡◌, ◌++◌, ◌+◌, ◌<◌, ◌==◌, IfOk, OnOk, drop, flat_map, length, option_map, slice_get, take};
ghost use Rattle.op_chain.specs.Chain.{entries_of};
ghost use Rattle.topic_log.specs.Entries.{entries_in};
ghost use Rattle.topic_log.specs.Order.{place_of};
ghost use Rattle.task_core.specs.Readers.{IsOrdered, goes_left, left_len, pending, place_at, taken_as};

use crate::places::{Front, cmp_fronts, front_of};
use crate::whole::{push_said, push_whole};
use ksql_types::Kind;
use op_chain::Entry;
use std::alloc::{AllocError, Global};
use std::cmp::Ordering;
use topic_log::Entries;
use topology::SubInput;

/// The most entries that a reader returns at once: few, so that they stay in the processor's cache on their way through
/// the nodes.
const MOST: usize = 32;

/// The rest of what an input of a task shows, and the kind of relation that its records speak to.
#[derive(Drop)]
pub struct Rest<'a> {
    pub kind: Kind,
    pub input: SubInput,
    pub entries: Entries<'a>,
}

/// The rest of a task's inputs. Without a second input, the right side is empty.
#[derive(Drop)]
pub struct Reader<'a> {
    pub left: Rest<'a>,
    pub right: Rest<'a>,
}

impl Reader<'_> {
    /// Whether nothing is left.
    pub fn is_done(&self) -> bool
        ensures { result ≡ (left_len self.now == 0) }
    {
        self.left.is_done() && self.right.is_done()
    }

    /// The number of entries left; fails with out of memory if a usize can't count them.
    pub fn len(&self) -> Result<usize, AllocError>
        ensures { IfOk result (λ count. count ≡ left_len self.now) }
    {
        let left = self.left.len()?;
        let right = self.right.len()?;
        left.checked_add(right).ok_or(AllocError)
    }

    /// Takes the next entries, several at once.
    pub fn next(&mut self, alloc: Global) -> Result<Vec<Entry>, AllocError>
        requires order { IsOrdered self.old }
        ensures taken { IfOk result (λ made. entries_of made.items ++ pending self.new ≡ pending self.old) }
        ensures order { IsOrdered self.new }
        ensures less { OnOk result (0 < left_len self.old → left_len self.new < left_len self.old) }
    {
        let mut taken = Vec::with_capacity(alloc, MOST)?;
        while taken.len() < MOST && !self.is_done() {
            self.step(alloc, &mut taken)?;
        }
        Ok(taken)
    }

    /// Takes the entry with the next place, and appends what the task reads of it. On equal places of one relation, the
    /// left one goes first.
    fn step(&mut self, alloc: Global, taken: &mut Vec<Entry>) -> Result<(), AllocError>
        requires some { 0 < left_len self.old }
        requires order { IsOrdered self.old }
        ensures taken { OnOk result (entries_of taken.new.items ++ pending self.new ≡ entries_of taken.old.items ++ pending self.old) }
        ensures order { IsOrdered self.new }
        ensures less { left_len self.new + 1 ≡ left_len self.old }
    {
        if self.is_left_next() {
            self.left.take_first(alloc, 0, taken)
        } else {
            self.right.take_first(alloc, 1, taken)
        }
    }

    /// Whether the first entry on the left goes next.
    fn is_left_next(&self) -> bool
        ensures { let r = self.now in
            result ≡ goes_left r.left.input.relation r.right.input.relation (entries_in r.left.entries) (entries_in r.right.entries) }
    {
        let Some(right) = self.right.front() else {
            return !self.left.is_done();
        };
        let Some(left) = self.left.front() else {
            return false;
        };
        let first = self.left.input.relation;
        let second = self.right.input.relation;
        cmp_fronts(&left, first, &right, second) != Ordering::Greater
    }
}

impl Rest<'_> {
    /// Whether nothing is left.
    fn is_done(&self) -> bool
        ensures { result ≡ (length (entries_in self.now.entries) == 0) }
    {
        self.entries.fed.is_empty() && self.entries.said.is_empty()
    }

    /// The number of entries left; fails with out of memory if a usize can't count them.
    fn len(&self) -> Result<usize, AllocError>
        ensures { IfOk result (λ count. count ≡ length (entries_in self.now.entries)) }
    {
        let (fed, said) = (self.entries.fed.len(), self.entries.said.len());
        fed.checked_add(said).ok_or(AllocError)
    }

    /// The place of the first entry left, if any: a record has the empty path.
    fn front(&self) -> Option<Front<'_>>
        ensures { option_map place_at result ≡ option_map place_of (slice_get (entries_in self.now.entries) 0) }
    {
        match (self.entries.fed, self.entries.said) {
            ([record, ..], _) => Some(Front {
                stamp: &record.stamp,
                path: &[],
            }),
            ([], [change, ..]) => Some(front_of(change)),
            ([], []) => None,
        }
    }

    /// Takes the first entry, and appends what a task reads of it on a side.
    fn take_first(
        &mut self,
        alloc: Global,
        side: u32,
        taken: &mut Vec<Entry>,
    ) -> Result<(), AllocError>
        ensures kind { self.new.kind ≡ self.old.kind }
        ensures input { self.new.input ≡ self.old.input }
        ensures rest { entries_in self.new.entries ≡ drop 1 (entries_in self.old.entries) }
        ensures taken { OnOk result (entries_of taken.new.items
            ≡ entries_of taken.old.items ++ flat_map (taken_as self.old.kind side self.old.input) (take 1 (entries_in self.old.entries))) }
    {
        let columns = self.input.keys;
        match (self.entries.fed, self.entries.said) {
            ([record, rest @ ..], _) => {
                self.entries.fed = rest;
                push_said(alloc, taken, side, self.kind, columns, record)
            }
            ([], [change, rest @ ..]) => {
                self.entries.said = rest;
                push_whole(alloc, taken, side, columns, change)
            }
            ([], []) => Ok(()),
        }
    }
}
