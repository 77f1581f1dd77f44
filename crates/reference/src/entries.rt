//! Entries that are lent.
ghost use Rattle.std.specs.Prelude.{◌≡◌, IfOk, map, option_map};
ghost use Rattle.ksql_place.specs.Said.{row_in};
ghost use Rattle.ksql_nodes.specs.Entries.{latest_time, of_key, row_after};
ghost use Rattle.reference.specs.Steps.{entry_of};

use ksql_place::Change;
use ksql_types::{Key, Row};
use row_steps::{is_same_key, row_in};
use std::alloc::{AllocError, Global};

/// An entry of a step, borrowed: a change, and the side that it comes in on (1 is the right side of a join).
#[derive(Clone, Copy)]
pub struct EntryRef<'a> {
    pub side: u32,
    pub change: &'a Change,
}

/// The entries with a key.
pub fn of_key<'a>(
    alloc: Global,
    key: &Key,
    entries: &[EntryRef<'a>],
) -> Result<Vec<EntryRef<'a>>, AllocError>
    ensures { IfOk result (λ mine. map entry_of mine.items ≡ of_key key.now (map entry_of entries.now)) }
{
    let mut mine = Vec::new(alloc);
    for entry in entries {
        if is_same_key(&entry.change.key, key) {
            mine.push(*entry)?;
        }
    }
    Ok(mine)
}

/// The row that the last of these entries leaves, if any.
pub fn row_after<'a>(entries: &[EntryRef<'a>]) -> Option<&'a Row>
    ensures { option_map (λ row. row.now) result ≡ row_after (map entry_of entries.now) }
{
    match entries.last() {
        Some(last) => row_in(&last.change.body),
        None => None,
    }
}

/// The latest time of these entries; 0 if there are none.
pub fn latest_time(entries: &[EntryRef]) -> u64
    ensures { result ≡ latest_time (map entry_of entries.now) }
{
    let mut latest: u64 = 0;
    for entry in entries {
        latest = latest.max(entry.change.time);
    }
    latest
}
