//! What aggregates of tables give for the entries of a table.
ghost use Rattle.std.specs.Prelude.{◌≡◌, ◌∷◌, ◌++◌, [], IfOk, filter, map, not, option_map};
ghost use Rattle.ksql_nodes.specs.Entries.{is_same_key, results};
ghost use Rattle.ksql_nodes.specs.Groups.{grouped};
ghost use Rattle.ksql_nodes.specs.TableAggregates.{aggregate_of_table};
ghost use Rattle.reference.specs.Steps.{entry_of};
ghost use Rattle.reference.specs.Grouping.{entries_of, group_of, in_groups, is_group, lent, lent_standing, lent_view, standing_of, view_change, view_held, view_outcome, view_touching};

use crate::entries::{EntryRef, latest_time};
use crate::group_changes::row_worth;
use ksql_expr::Typed;
use ksql_place::{Body, Change};
use ksql_program::Agg;
use ksql_types::{CopyOf, Items, Key, Row};
use row_steps::{is_same_key, push_copies, push_grouped, row_in, row_out, values_of};
use std::alloc::{AllocError, Global};

/// An entry, borrowed, and the groups of its old row and its new row.
#[derive(Drop)]
struct EntryInGroups<'a> {
    entry: EntryRef<'a>,
    old_group: Option<Key>,
    new_group: Option<Key>,
}

/// The latest entry of its key, borrowed, and the group of its new row.
#[derive(Clone, Copy)]
struct StandingEntry<'a> {
    entry: EntryRef<'a>,
    group: Option<&'a Key>,
}

/// A table after some entries: all of them, and the latest one of each key.
#[derive(Clone, Copy)]
struct TableView<'a> {
    entries: &'a [EntryInGroups<'a>],
    standing: &'a [StandingEntry<'a>],
}

/// The changes of a table's groups for its entries, each together with all earlier ones. Takes O(n²) steps for n
/// entries.
pub fn group_results(
    alloc: Global,
    keys: &[Typed],
    aggs: &[Agg],
    entries: &[EntryRef],
) -> Result<Vec<Change>, AllocError>
    ensures { IfOk result (λ changes. changes.items ≡ results (aggregate_of_table keys.now aggs.now) [] (map entry_of entries.now)) }
{
    let members = in_groups(alloc, keys, entries)?;
    member_results(alloc, keys, aggs, members.as_slice())
}

/// The changes of the groups for the entries in their groups.
fn member_results<'a>(
    alloc: Global,
    keys: &[Typed],
    aggs: &[Agg],
    members: &'a [EntryInGroups<'a>],
) -> Result<Vec<Change>, AllocError>
    requires { map lent members.now ≡ map (in_groups keys.now) (entries_of members.now) }
    ensures { IfOk result (λ changes. changes.items ≡ results (aggregate_of_table keys.now aggs.now) [] (entries_of members.now)) }
{
    let mut standing = Vec::new(alloc);
    let mut changes = Vec::new(alloc);
    for (index, member) in members.iter().enumerate() {
        let stands = standing_with(alloc, standing.as_slice(), member)?;
        let before = TableView {
            entries: &members[..index],
            standing: standing.as_slice(),
        };
        let after = TableView {
            entries: &members[..index + 1],
            standing: stands.as_slice(),
        };
        let mut given = group_changes(alloc, keys, aggs, member.entry.change, &before, &after)?;
        changes.append(&mut given)?;
        standing = stands;
    }
    Ok(changes)
}

/// The changes of the groups of an entry's rows, each from its result before the entry to that after it.
fn group_changes(
    alloc: Global,
    keys: &[Typed],
    aggs: &[Agg],
    change: &Change,
    before: &TableView,
    after: &TableView,
) -> Result<Vec<Change>, AllocError>
    ensures { IfOk result (λ made. made.items ≡ map (view_change aggs.now (lent_view before.now) (lent_view after.now)) (grouped keys.now change.now)) }
{
    let mut grouped = Vec::new(alloc);
    push_grouped(alloc, keys, change.copy(alloc)?, &mut grouped)?;
    let mut changes = Vec::new(alloc);
    for change in &grouped {
        changes.push(group_change(alloc, aggs, change, before, after)?)?;
    }
    Ok(changes)
}

/// The change of a group, from its result before an entry to that after it, at the latest time of the entries that
/// touched the group.
fn group_change(
    alloc: Global,
    aggs: &[Agg],
    change: &Change,
    before: &TableView,
    after: &TableView,
) -> Result<Change, AllocError>
    ensures { IfOk result (λ made. made ≡ view_change aggs.now (lent_view before.now) (lent_view after.now) change.now) }
{
    let touching = touching(alloc, &change.key, after.entries)?;
    let old = outcome(alloc, aggs, &change.key, before)?;
    let new = outcome(alloc, aggs, &change.key, after)?;
    Ok(Change {
        place: change.place.copy(alloc)?,
        time: latest_time(touching.as_slice()),
        key: change.key.copy(alloc)?,
        span: None,
        body: Body::Turned { old, new },
    })
}

/// The result of a group: its key and a column for each aggregate; absent if no entry touched it.
fn outcome(
    alloc: Global,
    aggs: &[Agg],
    group: &Key,
    view: &TableView,
) -> Result<Option<Row>, AllocError>
    ensures { IfOk result (λ row. row ≡ view_outcome aggs.now group.now (lent_view view.now)) }
{
    let touching = touching(alloc, group, view.entries)?;
    if touching.is_empty() {
        return Ok(None);
    }
    let held = held(alloc, group, view.standing)?;
    let mut row = Vec::with_capacity(alloc, group.items().len() + aggs.len())?;
    push_copies(alloc, &mut row, group.items())?;
    for agg in aggs {
        row.push(row_worth(alloc, held.as_slice(), agg)?)?;
    }
    Ok(Some(Items::of(row)))
}

/// The entries that touched a group: their old row or their new row is in it.
fn touching<'a>(
    alloc: Global,
    group: &Key,
    entries: &[EntryInGroups<'a>],
) -> Result<Vec<EntryRef<'a>>, AllocError>
    ensures { IfOk result (λ mine. map entry_of mine.items ≡ view_touching group.now (map lent entries.now)) }
{
    let mut mine = Vec::new(alloc);
    for entry in entries {
        if is_group(group, entry.old_group.as_ref()) || is_group(group, entry.new_group.as_ref()) {
            mine.push(entry.entry)?;
        }
    }
    Ok(mine)
}

/// The latest entries whose new row is in a group.
fn held<'a>(
    alloc: Global,
    group: &Key,
    standing: &[StandingEntry<'a>],
) -> Result<Vec<EntryRef<'a>>, AllocError>
    ensures { IfOk result (λ mine. map entry_of mine.items ≡ view_held group.now (map lent_standing standing.now)) }
{
    let mut mine = Vec::new(alloc);
    for stands in standing {
        if is_group(group, stands.group) {
            mine.push(stands.entry)?;
        }
    }
    Ok(mine)
}

/// Whether this is the group of a row.
fn is_group(group: &Key, of_row: Option<&Key>) -> bool
    ensures { result ≡ is_group group.now (option_map (λ k. k.now) of_row.entry) }
{
    match of_row {
        Some(key) => is_same_key(key, group),
        None => false,
    }
}

/// The latest entries after one more, which replaces the one of its key.
fn standing_with<'a>(
    alloc: Global,
    before: &[StandingEntry<'a>],
    member: &'a EntryInGroups<'a>,
) -> Result<Vec<StandingEntry<'a>>, AllocError>
    ensures { IfOk result (λ standing. map lent_standing standing.items ≡ filter (λ s. not (is_same_key s.entry.change.key member.now.entry.change.now.key)) (map lent_standing before.now) ++ standing_of (lent member.now) ∷ []) }
{
    let mut standing = Vec::new(alloc);
    for other in before {
        if !is_same_key(&other.entry.change.key, &member.entry.change.key) {
            standing.push(*other)?;
        }
    }
    standing.push(StandingEntry {
        entry: member.entry,
        group: member.new_group.as_ref(),
    })?;
    Ok(standing)
}

/// The entries with their groups.
fn in_groups<'a>(
    alloc: Global,
    keys: &[Typed],
    entries: &[EntryRef<'a>],
) -> Result<Vec<EntryInGroups<'a>>, AllocError>
    ensures entries { IfOk result (λ made. entries_of made.items ≡ map entry_of entries.now) }
    ensures groups { IfOk result (λ made. map lent made.items ≡ map (in_groups keys.now) (map entry_of entries.now)) }
{
    let mut made = Vec::with_capacity(alloc, entries.len())?;
    for entry in entries {
        let change = entry.change;
        made.push(EntryInGroups {
            entry: *entry,
            old_group: group_of(alloc, keys, change.time, row_out(&change.body))?,
            new_group: group_of(alloc, keys, change.time, row_in(&change.body))?,
        })?;
    }
    Ok(made)
}

/// The group that a row is in, if there is a row that is in one: none of the group's values is NULL.
fn group_of(
    alloc: Global,
    keys: &[Typed],
    time: u64,
    row: Option<&Row>,
) -> Result<Option<Key>, AllocError>
    ensures { IfOk result (λ group. group ≡ group_of keys.now time (option_map (λ r. r.now) row.entry)) }
{
    let Some(row) = row else {
        return Ok(None);
    };
    let values = values_of(alloc, keys, time, row)?;
    if Key::is_key(values.as_slice()) {
        Ok(Some(Key::of(values)))
    } else {
        Ok(None)
    }
}
