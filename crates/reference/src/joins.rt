//! What joins give for their entries.
ghost use Rattle.std.specs.Prelude.{◌≡◌, ℕ, [], IfOk, IsTrue, map, option_and_then, option_map, unwrap_or};
ghost use Rattle.std.specs.List.{last_or};
ghost use Rattle.std.specs.Option.{option_to_list};
ghost use Rattle.ksql_place.specs.Said.{row_in};
ghost use Rattle.ksql_nodes.specs.Entries.{of_key, of_side, results};
ghost use Rattle.ksql_nodes.specs.Joins.{join_row, join_stream, join_tables};
ghost use Rattle.ksql_nodes.specs.Nodes.{gives};
ghost use Rattle.reference.specs.Steps.{entry_of, is_join};
ghost use Rattle.row_steps.specs.Joining.{standing_before};

use crate::entries::EntryRef;
use crate::nodes::one_or_none;
use ksql_expr::Typed;
use ksql_nodes::Node;
use ksql_place::Change;
use ksql_types::{CopyOf, Key, Row};
use row_steps::{
    Join, Standing, copied, is_same_key, other_side, rekeyed, row_in, stream_joined, tables_joined,
};
use std::alloc::{AllocError, Global};

/// What a join gives for the entries of its sides, each together with all earlier ones. Takes O(n²) steps for n
/// entries.
pub fn join_results(
    alloc: Global,
    node: &Node,
    entries: &[EntryRef],
) -> Result<Vec<Change>, AllocError>
    requires { IsTrue (is_join node.now) }
    ensures { IfOk result (λ changes. (lanes : ℕ) → changes.items ≡ results (gives lanes node.now) [] (map entry_of entries.now)) }
{
    let mut changes = Vec::new(alloc);
    for (index, entry) in entries.iter().enumerate() {
        let mut given = gives(alloc, node, &entries[..index], entry)?;
        changes.append(&mut given)?;
    }
    Ok(changes)
}

/// What a join gives for an entry after the earlier ones.
#[tactic(auto, unfolding(ksql_nodes::specs::Nodes::gives))]
fn gives(
    alloc: Global,
    node: &Node,
    before: &[EntryRef],
    entry: &EntryRef,
) -> Result<Vec<Change>, AllocError>
    requires { IsTrue (is_join node.now) }
    ensures { IfOk result (λ changes. (lanes : ℕ) → changes.items ≡ gives lanes node.now (map entry_of before.now) (entry_of entry.now)) }
{
    match node {
        Node::JoinStreamTable {
            kind,
            on,
            left,
            right,
        } => {
            let join = Join {
                kind: *kind,
                left: *left,
                right: *right,
            };
            stream_changes(alloc, &join, on, before, entry)
        }
        Node::JoinTables { kind, left, right } => {
            let join = Join {
                kind: *kind,
                left: *left,
                right: *right,
            };
            table_changes(alloc, &join, before, entry)
        }
        _ => unreachable!(),
    }
}

/// A stream's change joined with the table's row for its join key; a table's change triggers nothing.
#[tactic(auto, using(crate::proofs::Keyed::keyed_some, crate::proofs::Keyed::keyed_none))]
fn stream_changes(
    alloc: Global,
    join: &Join,
    on: &Typed,
    before: &[EntryRef],
    entry: &EntryRef,
) -> Result<Vec<Change>, AllocError>
    ensures { IfOk result (λ changes. changes.items ≡ join_stream join.now.kind on.now join.now.left join.now.right (map entry_of before.now) (entry_of entry.now)) }
{
    if entry.side != 0 {
        return Ok(Vec::new(alloc));
    }
    match rekeyed(alloc, on, entry.change.copy(alloc)?)? {
        Some(change) => one_or_none(alloc, beside_row(alloc, join, before, change)?),
        None => Ok(Vec::new(alloc)),
    }
}

/// A stream's change, which has its join key, joined with the table's row for that key.
fn beside_row(
    alloc: Global,
    join: &Join,
    before: &[EntryRef],
    change: Change,
) -> Result<Option<Change>, AllocError>
    ensures { IfOk result (λ made. option_to_list made ≡ join_row join.now.kind join.now.left join.now.right (map entry_of before.now) change) }
{
    let row = copied(alloc, row_of(latest_on(1, &change.key, before)))?;
    stream_joined(alloc, join, change, row)
}

/// The change of a join of two tables when one of them changes.
fn table_changes(
    alloc: Global,
    join: &Join,
    before: &[EntryRef],
    entry: &EntryRef,
) -> Result<Vec<Change>, AllocError>
    ensures { IfOk result (λ changes. changes.items ≡ join_tables join.now.kind join.now.left join.now.right (map entry_of before.now) (entry_of entry.now)) }
{
    let standing = standing(alloc, entry.side, &entry.change.key, before)?;
    let change = entry.change.copy(alloc)?;
    one_or_none(
        alloc,
        tables_joined(alloc, join, entry.side, change, standing)?,
    )
}

/// The rows of a key before a change of one of two tables.
fn standing(
    alloc: Global,
    side: u32,
    key: &Key,
    before: &[EntryRef],
) -> Result<Standing, AllocError>
    ensures { IfOk result (λ rows. rows ≡ standing_before side key.now (map entry_of before.now)) }
{
    let other = latest_on(other_side(side), key, before);
    Ok(Standing {
        own: copied(alloc, row_of(latest_on(side, key, before)))?,
        other: copied(alloc, row_of(other))?,
        time: time_of(other),
    })
}

/// The latest entry of a side with a key.
fn latest_on<'a>(side: u32, key: &Key, entries: &[EntryRef<'a>]) -> Option<EntryRef<'a>>
    ensures { option_map entry_of result ≡ last_or None (of_side side (of_key key.now (map entry_of entries.now))) }
{
    entries
        .iter()
        .rev()
        .find(|entry| entry.side == side && is_same_key(&entry.change.key, key))
        .copied()
}

/// The row that an entry leaves, if there is an entry that leaves one.
fn row_of<'a>(found: Option<EntryRef<'a>>) -> Option<&'a Row>
    ensures { option_map (λ r. r.now) result ≡ option_and_then (λ e. row_in e.change.body) (option_map entry_of found.entry) }
{
    match found {
        Some(entry) => row_in(&entry.change.body),
        None => None,
    }
}

/// The time of the row that an entry leaves; 0 if there is none.
fn time_of(found: Option<EntryRef>) -> u64
    ensures { result ≡ unwrap_or (option_and_then (λ e. option_map (λ row. e.change.time) (row_in e.change.body)) (option_map entry_of found.entry)) 0 }
{
    match found {
        Some(entry) if row_in(&entry.change.body).is_some() => entry.change.time,
        _ => 0,
    }
}
