//! What a node gives for its entries, each with all those before it.
ghost use Rattle.std.specs.Prelude.{◌≡◌, [], IfOk, IsTrue, map};
ghost use Rattle.std.specs.Option.{option_to_list};
ghost use Rattle.ksql_place.specs.Said.{row_in};
ghost use Rattle.ksql_nodes.specs.Entries.{of_key, results, row_after};
ghost use Rattle.ksql_nodes.specs.Nodes.{gives};
ghost use Rattle.ksql_nodes.specs.Rows.{turned, with_body};
ghost use Rattle.reference.specs.Steps.{entry_of, is_run};

use crate::entries::{EntryRef, of_key, row_after};
use crate::group_changes::group_change;
use ksql_nodes::Node;
use ksql_place::{Body, Change};
use ksql_types::CopyOf;
use row_steps::{copied, filtered, push_grouped, push_selected, rekeyed, row_in, turned};
use std::alloc::{AllocError, Global};

/// What a node gives for the entries, each together with all earlier ones. `lanes` is the number of lanes, each with a
/// stream time of its own, which matters only to windows. Takes O(n²) steps for n entries.
pub fn results(
    alloc: Global,
    lanes: u32,
    node: &Node,
    entries: &[EntryRef],
) -> Result<Vec<Change>, AllocError>
    requires { IsTrue (is_run node.now) }
    ensures { IfOk result (λ changes. changes.items ≡ results (gives lanes node.now) [] (map entry_of entries.now)) }
{
    let mut changes = Vec::new(alloc);
    for (index, entry) in entries.iter().enumerate() {
        let mut given = gives(alloc, lanes, node, &entries[..index], entry)?;
        changes.append(&mut given)?;
    }
    Ok(changes)
}

/// What a node gives for an entry after the earlier ones.
#[tactic(auto, unfolding(ksql_nodes::specs::Nodes::gives))]
fn gives<'a>(
    alloc: Global,
    lanes: u32,
    node: &Node,
    before: &[EntryRef<'a>],
    entry: &EntryRef<'a>,
) -> Result<Vec<Change>, AllocError>
    requires { IsTrue (is_run node.now) }
    ensures { IfOk result (λ changes. changes.items ≡ gives lanes node.now (map entry_of before.now) (entry_of entry.now)) }
{
    let change = entry.change.copy(alloc)?;
    match node {
        Node::Rekey { key } => one_or_none(alloc, rekeyed(alloc, key, change)?),
        Node::Table { .. } => one_or_none(alloc, table_change(alloc, before, change)?),
        Node::JoinStreamTable { .. } | Node::JoinTables { .. } => unreachable!(),
        Node::Filter { on } | Node::Having { on } => {
            one_or_none(alloc, filtered(alloc, on, change)?)
        }
        Node::Group { keys } => {
            let mut given = Vec::new(alloc);
            push_grouped(alloc, keys.items(), change, &mut given)?;
            Ok(given)
        }
        Node::Aggregate { over, aggs, .. } => {
            let change = group_change(alloc, *over, aggs.items(), before, entry)?;
            Ok(vec![in alloc; change]?)
        }
        Node::Select { keys, values } => {
            let mut given = Vec::new(alloc);
            push_selected(alloc, keys.items(), values.items(), change, &mut given)?;
            Ok(given)
        }
    }
}

/// The changes of a node that gives at most one.
pub fn one_or_none(alloc: Global, change: Option<Change>) -> Result<Vec<Change>, AllocError>
    ensures { IfOk result (λ made. made.items ≡ option_to_list change) }
{
    match change {
        Some(change) => Ok(vec![in alloc; change]?),
        None => Ok(Vec::new(alloc)),
    }
}

/// A table's change from the row that the key had before; None from absent to absent.
fn table_change(
    alloc: Global,
    before: &[EntryRef],
    change: Change,
) -> Result<Option<Change>, AllocError>
    ensures { IfOk result (λ made. option_to_list made ≡ with_body change (turned (row_after (of_key change.key (map entry_of before.now))) (row_in change.body))) }
{
    let mine = of_key(alloc, &change.key, before)?;
    let old = copied(alloc, row_after(mine.as_slice()))?;
    let new = copied(alloc, row_in(&change.body))?;
    Ok(with_body(change, turned(old, new)))
}

/// A change with another body, where there is one.
fn with_body(mut change: Change, body: Option<Body>) -> Option<Change>
    ensures { option_to_list result ≡ with_body change body }
{
    let Some(body) = body else {
        return None;
    };
    change.body = body;
    Some(change)
}
