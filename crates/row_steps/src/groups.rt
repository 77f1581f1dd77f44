//! Rows under a new key: that of their group, or their join key.
ghost use Rattle.std.specs.Prelude.{◌≡◌, ◌∷◌, ◌++◌, [], if◌then◌else◌, IfOk, OnErr, OnOk, option_and_then, option_map};
ghost use Rattle.std.specs.Option.{option_to_list};
ghost use Rattle.ksql_place.specs.declared.change.Body.TheVariants as body;
ghost use Rattle.ksql_nodes.specs.Groups.{grouped, in_group, member, moved};
ghost use Rattle.ksql_nodes.specs.Joins.{join_key, rekeyed};
ghost use Rattle.row_steps.specs.Members.{member_of};

use crate::keys::{is_same_key, one_key};
use crate::rows::{copied, key_from, value_of, values_of};
use ksql_expr::Typed;
use ksql_place::{Body, Change, Place};
use ksql_types::{Key, Row};
use std::alloc::{AllocError, Global};

/// A row, borrowed, and the group that it is in.
#[derive(Drop)]
struct RowInGroup<'a> {
    group: Key,
    row: &'a Row,
}

/// A stream's change under its join key; None for a table's change, or if there is no key.
pub fn rekeyed(alloc: Global, on: &Typed, mut change: Change) -> Result<Option<Change>, AllocError>
    ensures { IfOk result (λ made. option_to_list made ≡ rekeyed (join_key on.now change) change) }
{
    let key = join_key(alloc, on, &change)?;
    if put_under(key, &mut change) {
        Ok(Some(change))
    } else {
        Ok(None)
    }
}

/// Appends a change under the keys of its rows' groups.
pub fn push_grouped(
    alloc: Global,
    keys: &[Typed],
    mut change: Change,
    out: &mut Vec<Change>,
) -> Result<(), AllocError>
    ensures given { OnOk result (out.new.items ≡ out.old.items ++ grouped keys.now change) }
    ensures unchanged { OnErr result (out.new.items ≡ out.old.items) }
{
    match &change.body {
        Body::Said(row) => {
            let key = key_from(alloc, keys, change.time, row)?;
            if put_under(key, &mut change) {
                out.reserve(1)?;
                out.push_reserved(change);
            }
            Ok(())
        }
        Body::Turned { old, new } => {
            let left = member(alloc, keys, change.time, old.as_ref())?;
            let entered = member(alloc, keys, change.time, new.as_ref())?;
            let mut given = moved(alloc, &change, left, entered)?;
            out.append(&mut given)?;
            Ok(())
        }
    }
}

/// The join key of a stream's change; a table's change has none.
fn join_key(alloc: Global, on: &Typed, change: &Change) -> Result<Key, AllocError>
    ensures { IfOk result (λ key. key ≡ join_key on.now change.now) }
{
    match &change.body {
        Body::Said(row) => {
            let value = value_of(alloc, on, change.time, row)?;
            Ok(one_key(alloc, value))
        }
        Body::Turned { .. } => Ok(Key::of(Vec::new(alloc))),
    }
}

/// Puts a change under a key; returns whether there is one.
fn put_under(key: Key, change: &mut Change) -> bool
    ensures { (if result then change.new ∷ [] else []) ≡ rekeyed key change.old }
{
    if key.items().is_empty() {
        return false;
    }
    change.key = key;
    true
}

/// A row and its group, if there is a row that is in one: none of the group's values is NULL.
fn member<'a>(
    alloc: Global,
    keys: &[Typed],
    time: u64,
    row: Option<&'a Row>,
) -> Result<Option<RowInGroup<'a>>, AllocError>
    ensures { IfOk result (λ found. option_map member_of found ≡ option_and_then (member keys.now time) (option_map (λ r. r.now) row.entry)) }
{
    let Some(row) = row else {
        return Ok(None);
    };
    let values = values_of(alloc, keys, time, row)?;
    if !Key::is_key(values.as_slice()) {
        return Ok(None);
    }
    Ok(Some(RowInGroup {
        group: Key::of(values),
        row,
    }))
}

/// The changes of the groups that a table's row leaves and enters.
fn moved(
    alloc: Global,
    change: &Change,
    left: Option<RowInGroup>,
    entered: Option<RowInGroup>,
) -> Result<Vec<Change>, AllocError>
    ensures { IfOk result (λ made. made.items ≡ moved change.now (option_map member_of left.entry) (option_map member_of entered.entry)) }
{
    match (left, entered) {
        (None, None) => Ok(Vec::new(alloc)),
        (Some(left), None) => {
            let leaving = in_group(alloc, change, left.group, 0, Some(left.row), None)?;
            Ok(vec![in alloc; leaving]?)
        }
        (None, Some(entered)) => {
            let entering = in_group(alloc, change, entered.group, 0, None, Some(entered.row))?;
            Ok(vec![in alloc; entering]?)
        }
        (Some(left), Some(entered)) => moved_between(alloc, change, left, entered),
    }
}

/// A row that moves leaves its group and then enters another; a row that stays changes within its group.
fn moved_between(
    alloc: Global,
    change: &Change,
    left: RowInGroup,
    entered: RowInGroup,
) -> Result<Vec<Change>, AllocError>
    ensures { IfOk result (λ made. made.items ≡ moved change.now (Some (member_of left.entry)) (Some (member_of entered.entry))) }
{
    let (old, new) = (Some(left.row), Some(entered.row));
    if is_same_key(&left.group, &entered.group) {
        let staying = in_group(alloc, change, entered.group, 0, old, new)?;
        return Ok(vec![in alloc; staying]?);
    }
    let leaving = in_group(alloc, change, left.group, 0, old, None)?;
    let entering = in_group(alloc, change, entered.group, 1, None, new)?;
    Ok(vec![in alloc; leaving, entering]?)
}

/// A change of a group from one row to another, with a number appended to its path.
fn in_group(
    alloc: Global,
    change: &Change,
    group: Key,
    step: u32,
    old: Option<&Row>,
    new: Option<&Row>,
) -> Result<Change, AllocError>
    ensures { IfOk result (λ made. made ≡ in_group group step change.now (body.Turned (option_map (λ r. r.now) old.entry) (option_map (λ r. r.now) new.entry))) }
{
    Ok(Change {
        place: Place {
            stamp: change.place.stamp,
            path: change.place.path.with_last(alloc, step)?,
        },
        time: change.time,
        key: group,
        span: change.span,
        body: Body::Turned {
            old: copied(alloc, old)?,
            new: copied(alloc, new)?,
        },
    })
}
