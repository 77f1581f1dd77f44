//! The changes of a join, from the current rows of its sides.
ghost use Rattle.std.specs.Prelude.{◌≡◌, ◌++◌, IfOk, OnOk};
ghost use Rattle.std.specs.Option.{option_to_list};
ghost use Rattle.ksql_nodes.specs.Joins.{joined, joined_from, or_nulls, other_side, side_step};
ghost use Rattle.row_steps.specs.Joining.{beside, body_beside, turned_beside};

use crate::bodies::into_row;
use crate::rows::{copied, push_copies, push_nulls, turned};
use ksql_nodes::Side;
use ksql_place::{Body, Change};
use ksql_program::JoinKind;
use ksql_types::{Items, Row, Value};
use std::alloc::{AllocError, Global};

/// A join of two relations of any kinds.
#[derive(Clone, Copy, Debug, PartialEq, Eq)]
pub struct Join {
    pub kind: JoinKind,
    pub left: Side,
    pub right: Side,
}

/// The rows of a key before a change of one of two tables: the row of the table that changes, and the other table's row
/// with its time, which is 0 if there is none.
#[derive(Drop)]
pub struct Standing {
    pub own: Option<Row>,
    pub other: Option<Row>,
    pub time: u64,
}

/// A stream's change, which has its join key, joined with the table's row for that key.
pub fn stream_joined(
    alloc: Global,
    join: &Join,
    change: Change,
    row: Option<Row>,
) -> Result<Option<Change>, AllocError>
    ensures { IfOk result (λ made. option_to_list made ≡ beside join.now change row) }
{
    let Change {
        place,
        time,
        key,
        span,
        body,
    } = change;
    let Some(row) = joined(alloc, join, &[], into_row(body), row)? else {
        return Ok(None);
    };
    Ok(Some(Change {
        place,
        time,
        key,
        span,
        body: Body::Said(row),
    }))
}

/// The change of a join of two tables when one of them changes: from the joined row before to that after.
pub fn tables_joined(
    alloc: Global,
    join: &Join,
    side: u32,
    change: Change,
    standing: Standing,
) -> Result<Option<Change>, AllocError>
    ensures { IfOk result (λ made. option_to_list made ≡ turned_beside join.now side change standing) }
{
    let Change {
        mut place,
        time,
        key,
        span,
        body,
    } = change;
    let time = time.max(standing.time);
    let new = into_row(body);
    let Some(body) = body_beside(alloc, join, side, key.items(), standing, new)? else {
        return Ok(None);
    };
    place.path = place.path.with_first(alloc, side_step(join, side))?;
    Ok(Some(Change {
        place,
        time,
        key,
        span,
        body,
    }))
}

/// The change from the joined row before one of two tables changes to that after it, with the row that the change
/// brings.
fn body_beside(
    alloc: Global,
    join: &Join,
    side: u32,
    key: &[Value],
    standing: Standing,
    new: Option<Row>,
) -> Result<Option<Body>, AllocError>
    ensures { IfOk result (λ body. body ≡ body_beside join.now side key.now standing new) }
{
    let Standing { own, other, .. } = standing;
    if own.is_none() && new.is_none() {
        return Ok(None);
    }
    let again = copied(alloc, other.as_ref())?;
    let old = joined_from(alloc, join, side, key, own, again)?;
    let new = joined_from(alloc, join, side, key, new, other)?;
    Ok(turned(old, new))
}

/// The other side of a join.
pub fn other_side(side: u32) -> u32
    ensures { result ≡ other_side side }
{
    if side == 0 { 1 } else { 0 }
}

/// The number in a path that tells the sides of a join apart: 0 for the relation with the smaller number.
fn side_step(join: &Join, side: u32) -> u32
    ensures { result ≡ side_step side join.now.left join.now.right }
{
    if join.left.relation < join.right.relation {
        side
    } else {
        other_side(side)
    }
}

/// The joined row, given the row of `side` and that of the other side.
fn joined_from(
    alloc: Global,
    join: &Join,
    side: u32,
    key: &[Value],
    own: Option<Row>,
    other: Option<Row>,
) -> Result<Option<Row>, AllocError>
    ensures { IfOk result (λ row. row ≡ joined_from side join.now.kind join.now.left join.now.right key.now own other) }
{
    if side == 0 {
        joined(alloc, join, key, own, other)
    } else {
        joined(alloc, join, key, other, own)
    }
}

/// The joined row, if there is one: INNER needs both sides, LEFT the left one, FULL at least one, and a FULL row ends
/// with the key.
fn joined(
    alloc: Global,
    join: &Join,
    key: &[Value],
    left: Option<Row>,
    right: Option<Row>,
) -> Result<Option<Row>, AllocError>
    ensures { IfOk result (λ row. row ≡ joined join.now.kind join.now.left join.now.right key.now left right) }
{
    match (join.kind, &left, &right) {
        (JoinKind::Inner, Some(_), Some(_)) | (JoinKind::Left, Some(_), _) => {
            Ok(Some(sides(alloc, join, left, right, &[])?))
        }
        (JoinKind::Full, Some(_), _) | (JoinKind::Full, _, Some(_)) => {
            Ok(Some(sides(alloc, join, left, right, key)?))
        }
        _ => Ok(None),
    }
}

/// The cells of both sides, with NULLs for a missing row, and then more cells.
fn sides(
    alloc: Global,
    join: &Join,
    left: Option<Row>,
    right: Option<Row>,
    end: &[Value],
) -> Result<Row, AllocError>
    ensures { IfOk result (λ row. row ≡ or_nulls join.now.left left ++ or_nulls join.now.right right ++ end.now) }
{
    let columns = join.left.columns as usize + join.right.columns as usize;
    let mut cells = Vec::with_capacity(alloc, columns + end.len())?;
    push_side(&mut cells, &join.left, left)?;
    push_side(&mut cells, &join.right, right)?;
    push_copies(alloc, &mut cells, end)?;
    Ok(Items::of(cells))
}

/// Appends the cells of a side's row, or NULLs if there is none.
fn push_side(cells: &mut Vec<Value>, side: &Side, row: Option<Row>) -> Result<(), AllocError>
    ensures { OnOk result (cells.new.items ≡ cells.old.items ++ or_nulls side.now row) }
{
    match row {
        Some(row) => {
            cells.append(&mut row.into_items())?;
            Ok(())
        }
        None => push_nulls(cells, side.columns),
    }
}
