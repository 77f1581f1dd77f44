//! The cells of a select list whose items are columns in ascending order, moved out of a row that isn't needed any
//! more.
ghost use Rattle.std.specs.Prelude.{◌≡◌, ◌<◌, ℕ, List, IfOk, IfSome, IsTrue};
ghost use Rattle.ksql_types.specs.declared.value.Value.{Value as OneValue};
ghost use Rattle.ksql_expr.specs.Value.{cell, value_of};
ghost use Rattle.ksql_nodes.specs.Rows.{values};
ghost use Rattle.row_steps.specs.Columns.{are_rising, column_of};

use ksql_expr::{Typed, TypedNode};
use ksql_types::{Row, Value};
use std::alloc::{AllocError, Global};
use std::mem;

/// Whether expressions are columns in ascending order.
pub(crate) fn are_rising_columns(expressions: &[Typed]) -> bool
    ensures { result ≡ are_rising 0 expressions.now }
{
    let mut from: u64 = 0;
    for expression in expressions {
        match column_of(expression) {
            Some(column) if from <= u64::from(column) => from = u64::from(column) + 1,
            _ => return false,
        }
    }
    true
}

/// The cells of columns in ascending order, moved out of a row.
pub(crate) fn taken_cells(
    alloc: Global,
    columns: &[Typed],
    row: Row,
) -> Result<Vec<Value>, AllocError>
    requires { IsTrue (are_rising 0 columns.now) }
    ensures { IfOk result (λ made. (time : ℕ) → made.items ≡ values columns.now time row) }
{
    let mut cells = row.into_items();
    let mut taken = Vec::with_capacity(alloc, columns.len())?;
    for expression in columns {
        let Some(column) = column_of(expression) else {
            unreachable!()
        };
        taken.reserve(1)?;
        taken.push_reserved(taken_cell(&mut cells, column));
    }
    Ok(taken)
}

/// The cell of a column, moved out of a row's cells; NULL if they have no such column.
#[tactic(auto, using(crate::proofs::Taking::other_cell, crate::proofs::Taking::this_cell))]
fn taken_cell(cells: &mut Vec<Value>, column: u32) -> Value
    ensures value { result ≡ cell cells.old.items column }
    ensures others { (n : ℕ) → column < n → cell cells.new.items n ≡ cell cells.old.items n }
{
    let index = column as usize;
    if index < cells.len() {
        mem::replace(&mut cells[index], Value::Null)
    } else {
        Value::Null
    }
}

/// The column of an expression, if it is one.
#[tactic(auto, unfolding(ksql_expr::specs::Value::value_of))]
fn column_of(e: &Typed) -> Option<u32>
    ensures form { result ≡ column_of e.now }
    ensures value { IfSome result (λ column. (row : List OneValue) (time : ℕ) → value_of row time e.now ≡ cell row column) }
{
    match &e.node {
        TypedNode::Column(column) => Some(*column),
        _ => None,
    }
}
