//! Whether expressions are the key of a plan's result.
ghost use Rattle.std.specs.Prelude.{◌≡◌, ◌↔◌, IfOk, IsTrue, List};
ghost use Rattle.ksql_expr.specs.declared.typed.TypedNode.TheVariants as form;
ghost use Rattle.grouped_expressions.specs.Same.{same_tree};
ghost use Rattle.ksql_program.specs.declared.program.Item.{Item as OneItem};
ghost use Rattle.topology.specs.Stages.{are_columns_from, is_column, is_stream_key, is_tables_key};
ghost use Rattle.key_planner.specs.Cuts.{is_one, leftmost_of, own_key};

use crate::relations::side_of;
use grouped_expressions::same_tree;
use ksql_expr::{Typed, TypedNode};
use ksql_nodes::Side;
use ksql_program::{JoinKind, Program};
use logical_plan::{Plan, key_columns};
use std::alloc::AllocError;

/// Whether the expressions are, in order, the key of the plan's result. Of the steps after a source, only WHERE and
/// joins have a key of their own.
#[tactic(auto, using(crate::proofs::Parts::own_forms))]
pub fn is_own_key(program: &Program, keys: &[Typed], plan: &Plan) -> Result<bool, AllocError>
    ensures { IfOk result (λ own. own ≡ own_key program.now.items plan.now keys.now) }
{
    match plan {
        Plan::Source { relation } => Ok(are_columns(keys, key_columns(program, *relation))),
        Plan::Filter { arg, .. } => is_own_key(program, keys, arg.get()),
        Plan::JoinStreamTable { kind, on, left, .. } => {
            let left = side_of(program, leftmost(left.get()))?;
            Ok(is_stream_key(*kind, &left, on, keys))
        }
        Plan::JoinTables { kind, left, right } => {
            let left = side_of(program, leftmost(left.get()))?;
            let right = side_of(program, leftmost(right.get()))?;
            Ok(is_tables_key(*kind, &left, &right, keys))
        }
        _ => Ok(false),
    }
}

/// The leftmost relation that a plan reads.
#[tactic(auto, using(crate::proofs::Parts::leftmost_forms))]
pub fn leftmost(plan: &Plan) -> u32
    ensures { (items : List OneItem) → result ≡ leftmost_of items plan.now }
{
    match plan {
        Plan::Source { relation } => *relation,
        Plan::Filter { arg, .. } => leftmost(arg.get()),
        Plan::Rekey { arg, .. } => leftmost(arg.get()),
        Plan::JoinStreamTable { left, .. } => leftmost(left.get()),
        Plan::JoinTables { left, .. } => leftmost(left.get()),
        Plan::Group { arg, .. } => leftmost(arg.get()),
        Plan::Aggregate { arg, .. } => leftmost(arg.get()),
        Plan::Having { arg, .. } => leftmost(arg.get()),
        Plan::Select { arg, .. } => leftmost(arg.get()),
    }
}

/// Whether the expressions are the first `count` columns, in order.
fn are_columns(keys: &[Typed], count: usize) -> bool
    ensures { result ≡ are_columns_from 0 count keys.now }
{
    if keys.len() != count {
        return false;
    }
    for (index, key) in keys.iter().enumerate() {
        if !is_column(key, index as u64) {
            return false;
        }
    }
    true
}

/// Whether an expression is column `number`.
fn is_column(e: &Typed, number: u64) -> bool
    ensures { result ≡ is_column number e.now }
{
    has_number(&e.node, number)
}

/// Whether a form is column `number`.
fn has_number(node: &TypedNode, number: u64) -> bool
    ensures { IsTrue result ↔ (node.now ≡ form.Column number) }
{
    match node {
        TypedNode::Column(column) => *column as u64 == number,
        _ => false,
    }
}

/// Whether two expressions are the same.
fn is_same(a: &Typed, b: &Typed) -> bool
    ensures { result ≡ same_tree a.now b.now }
{
    same_tree(a, b)
}

/// Whether `keys` is one key of a join of a stream and a table: the join key, or in an INNER join also the table's key.
fn is_stream_key(kind: JoinKind, left: &Side, on: &Typed, keys: &[Typed]) -> bool
    ensures { result ≡ is_one (is_stream_key kind left.now on.now) keys.now }
{
    match keys {
        [key] => match kind {
            JoinKind::Inner => is_same(key, on) || is_column(key, left.columns as u64),
            JoinKind::Left | JoinKind::Full => is_same(key, on),
        },
        _ => false,
    }
}

/// Whether `keys` is one key of a join of two tables: the left key, in an INNER join also the right key, and in a FULL
/// join ROWKEY alone.
fn is_tables_key(kind: JoinKind, left: &Side, right: &Side, keys: &[Typed]) -> bool
    ensures { result ≡ is_one (is_tables_key kind left.now right.now) keys.now }
{
    match keys {
        [key] => match kind {
            JoinKind::Inner => is_column(key, 0) || is_column(key, left.columns as u64),
            JoinKind::Left => is_column(key, 0),
            JoinKind::Full => is_column(key, left.columns as u64 + right.columns as u64),
        },
        _ => false,
    }
}
