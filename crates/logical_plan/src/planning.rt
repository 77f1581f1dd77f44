//! The plan of a query.
ghost use Rattle.std.specs.Prelude.{◌≡◌, ℕ, IfOk, List};
ghost use Rattle.ksql_place.specs.declared.change.Change.{Change};
ghost use Rattle.ksql_program.specs.declared.query.From.TheVariants as from;
ghost use Rattle.ksql_program.specs.declared.query.JoinKind.{JoinKind as OneKind};
ghost use Rattle.query_meaning.specs.Queries.{kind_at, leftmost, query_changes};
ghost use Rattle.topology.specs.Stages.{is_column, is_rekeyed};
ghost use Rattle.logical_plan.specs.declared.tree.Plan.TheVariants as tree;
ghost use Rattle.logical_plan.specs.Plans.{aggregate_plan, filter_plan, having_plan, join_plan, left_plan, plan_changes, plan_of, read_plan, shape_plan};

use crate::relations::{key_columns, kind_of};
use crate::tree::Plan;
use grouped_expressions::same_node;
use ksql_expr::{Exprs, Typed, TypedNode};
use ksql_program::{Aggs, From, JoinKind, Program, Query, Shape};
use ksql_types::{Boxed, CopyOf, Items, Kind, Window};
use std::alloc::{AllocError, Global};

/// The plan of a query. It means what the query means.
pub fn plan(alloc: Global, query: &Query, program: &Program) -> Result<Plan, AllocError>
    ensures exact { IfOk result (λ p. p ≡ plan_of program.now.items query.now) }
    ensures means { IfOk result (λ p. (lists : List (List Change)) → plan_changes program.now.items lists p ≡ query_changes program.now.items lists query.now) }
{
    let over = kind_of(program, leftmost(&query.from));
    let read = read_plan(alloc, program, &query.from)?;
    let filtered = filter_plan(alloc, &query.filter, read)?;
    shape_plan(alloc, over, query.out.number, &query.shape, filtered)
}

/// The leftmost relation that a query reads.
fn leftmost(from: &From) -> u32
    ensures { result ≡ leftmost from.now }
{
    match from {
        From::One { relation } => *relation,
        From::Join { left, .. } => *left,
    }
}

/// A plan that reads a relation.
fn source(alloc: Global, relation: u32) -> Result<Boxed<Plan>, AllocError>
    ensures { IfOk result (λ p. p ≡ tree.Source relation) }
{
    Boxed::of(alloc, Plan::Source { relation })
}

/// The plan of what a query reads: one relation, or a join of two.
fn read_plan(alloc: Global, program: &Program, from: &From) -> Result<Boxed<Plan>, AllocError>
    ensures { IfOk result (λ p. p ≡ read_plan program.now.items from.now) }
{
    match from {
        From::One { relation } => source(alloc, *relation),
        From::Join {
            kind,
            left,
            right,
            on,
        } => join_plan(alloc, program, *kind, *left, *right, on),
    }
}

/// The join of two relations, by the kind of the left one.
fn join_plan(
    alloc: Global,
    program: &Program,
    kind: JoinKind,
    left: u32,
    right: u32,
    on: &Typed,
) -> Result<Boxed<Plan>, AllocError>
    ensures { IfOk result (λ p. p ≡ join_plan program.now.items kind left right on.now (kind_at program.now.items left)) }
{
    match kind_of(program, left) {
        Kind::Stream => stream_join(alloc, program, kind, left, right, on),
        Kind::Table | Kind::Windowed => table_join(alloc, kind, left, right),
    }
}

/// The join of a stream and a table. The stream is rekeyed by the join key if it has another key.
fn stream_join(
    alloc: Global,
    program: &Program,
    kind: JoinKind,
    left: u32,
    right: u32,
    on: &Typed,
) -> Result<Boxed<Plan>, AllocError>
    ensures { IfOk result (λ p. p ≡ tree.JoinStreamTable kind on.now (left_plan program.now.items kind left right on.now) (tree.Source right)) }
{
    let left = left_plan(alloc, program, left, on)?;
    let right = source(alloc, right)?;
    let on = on.copy(alloc)?;
    Boxed::of(
        alloc,
        Plan::JoinStreamTable {
            kind,
            on,
            left,
            right,
        },
    )
}

/// The left side of a join.
fn left_plan(
    alloc: Global,
    program: &Program,
    left: u32,
    on: &Typed,
) -> Result<Boxed<Plan>, AllocError>
    ensures { (kind : OneKind) (right : ℕ) → IfOk result (λ p. p ≡ left_plan program.now.items kind left right on.now) }
{
    if is_rekeyed(program, left, on) {
        let arg = source(alloc, left)?;
        let key = on.copy(alloc)?;
        return Boxed::of(alloc, Plan::Rekey { key, arg });
    }
    source(alloc, left)
}

/// Whether a relation must be rekeyed to be the left side of a join with this key.
fn is_rekeyed(program: &Program, left: u32, on: &Typed) -> bool
    ensures { (kind : OneKind) (right : ℕ) → result ≡ is_rekeyed program.now.items (from.Join kind left right on.now) }
{
    match kind_of(program, left) {
        Kind::Stream => key_columns(program, left) != 1 || !is_first_column(on),
        Kind::Table | Kind::Windowed => false,
    }
}

/// Whether an expression is the first column.
fn is_first_column(e: &Typed) -> bool
    ensures { result ≡ is_column 0 e.now }
{
    same_node(&e.node, &TypedNode::Column(0))
}

/// The join of two tables.
fn table_join(
    alloc: Global,
    kind: JoinKind,
    left: u32,
    right: u32,
) -> Result<Boxed<Plan>, AllocError>
    ensures { IfOk result (λ p. p ≡ tree.JoinTables kind (tree.Source left) (tree.Source right)) }
{
    let left = source(alloc, left)?;
    let right = source(alloc, right)?;
    Boxed::of(alloc, Plan::JoinTables { kind, left, right })
}

/// A plan with WHERE on top, if any.
fn filter_plan(
    alloc: Global,
    filter: &Option<Typed>,
    arg: Boxed<Plan>,
) -> Result<Boxed<Plan>, AllocError>
    ensures { IfOk result (λ p. p ≡ filter_plan filter.now arg) }
{
    match filter {
        None => Ok(arg),
        Some(on) => {
            let on = on.copy(alloc)?;
            Boxed::of(alloc, Plan::Filter { on, arg })
        }
    }
}

/// A plan with HAVING on top, if any.
fn having_plan(
    alloc: Global,
    having: &Option<Typed>,
    arg: Boxed<Plan>,
) -> Result<Boxed<Plan>, AllocError>
    ensures { IfOk result (λ p. p ≡ having_plan having.now arg) }
{
    match having {
        None => Ok(arg),
        Some(on) => {
            let on = on.copy(alloc)?;
            Boxed::of(alloc, Plan::Having { on, arg })
        }
    }
}

/// A plan with the groups and their aggregates on top, over a relation of this kind.
fn aggregate_plan(
    alloc: Global,
    over: Kind,
    keys: &Exprs,
    aggs: &Aggs,
    window: &Option<Window>,
    arg: Boxed<Plan>,
) -> Result<Boxed<Plan>, AllocError>
    ensures { IfOk result (λ p. p ≡ aggregate_plan over keys.now aggs.now window.now arg) }
{
    let keys = keys.copy(alloc)?;
    let arg = Boxed::of(alloc, Plan::Group { keys, arg })?;
    let aggs = aggs.copy(alloc)?;
    let window = *window;
    Boxed::of(
        alloc,
        Plan::Aggregate {
            over,
            aggs,
            window,
            arg,
        },
    )
}

/// A plan with the shape of a query on top, over a relation of this kind. `out` is the number of the result.
fn shape_plan(
    alloc: Global,
    over: Kind,
    out: u32,
    shape: &Shape,
    arg: Boxed<Plan>,
) -> Result<Plan, AllocError>
    ensures { IfOk result (λ p. p ≡ shape_plan over out shape.now arg) }
{
    match shape {
        Shape::Plain { keys, values } => {
            let keys = keys.copy(alloc)?;
            select_plan(alloc, keys, values, out, arg)
        }
        Shape::Group {
            keys,
            window,
            aggs,
            having,
            values,
        } => {
            let grouped = aggregate_plan(alloc, over, keys, aggs, window, arg)?;
            let arg = having_plan(alloc, having, grouped)?;
            let keys = Items::of(Vec::new(alloc));
            select_plan(alloc, keys, values, out, arg)
        }
    }
}

/// A plan with the select list on top.
fn select_plan(
    alloc: Global,
    keys: Exprs,
    values: &Exprs,
    out: u32,
    arg: Boxed<Plan>,
) -> Result<Plan, AllocError>
    ensures { IfOk result (λ p. p ≡ tree.Select keys values.now out arg) }
{
    let values = values.copy(alloc)?;
    Ok(Plan::Select {
        keys,
        values,
        out,
        arg,
    })
}
