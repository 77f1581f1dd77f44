//! Copies of plans.

ghost use Rattle.std.specs.Prelude.{◌≡◌, IfOk, List};
ghost use Rattle.ksql_expr.specs.declared.typed.Typed.{Typed as OneTyped};
ghost use Rattle.ksql_program.specs.declared.query.Agg.{Agg as OneAgg};
ghost use Rattle.logical_plan.specs.declared.tree.Plan.{Plan as Tree};
ghost use Rattle.logical_plan.specs.declared.tree.Plan.TheVariants as tree;

use crate::tree::Plan;
use ksql_expr::{Exprs, Typed};
use ksql_program::{Aggs, JoinKind};
use ksql_types::{Boxed, CopyOf, Kind, Window};
use std::alloc::{AllocError, Global};

#[cycle(copy)]
fn copy_plan(alloc: Global, plan: &Plan) -> Result<Plan, AllocError>
    ensures { IfOk result (λ copied. copied ≡ plan.now) }
{
    match plan {
        Plan::Source { relation } => Ok(Plan::Source {
            relation: *relation,
        }),
        Plan::Filter { on, arg } => filter_of(on.copy(alloc), copy_boxed(alloc, arg)),
        Plan::Rekey { key, arg } => rekey_of(key.copy(alloc), copy_boxed(alloc, arg)),
        Plan::JoinStreamTable {
            kind,
            on,
            left,
            right,
        } => stream_join_of(
            *kind,
            on.copy(alloc),
            copy_boxed(alloc, left),
            copy_boxed(alloc, right),
        ),
        Plan::JoinTables { kind, left, right } => {
            table_join_of(*kind, copy_boxed(alloc, left), copy_boxed(alloc, right))
        }
        Plan::Group { keys, arg } => group_of(keys.copy(alloc), copy_boxed(alloc, arg)),
        Plan::Aggregate {
            over,
            aggs,
            window,
            arg,
        } => aggregate_of(*over, aggs.copy(alloc), *window, copy_boxed(alloc, arg)),
        Plan::Having { on, arg } => having_of(on.copy(alloc), copy_boxed(alloc, arg)),
        Plan::Select {
            keys,
            values,
            out,
            arg,
        } => select_of(
            keys.copy(alloc),
            values.copy(alloc),
            *out,
            copy_boxed(alloc, arg),
        ),
    }
}

#[cycle(copy)]
fn copy_boxed(alloc: Global, plan: &Boxed<Plan>) -> Result<Boxed<Plan>, AllocError>
    ensures { IfOk result (λ copied. copied ≡ plan.now) }
{
    Boxed::of(alloc, copy_plan(alloc, plan.get())?)
}

// The copy, unless memory ran out. A function of its own for each form keeps the stack frame of `copy_plan` small,
// which stands on the stack once per level of a tree.
type Copied<T> = Result<T, AllocError>;

fn filter_of(on: Copied<Typed>, arg: Copied<Boxed<Plan>>) -> Copied<Plan>
    ensures { (e : OneTyped) (p : Tree) → IfOk on (λ x. x ≡ e) → IfOk arg (λ x. x ≡ p) → IfOk result (λ copied. copied ≡ tree.Filter e p) }
{
    let on = on?;
    let arg = arg?;
    Ok(Plan::Filter { on, arg })
}

fn rekey_of(key: Copied<Typed>, arg: Copied<Boxed<Plan>>) -> Copied<Plan>
    ensures { (e : OneTyped) (p : Tree) → IfOk key (λ x. x ≡ e) → IfOk arg (λ x. x ≡ p) → IfOk result (λ copied. copied ≡ tree.Rekey e p) }
{
    let key = key?;
    let arg = arg?;
    Ok(Plan::Rekey { key, arg })
}

fn stream_join_of(
    kind: JoinKind,
    on: Copied<Typed>,
    left: Copied<Boxed<Plan>>,
    right: Copied<Boxed<Plan>>,
) -> Copied<Plan>
    ensures { (e : OneTyped) (l r : Tree) → IfOk on (λ x. x ≡ e) → IfOk left (λ x. x ≡ l) → IfOk right (λ x. x ≡ r)
        → IfOk result (λ copied. copied ≡ tree.JoinStreamTable kind e l r) }
{
    let on = on?;
    let left = left?;
    let right = right?;
    Ok(Plan::JoinStreamTable {
        kind,
        on,
        left,
        right,
    })
}

fn table_join_of(
    kind: JoinKind,
    left: Copied<Boxed<Plan>>,
    right: Copied<Boxed<Plan>>,
) -> Copied<Plan>
    ensures { (l r : Tree) → IfOk left (λ x. x ≡ l) → IfOk right (λ x. x ≡ r) → IfOk result (λ copied. copied ≡ tree.JoinTables kind l r) }
{
    let left = left?;
    let right = right?;
    Ok(Plan::JoinTables { kind, left, right })
}

fn group_of(keys: Copied<Exprs>, arg: Copied<Boxed<Plan>>) -> Copied<Plan>
    ensures { (es : List OneTyped) (p : Tree) → IfOk keys (λ x. x ≡ es) → IfOk arg (λ x. x ≡ p) → IfOk result (λ copied. copied ≡ tree.Group es p) }
{
    let keys = keys?;
    let arg = arg?;
    Ok(Plan::Group { keys, arg })
}

fn aggregate_of(
    over: Kind,
    aggs: Copied<Aggs>,
    window: Option<Window>,
    arg: Copied<Boxed<Plan>>,
) -> Copied<Plan>
    ensures { (gs : List OneAgg) (p : Tree) → IfOk aggs (λ x. x ≡ gs) → IfOk arg (λ x. x ≡ p)
        → IfOk result (λ copied. copied ≡ tree.Aggregate over gs window p) }
{
    let aggs = aggs?;
    let arg = arg?;
    Ok(Plan::Aggregate {
        over,
        aggs,
        window,
        arg,
    })
}

fn having_of(on: Copied<Typed>, arg: Copied<Boxed<Plan>>) -> Copied<Plan>
    ensures { (e : OneTyped) (p : Tree) → IfOk on (λ x. x ≡ e) → IfOk arg (λ x. x ≡ p) → IfOk result (λ copied. copied ≡ tree.Having e p) }
{
    let on = on?;
    let arg = arg?;
    Ok(Plan::Having { on, arg })
}

fn select_of(
    keys: Copied<Exprs>,
    values: Copied<Exprs>,
    out: u32,
    arg: Copied<Boxed<Plan>>,
) -> Copied<Plan>
    ensures { (es ds : List OneTyped) (p : Tree) → IfOk keys (λ x. x ≡ es) → IfOk values (λ x. x ≡ ds) → IfOk arg (λ x. x ≡ p)
        → IfOk result (λ copied. copied ≡ tree.Select es ds out p) }
{
    let keys = keys?;
    let values = values?;
    let arg = arg?;
    Ok(Plan::Select {
        keys,
        values,
        out,
        arg,
    })
}

impl CopyOf for Plan {
    fn copy(&self, alloc: Global) -> Result<Plan, AllocError> {
        copy_plan(alloc, self)
    }
}
