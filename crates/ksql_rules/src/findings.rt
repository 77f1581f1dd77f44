//! What is found out about a query once, before its rules are checked.

ghost use Rattle.std.specs.Prelude.{◌≡◌, ◌-◌, ◌^◌, ◌≤◌, All, IfOk, length, map};
ghost use Rattle.ksql_scopes.specs.Uses.{IsSmall};
ghost use Rattle.ksql_typing.specs.Judged as typing;
ghost use Rattle.ksql_clauses.specs.Sources as sources;
ghost use Rattle.ksql_clauses.specs.Keys as keys;
ghost use Rattle.ksql_rules.specs.Decided as decided;
ghost use Rattle.ksql_rules.specs.Findings.{AreFindings, IsFound};
ghost use Rattle.ksql_rules.specs.Limits.{IsQueryWithin, IsRelationWithin};

use crate::expressions::{
    each_resolved, early_exprs, front_exprs, late_exprs, on_exprs, part_resolved,
};
use expression_trees::Expr;
use ksql_clauses::{
    Known, Named, all_known, columns_at, columns_besides, from_scope, item_scope, join_key,
    key_places, needs, on_scope, result_columns,
};
use ksql_scopes::Scope;
use ksql_type_sets::{Types, has_some_type};
use ksql_types::{Boxed, Catalog};
use ksql_typing::judgement::{Judged, judge};
use statement_trees::Select;
use std::alloc::{AllocError, Global};

/// The findings about several expressions together: whether a name in one stands for nothing, whether one stands for
/// several things, and whether each expression has a type.
#[derive(Clone, Copy, Debug, PartialEq, Eq)]
pub struct Found {
    pub unknown: bool,
    pub ambiguous: bool,
    pub typed: bool,
}

/// A query and the findings about it: its sources that are in the catalog; what names can stand for in ON, in the items
/// and HAVING, and elsewhere; its expressions, with those of the items and HAVING last; the result's columns, and the
/// places of its key columns; both sides of a join's key, the left relation's first; GROUP BY and HAVING with resolved
/// names.
#[derive(Drop)]
pub struct Findings<'a> {
    pub select: &'a Select,
    pub known: Vec<Known>,
    pub scope: Scope,
    pub on_scope: Scope,
    pub item_scope: Scope,
    pub early: Vec<&'a Expr>,
    pub late: Vec<&'a Expr>,
    pub columns: Vec<Named>,
    pub places: Vec<Option<usize>>,
    pub key: Option<(&'a Expr, &'a Expr)>,
    pub groups: Vec<Expr>,
    pub having: Option<Boxed<Expr>>,
    pub in_on: Found,
    pub in_front: Found,
    pub in_late: Found,
}

impl Findings<'_> {
    /// The key columns of the result.
    pub fn key_columns(&self, alloc: Global) -> Result<Vec<&Named>, AllocError>
        requires { AreFindings self.now }
        ensures { IfOk result (λ found. map (λ c. c.now) found.items ≡ keys.key_columns self.now.select.now self.now.known.items) }
    {
        columns_at(alloc, &self.columns, &self.places)
    }

    /// The other columns of the result.
    pub fn value_columns(&self, alloc: Global) -> Result<Vec<&Named>, AllocError>
        requires { AreFindings self.now }
        ensures { IfOk result (λ found. map (λ c. c.now) found.items ≡ keys.value_columns self.now.select.now self.now.known.items) }
    {
        columns_besides(alloc, &self.columns, &self.places)
    }
}

/// The findings about an expression in a scope.
fn judged(alloc: Global, scope: &Scope, expr: &Expr) -> Result<Judged, AllocError>
    requires small { IsSmall expr.now }
    requires columns { length scope.now.columns ≤ 2 ^ 32 - 2 }
    ensures { IfOk result (λ found. found ≡ typing.judged expr.now scope.now) }
{
    judge(alloc, scope, scope.windowed, expr)
}

/// The types that an expression can have in a scope.
pub fn types_of(alloc: Global, scope: &Scope, expr: &Expr) -> Result<Types, AllocError>
    requires small { IsSmall expr.now }
    requires columns { length scope.now.columns ≤ 2 ^ 32 - 2 }
    ensures { IfOk result (λ types. types ≡ decided.types_of scope.now expr.now) }
{
    let found = judged(alloc, scope, expr)?;
    Ok(found.types)
}

/// The findings about several expressions in a scope.
#[tactic(auto, unfolding(ksql_typing::specs::Judged::judged))]
fn found_in(alloc: Global, scope: &Scope, exprs: &[&Expr]) -> Result<Found, AllocError>
    requires small { All IsSmall (map (λ a. a.now) exprs.now) }
    requires columns { length scope.now.columns ≤ 2 ^ 32 - 2 }
    ensures { IfOk result (λ found. IsFound found scope.now (map (λ a. a.now) exprs.now)) }
{
    let mut found = Found {
        unknown: false,
        ambiguous: false,
        typed: true,
    };
    for expr in exprs {
        let one = judged(alloc, scope, expr)?;
        found = Found {
            unknown: found.unknown || one.unknown,
            ambiguous: found.ambiguous || one.ambiguous,
            typed: found.typed && has_some_type(one.types),
        };
    }
    Ok(found)
}

/// The findings about a query, given the relations of a catalog.
pub fn find_out<'a>(
    alloc: Global,
    catalog: &Catalog,
    select: &'a Select,
) -> Result<Findings<'a>, AllocError>
    requires query { IsQueryWithin select.now }
    requires relations { All IsRelationWithin catalog.now }
    ensures of_select { IfOk result (λ findings. findings.select.now ≡ select.now) }
    ensures of_catalog { IfOk result (λ findings. findings.known.items ≡ sources.all_known catalog.now select.now) }
    ensures found { IfOk result AreFindings }
{
    let known = all_known(alloc, catalog, select)?;
    let scope = from_scope(alloc, select, &known)?;
    let on_scope = on_scope(alloc, select, &known)?;
    let item_scope = item_scope(alloc, select, &known)?;
    let on = on_exprs(alloc, select)?;
    let front = front_exprs(alloc, select)?;
    let early = early_exprs(alloc, select)?;
    let late = late_exprs(alloc, select)?;
    let columns = result_columns(alloc, select, &known, &item_scope)?;
    let key = join_key(alloc, &on_scope, select, &known)?;
    let needs = needs(alloc, &scope, &on_scope, select, &known, key)?;
    let places = key_places(alloc, &needs, &columns)?;
    let groups = each_resolved(alloc, &scope, select.group.items())?;
    let in_on = found_in(alloc, &on_scope, &on)?;
    let in_front = found_in(alloc, &scope, &front)?;
    let in_late = found_in(alloc, &item_scope, &late)?;
    let having = part_resolved(alloc, &item_scope, &select.having)?;
    Ok(Findings {
        select,
        known,
        scope,
        on_scope,
        item_scope,
        early,
        late,
        columns,
        places,
        key,
        groups,
        having,
        in_on,
        in_front,
        in_late,
    })
}
