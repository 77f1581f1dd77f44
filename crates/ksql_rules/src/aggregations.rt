//! How a query uses aggregates.

ghost use Rattle.std.specs.Prelude.{◌≡◌, ◌||◌};
ghost use Rattle.std.specs.List.{list_any};
ghost use Rattle.ksql_scopes.specs.Uses as uses;
ghost use Rattle.aggregate_rules.specs.Grouping as grouping;
ghost use Rattle.ksql_clauses.specs.Sources as sources;
ghost use Rattle.ksql_rules.specs.Breaks as spec;
ghost use Rattle.ksql_rules.specs.Findings.{AreFindings};

use crate::findings::Findings;
use crate::queries::{is_grouped, is_stream_join, joins_itself, reads_windowed};
use crate::truth::either;
use aggregate_rules::{
    has_aggregate, has_bare_column, has_nested_aggregate, has_ordered_aggregate,
    has_unknown_function,
};
use expression_trees::Expr;
use ksql_clauses::{Named, joined_streams, reads_stream};
use ksql_types::Boxed;

fn one_has_aggregate(exprs: &[&Expr]) -> bool
    ensures { result ≡ list_any (λ a. grouping.has_aggregate a.now) exprs.now }
{
    exprs.iter().any(|expr| has_aggregate(expr))
}

fn one_has_nested(exprs: &[&Expr]) -> bool
    ensures { result ≡ list_any (λ a. grouping.has_nested_aggregate a.now) exprs.now }
{
    exprs.iter().any(|expr| has_nested_aggregate(expr))
}

fn one_has_ordered(exprs: &[&Expr]) -> bool
    ensures { result ≡ list_any (λ a. grouping.has_ordered_aggregate a.now) exprs.now }
{
    exprs.iter().any(|expr| has_ordered_aggregate(expr))
}

fn one_has_unknown(exprs: &[&Expr]) -> bool
    ensures { result ≡ list_any (λ a. uses.has_unknown_function a.now) exprs.now }
{
    exprs.iter().any(|expr| has_unknown_function(expr))
}

fn one_is_bare(groups: &[Expr], columns: &[Named]) -> bool
    ensures { result ≡ list_any (λ c. grouping.has_bare_column groups.now c.expr) columns.now }
{
    columns
        .iter()
        .any(|column| has_bare_column(groups, &column.expr))
}

fn is_having_bare(groups: &[Expr], having: &Option<Boxed<Expr>>) -> bool
    ensures { result ≡ list_any (grouping.has_bare_column groups.now) (sources.there having.now) }
{
    match having {
        None => false,
        Some(having) => has_bare_column(groups, having.get()),
    }
}

/// Whether a result column or HAVING has a column that is neither in an aggregate nor in a group expression.
fn has_bare(findings: &Findings) -> bool
    requires { AreFindings findings.now }
    ensures { let q = findings.now.select.now in let ks = findings.now.known.items in
        result ≡ list_any (grouping.has_bare_column (spec.group_exprs q ks)) (spec.shown_exprs q ks) }
{
    either(
        one_is_bare(&findings.groups, &findings.columns),
        is_having_bare(&findings.groups, &findings.having),
    )
}

/// Whether an aggregate stands in the items or HAVING.
fn is_aggregated(findings: &Findings) -> bool
    requires { AreFindings findings.now }
    ensures { result ≡ list_any grouping.has_aggregate (sources.late_exprs findings.now.select.now) }
{
    one_has_aggregate(&findings.late)
}

/// Whether an aggregate stands outside the items and HAVING, or inside another.
fn has_misplaced(findings: &Findings) -> bool
    requires { AreFindings findings.now }
    ensures { let q = findings.now.select.now in
        result ≡ (list_any grouping.has_aggregate (sources.early_exprs q) || list_any grouping.has_nested_aggregate (sources.late_exprs q)) }
{
    either(
        one_has_aggregate(&findings.early),
        one_has_nested(&findings.late),
    )
}

/// Whether the items or HAVING contain an aggregate that can't be used on a table.
fn has_ordered(findings: &Findings) -> bool
    requires { AreFindings findings.now }
    ensures { result ≡ list_any grouping.has_ordered_aggregate (sources.late_exprs findings.now.select.now) }
{
    one_has_ordered(&findings.late)
}

/// Whether a query uses aggregates where they aren't allowed, or groups without them.
pub fn misuses_aggregates(findings: &Findings) -> bool
    requires { AreFindings findings.now }
    ensures { result ≡ spec.misuses_aggregates findings.now.select.now findings.now.known.items }
{
    let select = findings.select;
    let bare = has_bare(findings);
    let aggregated = is_aggregated(findings);
    let ungrouped = !is_grouped(select) && (aggregated || select.having.is_some());
    let grouped = is_grouped(select) && (!aggregated || select.partition.is_some() || bare);
    let ordered = !reads_stream(&findings.known) && has_ordered(findings);
    has_misplaced(findings) || ungrouped || grouped || ordered
}

fn has_unknown(findings: &Findings) -> bool
    requires { AreFindings findings.now }
    ensures { let q = findings.now.select.now in
        result ≡ (list_any uses.has_unknown_function (sources.early_exprs q) || list_any uses.has_unknown_function (sources.late_exprs q)) }
{
    either(
        one_has_unknown(&findings.early),
        one_has_unknown(&findings.late),
    )
}

/// Whether a query has an unknown function, reads a windowed table, joins a relation with itself or joins two streams.
pub fn is_query_unsupported(findings: &Findings) -> bool
    requires { AreFindings findings.now }
    ensures { result ≡ spec.is_query_unsupported findings.now.select.now findings.now.known.items }
{
    has_unknown(findings)
        || reads_windowed(&findings.known)
        || joins_itself(&findings.known)
        || is_stream_join(joined_streams(&findings.known))
}
