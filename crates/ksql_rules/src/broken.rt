//! Whether a statement breaks the rule of a code.

ghost use Rattle.std.specs.Prelude.{◌≡◌, ◌↔◌, All, IfOk, IsTrue};
ghost use Rattle.ksql_clauses.specs.Sources as sources;
ghost use Rattle.ksql_rules.specs.Bodies.{IsBodyOf};
ghost use Rattle.ksql_rules.specs.Breaks as spec;
ghost use Rattle.ksql_rules.specs.Findings.{AreFindings};
ghost use Rattle.ksql_rules.specs.Limits.{IsBodyWithin, IsRelationWithin};

use crate::aggregations::{is_query_unsupported, misuses_aggregates};
use crate::declarations::declaration_breaks;
use crate::findings::{Findings, find_out};
use crate::queries::{
    has_ambiguous_column, has_bad_names, has_unknown_column, have_other_partitions, is_bad_window,
    is_not_on_key, is_query_bad, is_query_too_large, is_query_wrong, lacks_key,
};
use crate::topics::{has_many_partitions, is_taken};
use crate::types::is_query_typed;
use ksql_clauses::has_unknown_source;
use ksql_types::{Catalog, Code};
use statement_trees::{ColumnText, Property, Statement, StatementBody};
use std::alloc::{AllocError, Global};

/// The most relations of a script.
const MOST_RELATIONS: usize = 200;

/// The body of a statement; for a query, with the findings about it.
#[derive(Drop)]
pub enum Body<'a> {
    Declared(&'a [ColumnText], &'a [Property]),
    Query(&'a [Property], Findings<'a>),
}

/// The body of a statement, given the relations of a catalog.
pub fn body_of<'a>(
    alloc: Global,
    catalog: &Catalog,
    body: &'a StatementBody,
) -> Result<Body<'a>, AllocError>
    requires body { IsBodyWithin body.now }
    requires relations { All IsRelationWithin catalog.now }
    ensures { IfOk result (λ found. IsBodyOf found catalog.now body.now) }
{
    match body {
        StatementBody::Declared { columns, props } => {
            Ok(Body::Declared(columns.items(), props.items()))
        }
        StatementBody::Query { props, select } => {
            let findings = find_out(alloc, catalog, select)?;
            Ok(Body::Query(props.items(), findings))
        }
    }
}

/// Whether a query breaks the rule of a code.
fn query_breaks(
    alloc: Global,
    catalog: &Catalog,
    statement: &Statement,
    props: &[Property],
    findings: &Findings,
    code: Code,
) -> Result<bool, AllocError>
    requires known { findings.now.known.items ≡ sources.all_known catalog.now findings.now.select.now }
    requires found { AreFindings findings.now }
    ensures { IfOk result (λ broken. IsTrue broken
        ↔ spec.QueryBreaks catalog.now statement.now props.now findings.now.select.now findings.now.known.items code) }
{
    let select = findings.select;
    let known = findings.known.as_slice();
    match code {
        Code::Syntax => Ok(false),
        Code::TooLarge => Ok(is_query_too_large(findings) || has_many_partitions(props)),
        Code::UnknownRelation => Ok(has_unknown_source(catalog, select)),
        Code::NameTaken => Ok(is_taken(catalog, statement)),
        Code::UnknownColumn => Ok(has_unknown_column(findings)),
        Code::AmbiguousColumn => Ok(has_ambiguous_column(findings)),
        Code::DuplicateColumn => has_bad_names(alloc, findings),
        Code::TypeMismatch => Ok(!is_query_typed(alloc, findings)?),
        Code::WrongKind => Ok(is_query_wrong(statement.table, select, known)),
        Code::KeyMissing => Ok(lacks_key(findings)),
        Code::JoinNotOnKey => Ok(is_not_on_key(findings)),
        Code::PartitionMismatch => Ok(have_other_partitions(known)),
        Code::AggregateMisuse => Ok(misuses_aggregates(findings)),
        Code::BadWindow => Ok(is_bad_window(select, known)),
        Code::Unsupported => Ok(is_query_unsupported(findings)),
        Code::BadProperty => is_query_bad(alloc, &statement.name, props, findings),
    }
}

/// Whether the script already has as many relations as it may.
fn is_full_catalog(catalog: &Catalog, code: Code) -> bool
    ensures { result ≡ spec.is_full_catalog catalog.now code }
{
    matches!(code, Code::TooLarge) && MOST_RELATIONS <= catalog.items().len()
}

fn body_breaks(
    alloc: Global,
    catalog: &Catalog,
    statement: &Statement,
    body: &Body,
    code: Code,
) -> Result<bool, AllocError>
    requires { IsBodyOf body.now catalog.now statement.now.body }
    ensures { IfOk result (λ broken. IsTrue broken ↔ spec.BodyBreaks catalog.now statement.now statement.now.body code) }
{
    match body {
        Body::Declared(columns, props) => {
            declaration_breaks(alloc, catalog, statement, columns, props, code)
        }
        Body::Query(props, findings) => {
            query_breaks(alloc, catalog, statement, props, findings, code)
        }
    }
}

/// Whether a statement with this body breaks the rule of a code.
pub fn breaks(
    alloc: Global,
    catalog: &Catalog,
    statement: &Statement,
    body: &Body,
    code: Code,
) -> Result<bool, AllocError>
    requires { IsBodyOf body.now catalog.now statement.now.body }
    ensures { IfOk result (λ broken. IsTrue broken ↔ spec.Breaks catalog.now statement.now code) }
{
    if is_full_catalog(catalog, code) {
        return Ok(true);
    }
    body_breaks(alloc, catalog, statement, body, code)
}
