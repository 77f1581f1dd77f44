//! The query of a statement.

ghost use Rattle.std.specs.Prelude.{IfOk};
ghost use Rattle.ksql_analyse.specs.Accepted.{IsAcceptedQuery};
ghost use Rattle.ksql_analyse.specs.Judgement as spec;

use crate::from::from_of;
use crate::result::result_of;
use crate::shape::shape_of;
use crate::trees::part_tree;
use ksql_program::Query;
use ksql_rules::Findings;
use ksql_types::Boxed;
use statement_trees::{Property, Statement};
use std::alloc::{AllocError, Global};

/// The query of a statement, whose result has this number, given the findings about it.
pub(crate) fn query_of(
    alloc: Global,
    number: u32,
    statement: &Statement,
    props: &[Property],
    findings: &Findings,
) -> Result<Query, AllocError>
    requires { IsAcceptedQuery statement.now props.now findings.now }
    ensures { IfOk result (λ query. spec.IsQuery number statement.now props.now findings.now.select.now findings.now.known.items query) }
{
    let from = Boxed::of(alloc, from_of(alloc, findings)?)?;
    let shape = Boxed::of(alloc, shape_of(alloc, findings)?)?;
    let out = result_of(alloc, number, statement, props, findings, shape.get())?;
    let filter = part_tree(alloc, &findings.scope, &findings.select.filter)?;
    Ok(Query {
        from: from.into_inner(),
        filter,
        shape: shape.into_inner(),
        out,
    })
}
