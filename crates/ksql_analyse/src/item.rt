//! The item of a statement.

ghost use Rattle.std.specs.Prelude.{All, IfOk};
ghost use Rattle.ksql_rules.specs.Bodies.{IsBodyOf};
ghost use Rattle.ksql_rules.specs.Limits.{IsWithinLimits};
ghost use Rattle.ksql_rules.specs.Lowest.{IsAccepted};
ghost use Rattle.ksql_analyse.specs.Few.{HasFewCalls};
ghost use Rattle.ksql_analyse.specs.Judgement.{IsItemOf};
ghost use Rattle.ksql_analyse.specs.Plain.{HasPlainNames};

use crate::declaration::declared_relation;
use crate::query::query_of;
use ksql_program::Item;
use ksql_rules::Body;
use ksql_types::Catalog;
use statement_trees::Statement;
use std::alloc::{AllocError, Global};

/// The item of an accepted statement, given the findings about its body.
pub(crate) fn item_of(
    alloc: Global,
    catalog: &Catalog,
    statement: &Statement,
    body: &Body,
) -> Result<Item, AllocError>
    requires body { IsBodyOf body.now catalog.now statement.now.body }
    requires accepted { IsAccepted catalog.now statement.now }
    requires limits { IsWithinLimits statement.now }
    requires plain { All HasPlainNames catalog.now }
    requires few { HasFewCalls statement.now.body }
    ensures { IfOk result (λ item. IsItemOf catalog.now statement.now item) }
{
    let number = catalog.items().len() as u32;
    match body {
        Body::Declared(columns, props) => {
            let relation = declared_relation(alloc, number, statement, columns, props)?;
            Ok(Item::Declared(relation))
        }
        Body::Query(props, findings) => {
            let query = query_of(alloc, number, statement, props, findings)?;
            Ok(Item::Started(query))
        }
    }
}
