//! Which names in an expression belong to a join's left relation.

ghost use Rattle.std.specs.Prelude.{◌≡◌};
ghost use Rattle.ksql_clauses.specs.Keys as keys;
ghost use Rattle.ksql_clauses.specs.Sought as spec;

use crate::sources::Known;
use expression_trees::{Decides, Expr, passes};
use ksql_scopes::{Scope, first_known_as, is_row_time};
use ksql_types::Chars;

/// The names to look for in an expression.
#[derive(Clone, Copy)]
pub enum Sought<'a> {
    /// All.
    Any,
    /// Names that are neither a column of the left relation nor its time.
    Other(&'a Scope, &'a Known),
}

/// Whether a name is a column of the left relation, or its time.
fn is_left_name(scope: &Scope, left: &Known, qualifier: &Option<Chars>, name: &Chars) -> bool
    ensures { result ≡ keys.is_left_name scope.now left.now (spec.use_of qualifier.now name.now) }
{
    match first_known_as(scope.columns.items(), qualifier, name) {
        None => is_row_time(scope, qualifier, name),
        Some(column) => match &column.alias {
            None => false,
            Some(alias) => *alias == left.alias,
        },
    }
}

fn is_sought(sought: Sought, qualifier: &Option<Chars>, name: &Chars) -> bool
    ensures { result ≡ spec.is_sought sought.entry (spec.use_of qualifier.now name.now) }
{
    match sought {
        Sought::Any => true,
        Sought::Other(scope, left) => !is_left_name(scope, left, qualifier, name),
    }
}

impl Decides for Sought<'_> {
    ghost decide = { spec.sought_name };

    fn decision(&self, expr: &Expr) -> Option<bool> {
        match expr {
            Expr::Name { qualifier, name } => Some(is_sought(*self, qualifier, name)),
            _ => None,
        }
    }
}

/// Whether an expression has a name that is looked for.
pub fn has_name(sought: Sought, expr: &Expr) -> bool
    ensures { result ≡ spec.has_name sought.entry expr.now }
{
    passes(&sought, expr)
}
