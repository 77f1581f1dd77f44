//! Expressions with resolved names.

ghost use Rattle.std.specs.Prelude.{◌≡◌, IfOk, option_copied, find};
ghost use Rattle.ksql_scopes.specs.Resolved as spec;
ghost use Rattle.ksql_scopes.specs.Scope as names;

use crate::scope::{Scope, ScopeColumn};
use crate::sense::{is_first, is_known_as};
use expression_trees::{Expr, Replaces, becomes};
use ksql_types::{Chars, CopyOf};
use std::alloc::{AllocError, Global};

/// Whether a name stands for ROWTIME.
pub fn is_row_time(scope: &Scope, qualifier: &Option<Chars>, name: &Chars) -> bool
    ensures { result ≡ spec.is_row_time scope.now qualifier.now name.now }
{
    scope.stream && name.items() == "ROWTIME" && is_first(scope.columns.items(), qualifier)
}

/// The first column that `name` after `qualifier` stands for.
pub fn first_known_as<'a>(
    columns: &'a [ScopeColumn],
    qualifier: &Option<Chars>,
    name: &Chars,
) -> Option<&'a ScopeColumn>
    ensures { option_copied result ≡ find (names.is_known_as qualifier.now name.now) columns.now }
{
    columns
        .iter()
        .find(|column| is_known_as(qualifier, name, column))
}

/// A name as it is written wherever it is used: a column after the name of its relation, ROWTIME alone.
fn full_name(
    alloc: Global,
    scope: &Scope,
    qualifier: &Option<Chars>,
    name: &Chars,
) -> Result<Expr, AllocError>
    ensures { IfOk result (λ found. found ≡ spec.full_name scope.now qualifier.now name.now) }
{
    match first_known_as(scope.columns.items(), qualifier, name) {
        Some(column) => written(alloc, &column.alias, name),
        None => {
            if is_row_time(scope, qualifier, name) {
                return written(alloc, &None, name);
            }
            written(alloc, qualifier, name)
        }
    }
}

fn written(alloc: Global, qualifier: &Option<Chars>, name: &Chars) -> Result<Expr, AllocError>
    ensures { IfOk result (λ copied. copied ≡ Expr.Name qualifier.now name.now) }
{
    let qualifier = qualifier.copy(alloc)?;
    let name = name.copy(alloc)?;
    Ok(Expr::Name { qualifier, name })
}

/// Replaces each name in an expression by what it stands for in a scope, in full.
#[derive(Clone, Copy)]
struct FullNames<'a> {
    scope: &'a Scope,
}

impl Replaces for FullNames<'_> {
    ghost decide = { λ names. spec.full_name_of names.scope.now };

    fn replacement(&self, alloc: Global, expr: &Expr) -> Result<Option<Expr>, AllocError> {
        match expr {
            Expr::Name { qualifier, name } => {
                let name = full_name(alloc, self.scope, qualifier, name)?;
                Ok(Some(name))
            }
            _ => Ok(None),
        }
    }
}

/// The expression with resolved names.
#[tactic(auto, unfolding(crate::specs::Resolved::resolved))]
pub fn resolved(alloc: Global, scope: &Scope, expr: &Expr) -> Result<Expr, AllocError>
    ensures { IfOk result (λ found. found ≡ spec.resolved scope.now expr.now) }
{
    becomes(alloc, &FullNames { scope }, expr)
}
