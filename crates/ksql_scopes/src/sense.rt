//! What a name stands for.

ghost use Rattle.std.specs.Prelude.{◌≡◌, ◌<◌, ◌≤◌, ◌-◌, ◌^◌, length};
ghost use Rattle.ksql_scopes.specs.Scope.{is_qualified, is_known_as, columns_known_as, first_alias, row_time, window_bounds, meanings, seen};
ghost use Rattle.ksql_scopes.specs.Senses.{sense, view, both};

use crate::scope::{Scope, ScopeColumn};
use ksql_types::{Chars, SqlType};

/// What a name stands for: nothing, one thing and its type (a column by its index, or the row's time if `column` is
/// None), or several things.
#[derive(Clone, Copy, Debug, PartialEq, Eq)]
pub enum Sense {
    Nothing,
    One { column: Option<u32>, ty: SqlType },
    Several,
}

impl Sense {
    fn and(self, other: Sense) -> Sense
        ensures { view result ≡ both (view self) (view other) }
    {
        match (self, other) {
            (Sense::Nothing, _) => other,
            (_, Sense::Nothing) => self,
            _ => Sense::Several,
        }
    }
}

/// Whether `qualifier`, if written, names the relation with this alias.
fn is_qualified(qualifier: &Option<Chars>, alias: &Option<Chars>) -> bool
    ensures { result ≡ is_qualified qualifier.now alias.now }
{
    match (qualifier, alias) {
        (None, _) => true,
        (Some(_), None) => false,
        (Some(qualifier), Some(alias)) => alias == qualifier,
    }
}

/// Whether `name` after `qualifier` stands for this column.
pub(crate) fn is_known_as(qualifier: &Option<Chars>, name: &Chars, column: &ScopeColumn) -> bool
    ensures { result ≡ is_known_as qualifier.now name.now column.now }
{
    is_qualified(qualifier, &column.alias) && column.column.name == *name
}

fn column_sense(columns: &[ScopeColumn], qualifier: &Option<Chars>, name: &Chars) -> Sense
    requires { length columns.now < 2 ^ 32 }
    ensures { view result ≡ sense (columns_known_as qualifier.now name.now 0 columns.now) }
{
    let mut found = Sense::Nothing;
    for (index, column) in columns.iter().enumerate() {
        if is_known_as(qualifier, name, column) {
            found = found.and(Sense::One {
                column: Some(index as u32),
                ty: column.column.ty,
            });
        }
    }
    found
}

/// Whether `qualifier`, if written, names the relation of the first column.
pub(crate) fn is_first(columns: &[ScopeColumn], qualifier: &Option<Chars>) -> bool
    ensures { result ≡ is_qualified qualifier.now (first_alias columns.now) }
{
    match columns {
        [] => qualifier.is_none(),
        [first, ..] => is_qualified(qualifier, &first.alias),
    }
}

fn time_sense(scope: &Scope, qualifier: &Option<Chars>, name: &Chars) -> Sense
    ensures { view result ≡ sense (row_time scope.now qualifier.now name.now) }
{
    let named = scope.stream && name.items() == "ROWTIME";
    if named && is_first(scope.columns.items(), qualifier) {
        return Sense::One {
            column: None,
            ty: SqlType::Big,
        };
    }
    Sense::Nothing
}

fn bound_sense(scope: &Scope, windowed: bool, qualifier: &Option<Chars>, name: &Chars) -> Sense
    requires { length scope.now.columns ≤ 2 ^ 32 - 2 }
    ensures { view result ≡ sense (window_bounds (seen windowed scope.now) qualifier.now name.now) }
{
    if qualifier.is_some() || !windowed {
        return Sense::Nothing;
    }
    let behind = scope.columns.items().len() as u32;
    if name.items() == "WINDOWSTART" {
        return Sense::One {
            column: Some(behind),
            ty: SqlType::Big,
        };
    }
    if name.items() == "WINDOWEND" {
        return Sense::One {
            column: Some(behind + 1),
            ty: SqlType::Big,
        };
    }
    Sense::Nothing
}

/// What a name stands for in a scope. If `windowed` is true, it can also name the bounds of windows.
#[tactic(auto, unfolding(crate::specs::Scope::meanings))]
pub fn sense_of(scope: &Scope, windowed: bool, qualifier: &Option<Chars>, name: &Chars) -> Sense
    requires { length scope.now.columns ≤ 2 ^ 32 - 2 }
    ensures { view result ≡ sense (meanings (seen windowed scope.now) qualifier.now name.now) }
{
    let columns = column_sense(scope.columns.items(), qualifier, name);
    let time = time_sense(scope, qualifier, name);
    let bound = bound_sense(scope, windowed, qualifier, name);
    columns.and(time).and(bound)
}
