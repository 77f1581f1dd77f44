//! What the sets of their types decide about expressions.

ghost use Rattle.std.specs.Prelude.{◌≡◌};
ghost use Rattle.ksql_type_sets.specs.Decisions as spec;
ghost use Rattle.ksql_type_sets.specs.Sets.{some_in};

use crate::possible::{KINDS, Types};
use ksql_expr::{fits, same_type};
use ksql_types::SqlType;

/// Whether an expression has a type other than that of plain NULL.
#[tactic(auto, unfolding(crate::specs::Sets::some_in))]
pub fn has_value(types: Types) -> bool
    ensures { result ≡ spec.has_value types }
{
    KINDS.iter().any(|x| types.has(*x) && x.is_some())
}

/// Whether some type of an expression fits BOOLEAN.
#[tactic(auto, unfolding(crate::specs::Sets::some_in))]
pub fn can_be_true(types: Types) -> bool
    ensures { result ≡ spec.can_be_true types }
{
    KINDS
        .iter()
        .any(|x| types.has(*x) && fits(SqlType::Bool, *x))
}

fn do_agree(one: Option<SqlType>, other: Option<SqlType>) -> bool
    ensures { result ≡ spec.do_agree one other }
{
    match (one, other) {
        (Some(one), Some(other)) => same_type(one, other),
        _ => true,
    }
}

#[tactic(auto, unfolding(crate::specs::Sets::some_in))]
fn can_agree_with(one: Option<SqlType>, types: Types) -> bool
    ensures { result ≡ some_in types (spec.do_agree one) }
{
    KINDS.iter().any(|x| types.has(*x) && do_agree(one, *x))
}

/// Whether a type of one expression agrees with a type of the other: they are the same, or one is that of plain NULL.
#[tactic(auto, unfolding(crate::specs::Sets::some_in))]
pub fn can_agree(one: Types, other: Types) -> bool
    ensures { result ≡ spec.can_agree one other }
{
    KINDS
        .iter()
        .any(|x| one.has(*x) && can_agree_with(*x, other))
}
