//! A law of values. Its function does nothing.

ghost use Rattle.std.specs.Prelude.{◌≡◌, ℕ, List};
ghost use Rattle.ksql_types.specs.declared.value.Value.{Value as OneValue};
ghost use Rattle.ksql_expr.specs.declared.typed.Typed.{Typed as OneTyped};
ghost use Rattle.ksql_expr.specs.Aggregates.{IsTimeless};
ghost use Rattle.ksql_expr.specs.Value.{value_of};

/// An expression without ROWTIME has the same value at any two times.
#[tactic(auto, using(crate::proofs::Times::timeless_value))]
pub fn timeless_values()
    ensures { (e : OneTyped) (row : List OneValue) (a b : ℕ) → IsTimeless e → value_of row a e ≡ value_of row b e }
{}
