ghost use Rattle.std.specs.Prelude.{◌≡◌, List, ◌↔◌};
ghost use Rattle.std.specs.Ordering.{ordering_reverse};
ghost use Rattle.ksql_types.specs.declared.value.Value.{Value as OneValue};
ghost use Rattle.ksql_types.specs.Order.{AreAlike, key_cmp, value_cmp};

use crate::key::Key;
use crate::value::Value;
use std::cmp::Ordering;

/// Compares two keys whose values have the same types in order: the first values that differ decide, numbers by value,
/// texts by their bytes, false before true. Takes no memory.
pub fn cmp_key(a: &Key, b: &Key) -> Ordering
    requires { AreAlike a.now b.now }
    ensures { result ≡ key_cmp a.now b.now }
{
    for (first, second) in a.items().iter().zip(b.items()) {
        let order = cmp_value(first, second);
        if order != Ordering::Equal {
            return order;
        }
    }
    Ordering::Equal
}

/// Compares two values of the same type.
fn cmp_value(a: &Value, b: &Value) -> Ordering
    ensures { result ≡ value_cmp a.now b.now }
{
    match (a, b) {
        (Value::Int(first), Value::Int(second)) => first.cmp(second),
        (Value::Big(first), Value::Big(second)) => first.cmp(second),
        (Value::Txt(first), Value::Txt(second)) => first.cmp(second),
        (Value::Bool(first), Value::Bool(second)) => first.cmp(second),
        _ => Ordering::Equal,
    }
}

/// The order of keys is total: a key equals itself and no other key of its types, swapping two keys reverses their
/// order, and the order is transitive. Does nothing.
pub fn keys_are_ordered()
    ensures reflexive { (a : List OneValue) → key_cmp a a ≡ Ordering.Equal }
    ensures antisymmetric { (a b : List OneValue) → AreAlike a b → (key_cmp a b ≡ Ordering.Equal) ↔ (a ≡ b) }
    ensures reversed { (a b : List OneValue) → key_cmp a b ≡ ordering_reverse (key_cmp b a) }
    ensures transitive { (a b c : List OneValue) → AreAlike a b → AreAlike b c → key_cmp a b ≡ Ordering.Less → key_cmp b c ≡ Ordering.Less → key_cmp a c ≡ Ordering.Less }
{}
