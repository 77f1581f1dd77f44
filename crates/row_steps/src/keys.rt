ghost use Rattle.std.specs.Prelude.{◌≡◌, ◌∷◌, []};
ghost use Rattle.ksql_nodes.specs.Entries.{is_same_key, is_same_value};
ghost use Rattle.ksql_nodes.specs.Rows.{key_of};

use ksql_types::{Key, Value};
use std::alloc::Global;

/// Whether two keys are the same.
pub fn is_same_key(a: &Key, b: &Key) -> bool
    ensures { result ≡ is_same_key a.now b.now }
{
    are_same(a.items(), b.items())
}

/// Whether two lists have the same values in the same order.
#[tactic(auto, unfolding(ksql_nodes::specs::Entries::is_same_key))]
fn are_same(a: &[Value], b: &[Value]) -> bool
    ensures { result ≡ is_same_key a.now b.now }
{
    match (a, b) {
        ([], []) => true,
        ([first, firsts @ ..], [second, seconds @ ..]) => {
            is_same_value(first, second) && are_same(firsts, seconds)
        }
        _ => false,
    }
}

/// Whether two values are the same. Unlike in SQL, two NULLs are.
fn is_same_value(a: &Value, b: &Value) -> bool
    ensures { result ≡ is_same_value a.now b.now }
{
    match (a, b) {
        (Value::Null, Value::Null) => true,
        (Value::Int(first), Value::Int(second)) => first == second,
        (Value::Big(first), Value::Big(second)) => first == second,
        (Value::Txt(first), Value::Txt(second)) => first == second,
        (Value::Bool(first), Value::Bool(second)) => first == second,
        _ => false,
    }
}

/// The key of these values: none if they form no key.
pub fn key_of(alloc: Global, values: Vec<Value>) -> Key
    ensures { result ≡ key_of values.items }
{
    if Key::is_key(values.as_slice()) {
        Key::of(values)
    } else {
        Key::of(Vec::new(alloc))
    }
}

/// The key of one value: none if it is NULL.
pub(crate) fn one_key(alloc: Global, value: Value) -> Key
    ensures { result ≡ key_of (value ∷ []) }
{
    if value.is_null() {
        Key::of(Vec::new(alloc))
    } else {
        Key::one(value)
    }
}
