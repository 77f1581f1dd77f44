ghost use Rattle.std.specs.Prelude.{◌≡◌, ◌∷◌, [], IfErr, IfOk, not, false};
ghost use Rattle.std.specs.List.{list_all};
ghost use Rattle.ksql_types.specs.Key.{IsKey, is_key, is_null};

use crate::copying::CopyOf;
use crate::items::Items;
use crate::value::Value;
use std::alloc::{AllocError, Global};
use std::array;
use std::marker::Model;

/// The values of a key. Most keys have one value, which needs no list.
#[derive(Debug, Drop)]
enum KeyValues {
    One(Value),
    Several(Items<Value>),
}

/// A key: at most 8 values, none of which is `Null`. The empty list means no key.
#[derive(Debug, Drop)]
pub struct Key {
    values: KeyValues,
}

impl Model for Key {
    ghost use Rattle.std.specs.Prelude.{List};
    ghost use Rattle.ksql_types.specs.declared.value.Value.{Value as OneValue};
    ghost use Rattle.ksql_types.specs.Key.{IsKey, values_of};

    ghost Value = { List OneValue };

    ghost view = { λ k. values_of k.values };

    ghost invariant = { λ k. IsKey (values_of k.values) };
}

impl Key {
    /// The key of one value. Takes no memory.
    pub fn one(value: Value) -> Key
        requires { is_null value ≡ false }
        ensures { result ≡ value ∷ [] }
    {
        Key {
            values: KeyValues::One(value),
        }
    }

    /// The key of these values. Takes no memory.
    pub fn of(values: Vec<Value>) -> Key
        requires { IsKey values.items }
        ensures { result ≡ values.items }
    {
        let values = match single(values) {
            Ok(value) => KeyValues::One(value),
            Err(values) => KeyValues::Several(Items::of(values)),
        };
        Key { values }
    }

    /// Whether these values form a key.
    pub fn is_key(values: &[Value]) -> bool
        ensures { result ≡ is_key values.now }
    {
        values.len() <= 8 && are_present(values)
    }

    /// The values, borrowed.
    pub fn items(&self) -> &[Value]
        ensures value { result.now ≡ self.now }
        ensures key { IsKey self.now }
    {
        match &self.values {
            KeyValues::One(value) => array::from_ref(value),
            KeyValues::Several(values) => values.items(),
        }
    }
}

/// The only value of a list of one, or else the list itself.
fn single(values: Vec<Value>) -> Result<Value, Vec<Value>>
    ensures one { IfOk result (λ value. values.items ≡ value ∷ []) }
    ensures several { IfErr result (λ same. same.items ≡ values.items) }
{
    let mut values = values;
    if values.len() != 1 {
        return Err(values);
    }
    match values.pop() {
        Some(value) => Ok(value),
        None => unreachable!(),
    }
}

/// Whether no value is NULL.
fn are_present(values: &[Value]) -> bool
    ensures { result ≡ list_all (λ v. not (is_null v)) values.now }
{
    values.iter().all(|value| !value.is_null())
}

impl CopyOf for KeyValues {
    fn copy(&self, alloc: Global) -> Result<KeyValues, AllocError> {
        match self {
            KeyValues::One(value) => Ok(KeyValues::One(value.copy(alloc)?)),
            KeyValues::Several(values) => Ok(KeyValues::Several(values.copy(alloc)?)),
        }
    }
}

impl CopyOf for Key {
    fn copy(&self, alloc: Global) -> Result<Key, AllocError> {
        let values = self.values.copy(alloc)?;
        Ok(Key { values })
    }
}
