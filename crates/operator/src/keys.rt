ghost use Rattle.std.specs.Prelude.{◌≡◌, ◌↔◌, All, IfOk, OnOk, IsTrue};
ghost use Rattle.record_codec.specs.Spelling.{values, IsShort, IsSpellableRow};

use ksql_types::{Bytes, Key, LONGEST_VALUE, Value};
use record_codec::encode_values;
use std::alloc::{AllocError, Global};

/// The bytes of a key in the stores. They tell the types of its values too.
pub fn spelled_key(alloc: Global, key: &Key) -> Result<Bytes, AllocError>
    requires { All IsShort key.now }
    ensures bytes { IfOk result (λ bytes. bytes ≡ values key.now) }
    ensures spellable { OnOk result (IsSpellableRow key.now) }
{
    encode_values(alloc, key.items())
}

/// Whether each value of a key is short enough to be spelled in a store.
pub fn is_short(key: &Key) -> bool
    ensures { IsTrue result ↔ All IsShort key.now }
{
    for value in key.items() {
        if !is_short_value(value) {
            return false;
        }
    }
    true
}

/// Whether a value is no text longer than `LONGEST_VALUE` bytes.
fn is_short_value(value: &Value) -> bool
    ensures { IsTrue result ↔ IsShort value.now }
{
    match value {
        Value::Txt(text) => text.items().len() <= LONGEST_VALUE,
        _ => true,
    }
}
