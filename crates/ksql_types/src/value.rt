ghost use Rattle.std.specs.Prelude.{◌≡◌};
ghost use Rattle.ksql_types.specs.Key.{is_null};

use crate::chars::Chars;
use crate::copying::CopyOf;
use crate::items::Items;
use std::alloc::{AllocError, Global};

/// The most bytes of a VARCHAR value.
pub const LONGEST_VALUE: usize = 65_536;

/// The type of a column or an expression: INTEGER, BIGINT, VARCHAR or BOOLEAN.
#[derive(Clone, Copy, Debug, PartialEq, Eq)]
pub enum SqlType {
    Int,
    Big,
    Text,
    Bool,
}

/// The value of a cell. `Null` belongs to every type; a text has at most `LONGEST_VALUE` bytes.
#[derive(Debug, Drop)]
pub enum Value {
    Null,
    Int(i32),
    Big(i64),
    Txt(Chars),
    Bool(bool),
}

/// The values of a row, in the order of its columns.
pub type Row = Items<Value>;

impl Value {
    /// Whether this is NULL.
    pub fn is_null(&self) -> bool
        ensures { result ≡ is_null self.now }
    {
        matches!(self, Value::Null)
    }
}

impl CopyOf for Value {
    fn copy(&self, alloc: Global) -> Result<Value, AllocError> {
        match self {
            Value::Null => Ok(Value::Null),
            Value::Int(number) => Ok(Value::Int(*number)),
            Value::Big(number) => Ok(Value::Big(*number)),
            Value::Txt(text) => Ok(Value::Txt(text.copy(alloc)?)),
            Value::Bool(truth) => Ok(Value::Bool(*truth)),
        }
    }
}
