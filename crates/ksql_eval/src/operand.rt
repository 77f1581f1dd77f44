ghost use Rattle.std.specs.Prelude.{◌≡◌, IfOk};
ghost use Rattle.ksql_expr.specs.Value.{widened};
ghost use Rattle.ksql_eval.specs.Operand.{worth};

use crate::number::widened;
use ksql_types::{CopyOf, SqlType, Value};
use std::alloc::{AllocError, Global};

/// A result of evaluation, unless memory ran out.
pub type Evaluated<T> = Result<T, AllocError>;

/// The value of an expression: borrowed from the row or the expression, or computed.
#[derive(Drop)]
pub enum Operand<'a> {
    Lent(&'a Value),
    Made(Value),
}

impl<'a> Operand<'a> {
    /// The value, borrowed.
    pub fn get(&self) -> &Value
        ensures { result.now ≡ worth self.now }
    {
        match self {
            Operand::Lent(value) => value,
            Operand::Made(value) => value,
        }
    }

    /// The value, copied if it was borrowed.
    pub fn into_value(self, alloc: Global) -> Evaluated<Value>
        ensures { IfOk result (λ value. value ≡ worth self.entry) }
    {
        match self {
            Operand::Lent(value) => value.copy(alloc),
            Operand::Made(value) => Ok(value),
        }
    }

    /// An INTEGER as a BIGINT if that is the type; any other value unchanged.
    pub fn widened(self, ty: Option<SqlType>) -> Operand<'a>
        ensures { worth result ≡ widened ty (worth self.entry) }
    {
        match (ty, self) {
            (Some(SqlType::Big), Operand::Lent(Value::Int(number))) => {
                Operand::Made(Value::Big(i64::from(*number)))
            }
            (ty, Operand::Made(value)) => Operand::Made(widened(ty, value)),
            (_, lent) => lent,
        }
    }
}
