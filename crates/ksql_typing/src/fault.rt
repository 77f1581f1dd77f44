//! Why an expression has no type.

use std::alloc::{AllocError, AllocFailed};

/// Why an expression has no type: the first reason that applies.
#[derive(Clone, Copy, Debug, PartialEq, Eq)]
pub enum TypeFault {
    /// A name stands for nothing.
    UnknownColumn,
    /// A name stands for two columns.
    AmbiguousColumn,
    /// The expression has no type, whatever the unknown functions in it return.
    TypeMismatch,
    /// A function is unknown.
    Unsupported,
    /// Out of memory.
    OutOfMemory,
}

impl From<AllocError> for TypeFault {
    ghost use Rattle.std.specs.Prelude.{◌≡◌};
    ghost use Rattle.ksql_typing.specs.declared.fault.TypeFault.TheVariants.{OutOfMemory};

    ghost from_gives = { λ _ e. e ≡ OutOfMemory };

    fn from(_error: AllocError) -> TypeFault {
        TypeFault::OutOfMemory
    }
}

impl<T: Drop> From<AllocFailed<T>> for TypeFault {
    ghost use Rattle.std.specs.Prelude.{◌≡◌};
    ghost use Rattle.ksql_typing.specs.declared.fault.TypeFault.TheVariants.{OutOfMemory};

    ghost from_gives = { λ _ e. e ≡ OutOfMemory };

    fn from(_error: AllocFailed<T>) -> TypeFault {
        TypeFault::OutOfMemory
    }
}
