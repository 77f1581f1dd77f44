use ksql_types::Code;
use std::alloc::{AllocError, AllocFailed};

/// Why tokens give no trees.
#[derive(Clone, Copy, Debug, PartialEq, Eq)]
pub enum ParseFault {
    /// The first refused statement, counted from 1, and the code of the first rule that it breaks: `Syntax`, `TooLarge`
    /// or `Unsupported`.
    Refused { statement: u32, code: Code },
    /// Out of memory.
    OutOfMemory,
}

impl From<AllocError> for ParseFault {
    ghost use Rattle.std.specs.Prelude.{◌≡◌};
    ghost use Rattle.ksql_parser.specs.declared.fault.ParseFault.TheVariants.{OutOfMemory};

    ghost from_gives = { λ _ e. e ≡ OutOfMemory };

    fn from(_error: AllocError) -> ParseFault {
        ParseFault::OutOfMemory
    }
}

impl<T: Drop> From<AllocFailed<T>> for ParseFault {
    ghost use Rattle.std.specs.Prelude.{◌≡◌};
    ghost use Rattle.ksql_parser.specs.declared.fault.ParseFault.TheVariants.{OutOfMemory};

    ghost from_gives = { λ _ e. e ≡ OutOfMemory };

    fn from(_error: AllocFailed<T>) -> ParseFault {
        ParseFault::OutOfMemory
    }
}
