use ksql_types::Code;
use std::alloc::{AllocError, AllocFailed};

/// Why a script gives no program: its first refusal, at a statement counted from 1 (0 is the script as a whole), or out
/// of memory.
#[derive(Clone, Copy, Debug, PartialEq, Eq)]
pub enum ScriptFault {
    Refused { statement: u32, code: Code },
    OutOfMemory,
}

impl From<AllocError> for ScriptFault {
    ghost use Rattle.std.specs.Prelude.{◌≡◌};
    ghost use Rattle.ksql_script.specs.declared.fault.ScriptFault.TheVariants.{OutOfMemory};

    ghost from_gives = { λ _ e. e ≡ OutOfMemory };

    fn from(_error: AllocError) -> ScriptFault {
        ScriptFault::OutOfMemory
    }
}

impl<T: Drop> From<AllocFailed<T>> for ScriptFault {
    ghost use Rattle.std.specs.Prelude.{◌≡◌};
    ghost use Rattle.ksql_script.specs.declared.fault.ScriptFault.TheVariants.{OutOfMemory};

    ghost from_gives = { λ _ e. e ≡ OutOfMemory };

    fn from(_error: AllocFailed<T>) -> ScriptFault {
        ScriptFault::OutOfMemory
    }
}
