use ksql_types::Code;
use std::alloc::{AllocError, AllocFailed};

/// Why statements give no program: the first refused one, counted from 1, with its lowest code, or out of memory.
#[derive(Clone, Copy, Debug, PartialEq, Eq)]
pub enum AnalyseFault {
    Refused { statement: u32, code: Code },
    OutOfMemory,
}

impl From<AllocError> for AnalyseFault {
    ghost use Rattle.std.specs.Prelude.{◌≡◌};
    ghost use Rattle.ksql_analyse.specs.declared.fault.AnalyseFault.TheVariants.{OutOfMemory};

    ghost from_gives = { λ _ e. e ≡ OutOfMemory };

    fn from(_error: AllocError) -> AnalyseFault {
        AnalyseFault::OutOfMemory
    }
}

impl<T: Drop> From<AllocFailed<T>> for AnalyseFault {
    ghost use Rattle.std.specs.Prelude.{◌≡◌};
    ghost use Rattle.ksql_analyse.specs.declared.fault.AnalyseFault.TheVariants.{OutOfMemory};

    ghost from_gives = { λ _ e. e ≡ OutOfMemory };

    fn from(_error: AllocFailed<T>) -> AnalyseFault {
        AnalyseFault::OutOfMemory
    }
}
