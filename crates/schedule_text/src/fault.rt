use std::alloc::{AllocError, AllocFailed};
use thiserror::Error;

/// What is wrong with a line of a schedule.
#[derive(Clone, Copy, Debug, PartialEq, Eq)]
pub enum StepWhy {
    BadStep,
    UnknownTopic,
    UnknownWorker,
    WorkerTaken,
    UnknownTask,
    NoWorker,
    TooLarge,
}

/// Why a schedule can't be read: its first refused line, counted from 1, or out of memory.
#[derive(Debug, Drop, PartialEq, Eq, Error)]
pub enum ScheduleFault {
    #[error("line {line}: {why:?}")]
    Refused { line: u32, why: StepWhy },
    #[error("out of memory")]
    OutOfMemory,
}

/// Why a line can't be read.
#[derive(Drop)]
pub(crate) enum LineFault {
    Refused(StepWhy),
    OutOfMemory,
}

impl From<AllocError> for ScheduleFault {
    ghost use Rattle.std.specs.Prelude.{◌≡◌};
    ghost use Rattle.schedule_text.specs.declared.fault.ScheduleFault.TheVariants.{OutOfMemory};

    ghost from_gives = { λ _ fault. fault ≡ OutOfMemory };

    fn from(_error: AllocError) -> ScheduleFault {
        ScheduleFault::OutOfMemory
    }
}

impl<T: Drop> From<AllocFailed<T>> for ScheduleFault {
    ghost use Rattle.std.specs.Prelude.{◌≡◌};
    ghost use Rattle.schedule_text.specs.declared.fault.ScheduleFault.TheVariants.{OutOfMemory};

    ghost from_gives = { λ _ fault. fault ≡ OutOfMemory };

    fn from(_error: AllocFailed<T>) -> ScheduleFault {
        ScheduleFault::OutOfMemory
    }
}

impl From<AllocError> for LineFault {
    ghost use Rattle.std.specs.Prelude.{◌≡◌};
    ghost use Rattle.schedule_text.specs.declared.fault.LineFault.TheVariants.{OutOfMemory};

    ghost from_gives = { λ _ fault. fault ≡ OutOfMemory };

    fn from(_error: AllocError) -> LineFault {
        LineFault::OutOfMemory
    }
}

impl<T: Drop> From<AllocFailed<T>> for LineFault {
    ghost use Rattle.std.specs.Prelude.{◌≡◌};
    ghost use Rattle.schedule_text.specs.declared.fault.LineFault.TheVariants.{OutOfMemory};

    ghost from_gives = { λ _ fault. fault ≡ OutOfMemory };

    fn from(_error: AllocFailed<T>) -> LineFault {
        LineFault::OutOfMemory
    }
}
