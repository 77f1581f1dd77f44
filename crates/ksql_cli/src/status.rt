ghost use Rattle.std.specs.Prelude.{◌≡◌};
ghost use Rattle.ksql_cli.specs.Status.{exit_code};

use command_line::WordsFault;
use ksql_script::ScriptFault;
use ksql_types::{Chars, Code};
use schedule_text::{ScheduleFault, StepWhy};
use std::alloc::{AllocError, AllocFailed};
use topic_files::LineWhy;

/// How a command ended.
#[derive(Debug, PartialEq, Eq, Drop)]
pub enum Status {
    /// The command's whole text was written.
    Done,
    /// The words aren't a command.
    Usage,
    /// The script was refused: at this statement, counted from 1 (0 is the script as a whole), with this code.
    Script {
        statement: u32,
        code: Code,
    },
    /// A topic file was refused: at this line, counted from 1, for this reason.
    TopicFile {
        topic: Chars,
        line: u32,
        why: LineWhy,
    },
    /// The schedule was refused: at this line, counted from 1, for this reason.
    Schedule {
        line: u32,
        why: StepWhy,
    },
    /// The file with this name couldn't be read.
    ReadFault {
        name: Chars,
    },
    /// A write of the command's text failed.
    WriteFault,
    /// Out of memory.
    OutOfMemory,
}

impl Status {
    /// The exit status of the program.
    pub fn code(&self) -> u8
        ensures { result ≡ exit_code self.now }
    {
        match self {
            Status::Done => 0,
            Status::Usage => 2,
            Status::Script { .. } => 3,
            Status::TopicFile { .. } => 4,
            Status::Schedule { .. } => 5,
            Status::ReadFault { .. } => 6,
            Status::WriteFault => 7,
            Status::OutOfMemory => 8,
        }
    }
}

impl From<AllocError> for Status {
    ghost use Rattle.std.specs.Prelude.{◌≡◌};
    ghost use Rattle.ksql_cli.specs.declared.status.Status.TheVariants.{OutOfMemory};

    ghost from_gives = { λ _ status. status ≡ OutOfMemory };

    fn from(_error: AllocError) -> Status {
        Status::OutOfMemory
    }
}

impl<T: Drop> From<AllocFailed<T>> for Status {
    ghost use Rattle.std.specs.Prelude.{◌≡◌};
    ghost use Rattle.ksql_cli.specs.declared.status.Status.TheVariants.{OutOfMemory};

    ghost from_gives = { λ _ status. status ≡ OutOfMemory };

    fn from(_error: AllocFailed<T>) -> Status {
        Status::OutOfMemory
    }
}

impl From<WordsFault> for Status {
    ghost use Rattle.std.specs.Prelude.{◌≡◌};
    ghost use Rattle.ksql_cli.specs.Status.{of_words};

    ghost from_gives = { λ fault status. status ≡ of_words fault };

    fn from(fault: WordsFault) -> Status {
        match fault {
            WordsFault::Usage => Status::Usage,
            WordsFault::OutOfMemory => Status::OutOfMemory,
        }
    }
}

impl From<ScriptFault> for Status {
    ghost use Rattle.std.specs.Prelude.{◌≡◌};
    ghost use Rattle.ksql_cli.specs.Status.{of_script};

    ghost from_gives = { λ fault status. status ≡ of_script fault };

    fn from(fault: ScriptFault) -> Status {
        match fault {
            ScriptFault::Refused { statement, code } => Status::Script { statement, code },
            ScriptFault::OutOfMemory => Status::OutOfMemory,
        }
    }
}

impl From<ScheduleFault> for Status {
    ghost use Rattle.std.specs.Prelude.{◌≡◌};
    ghost use Rattle.ksql_cli.specs.Status.{of_schedule};

    ghost from_gives = { λ fault status. status ≡ of_schedule fault };

    fn from(fault: ScheduleFault) -> Status {
        match fault {
            ScheduleFault::Refused { line, why } => Status::Schedule { line, why },
            ScheduleFault::OutOfMemory => Status::OutOfMemory,
        }
    }
}
