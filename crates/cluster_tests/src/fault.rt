use ksql_script::ScriptFault;
use std::alloc::AllocError;
use thiserror::Error;
use topic_files::FileFault;

/// Why a script doesn't run: it or a topic file is refused, or memory is short.
#[derive(Debug, Drop, Error)]
pub enum Fault {
    #[error("{0:?}")]
    Script(#[from] ScriptFault),
    #[error(transparent)]
    File(#[from] FileFault),
    #[error("out of memory")]
    Memory(#[from(alloc)] AllocError),
}
