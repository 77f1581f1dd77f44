//! The topologies of scripts, as text.
use ksql_script::program_of_script;
use std::alloc::{AllocError, Global};
use topology_build::{build, describe};

/// The text of the topology of a script.
pub fn explained(alloc: Global, script: &str) -> Result<String, AllocError> {
    let Ok(program) = program_of_script(alloc, script.as_bytes()) else {
        return String::from_str(alloc, "refused");
    };
    let topology = build(alloc, &program)?;
    let bytes = describe(alloc, &program, &topology)?;
    String::from_str(alloc, str::from_utf8(bytes.items()).unwrap_or("no text"))
}
