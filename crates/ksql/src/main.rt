//! The program `ksql`.
#![tactic(auto)]

use ksql_cli::run_command;
use std::process::ExitCode;

fn main(rt: HostRuntime) -> ExitCode {
    run_command(&rt)
}
