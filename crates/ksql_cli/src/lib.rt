//! The command `ksql`: persistent ksqlDB queries over topic files.
#![tactic(auto)]

mod asked;
mod command;
mod fault;
mod headline;
mod run;
mod status;
mod texts;
mod topics;

pub use command::run_command;
pub use headline::ksql;
pub use status::Status;
