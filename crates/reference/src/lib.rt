//! A program's meaning, evaluated as it is defined: each step over all the changes before, and query by query. The tests
//! compare with it what the operators and the cluster give.
#![tactic(auto)]

mod aggregates;
mod entries;
mod group_changes;
mod joins;
mod lines;
mod meaning;
mod nodes;
mod plain;
mod program_report;
mod queries;
mod steps;
mod table_groups;
mod windowless;

pub use entries::EntryRef;
pub use joins::join_results;
pub use meaning::{Listed, Lists, partition_of, slow_meaning};
pub use nodes::results;
pub use program_report::report;
pub use table_groups::group_results;
pub use windowless::have_no_window;
