//! The broker: what the partitions of topics show, what waits until its topic is closed, and what each task committed.
#![tactic(auto)]

mod broker;
mod commits;
mod feeds;
mod opening;
mod prepared;
mod shelves;

pub use broker::Broker;
pub use core_state::{Journal, JournalEntry, Proposal};
pub use prepared::Prepared;
pub use shelves::Entries;
