//! The core as definitions: the state of a broker and its tasks, the events, which states are good, and the law that
//! every event keeps a good state.
#![tactic(auto)]

mod journal;
mod laws;
mod log;

pub use journal::{Journal, JournalEntry};
pub use laws::events_keep_good;
pub use log::{LogEntry, Proposal};
