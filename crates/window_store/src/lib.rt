//! The store of a task's windows: a finite map from a key's bytes and a start to bytes, with a stream time, that tracks
//! what changed since the last commit.
#![tactic(auto)]

mod ending;
mod keys;
mod loading;
mod starts;
mod store;

pub use keys::put_window_key;
pub use store::WStore;
