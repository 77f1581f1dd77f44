//! Laws of the core of a program: every event keeps a good state, in which the topics show what the queries mean.
#![tactic(auto)]

mod laws;

pub use laws::{
    every_event_keeps_a_good_state, shown_changes_are_meant, the_core_means_its_queries,
};
