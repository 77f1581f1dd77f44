//! Laws of schedules: what a drain brings about, and that the report depends on the feeds of a schedule alone;
//! and that each demo has its summary.
#![tactic(auto)]

mod laws;

pub use laws::{
    commands_write_the_same, demos_are_decided, demos_write_the_same,
    drained_commands_write_the_whole, drains_finish, feeds_alone_matter, steps_feed,
    whole_meaning_is_shown, without_a_schedule_all_is_shown, workers_change_no_step,
    written_drains_have_workers,
};
