//! Schedules: their text, and the steps that it describes.
#![tactic(auto)]

mod fault;
mod forms;
mod lines;
mod reading;
mod standing;
mod words;

pub use fault::{ScheduleFault, StepWhy};
pub use reading::read_schedule;
