//! The text of a run's trace: what happened in each step.
#![tactic(auto)]

mod laws;
mod lines;
mod trace;

pub use laws::one_cut;
pub use trace::push_trace;
