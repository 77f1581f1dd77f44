//! The operators of groups.
#![tactic(auto)]

mod groups;
mod totals;
mod turn;
mod window_agg_op;
mod windows;

pub use groups::AggOp;
pub use window_agg_op::WindowAggOp;
