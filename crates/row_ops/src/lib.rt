//! The operators that work on one row at a time, and the operator of a table at an input.
#![tactic(auto)]

mod filter_op;
mod input_table;
mod rekey_op;
mod select_op;
mod table_op;

pub use filter_op::FilterOp;
pub use input_table::{row_of, standing, standing_at, time_of, turn, turn_at};
pub use rekey_op::RekeyOp;
pub use select_op::SelectOp;
pub use table_op::TableOp;
