//! The operators of joins: of a stream with a table, and of two tables.
#![tactic(auto)]

mod stream_table_op;
mod table_table_op;
mod tables;

pub use stream_table_op::StreamTableOp;
pub use table_table_op::TableTableOp;
