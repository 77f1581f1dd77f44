//! Aggregates and bare columns in expressions.
#![tactic(auto)]

mod aggregates;
mod columns;

pub use aggregates::{aggregates_of, has_aggregate, has_ordered_aggregate, has_unknown_function};
pub use columns::{has_bare_column, has_nested_aggregate, once};
