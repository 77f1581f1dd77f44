//! What the operators do with rows, keys and the sides of joins.
#![tactic(auto)]

mod aggregates;
mod bodies;
mod columns;
mod groups;
mod join;
mod keys;
mod rows;

pub use aggregates::{argument, greater, lesser, type_of_agg};
pub use bodies::{into_row, row_in, row_out};
pub use groups::{push_grouped, rekeyed};
pub use join::{Join, Standing, other_side, stream_joined, tables_joined};
pub use keys::{is_same_key, key_of};
pub use rows::{
    copied, filtered, push_copies, push_given, push_nulls, push_selected, turned, values_of,
};
