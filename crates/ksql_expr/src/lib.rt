//! Typed expressions, the typing rules, and the value of an expression on a row.
#![tactic(auto)]

mod copies;
mod laws;
mod rules;
mod typed;

pub use laws::timeless_values;
pub use rules::{
    agg_type, are_comparable, are_ordered, binary_type, can_be_when, can_cast, case_type, fits,
    fun_type, is_between_typed, is_in_typed, is_number, joint, joint_type, same_type, sign_type,
};
pub use typed::{AggFun, Exprs, Fun, Typed, TypedNode, TypedWhen, TypedWhens};
