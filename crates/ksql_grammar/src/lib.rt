//! The symbols of a script, and the reader of expressions.
#![tactic(auto)]

mod expression;
mod fault;
mod node;
mod symbol;
mod word;

pub use expression::{one_expression, read_expression, read_expressions};
pub use fault::ReadError;
pub use symbol::{Keyword, Symbol, after_key, after_sign, name_of, type_of};
