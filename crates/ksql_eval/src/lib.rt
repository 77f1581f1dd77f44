//! The value of an expression on a row.
#![tactic(auto)]

mod comparison;
mod evaluation;
mod forms;
mod number;
mod operand;
mod pattern;
mod text;
mod view;

pub use comparison::{is_greater, is_less};
pub use evaluation::{eval, holds};
pub use number::{number_in, whole};
pub use view::RowView;
