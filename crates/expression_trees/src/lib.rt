//! The expressions of a script as trees, and walks over their parts: replacement, tests and comparison.
#![tactic(auto)]

mod copies;
mod deciding;
mod laws;
mod replacing;
mod same;
mod tree;

pub use deciding::{Decides, passes};
pub use laws::sameness_is_equality;
pub use replacing::{Replaces, becomes};
pub use same::same_expr;
pub use tree::{Expr, ExprTexts, WhenText, WhenTexts};
