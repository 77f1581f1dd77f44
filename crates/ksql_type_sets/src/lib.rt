//! Sets of types: the types that a form can have, computed from those of its parts, and what they decide.
#![tactic(auto)]

mod decisions;
pub mod possible;

pub use decisions::{can_agree, can_be_true, has_value};
pub use possible::{Types, has_some_type};
