//! The typed tree of an expression, or its first fault, and all other findings about it.
#![tactic(auto)]

mod elaboration;
mod fault;
mod form;
mod found;
mod judge;
mod judged;
pub mod judgement;
mod laws;

pub use elaboration::typed;
pub use fault::TypeFault;
pub use laws::{types_are_decided, types_decide};
