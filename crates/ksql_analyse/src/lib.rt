//! The judgement of statements: their program, or the first refusal.
#![tactic(auto)]

mod declaration;
mod fault;
mod from;
mod grouped;
mod item;
mod judgement;
mod laws;
mod query;
mod result;
mod shape;
mod soundness;
mod trees;

pub use fault::AnalyseFault;
pub use judgement::analyse;
pub use ksql_scopes::{Scope, ScopeColumn, ScopeColumns};
pub use ksql_types::CopyOf;
pub use ksql_typing::{TypeFault, typed};
pub use laws::{one_judgement, some_judgement};
pub use soundness::programs_are_sound;
