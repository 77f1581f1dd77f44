//! The trait by which operators are known: what a node of a sub-topology gives for its entries, one after another, from
//! what is held of those before; and the operator of a processor.
#![tactic(auto)]

mod guarded;
mod keys;
mod logs;
mod operator;
mod processor;

pub use guarded::Guarded;
pub use keys::{is_short, spelled_key};
pub use logs::with_number;
pub use operator::{Operator, StoredOperator};
pub use processor::{Processor, StoredProcessor};
