//! Judging an expression in a scope, for callers that need the findings.

pub use crate::judge::judge;
pub use crate::judged::Judged;
