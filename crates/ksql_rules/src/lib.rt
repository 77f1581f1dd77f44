//! The rules for statements: the lowest code of those that a statement breaks, or the findings about it.
#![tactic(auto)]

mod aggregations;
mod broken;
mod declarations;
mod expressions;
mod findings;
mod queries;
mod topics;
mod truth;
mod types;
mod verdict;

pub use broken::Body;
pub use findings::{Findings, Found};
pub use queries::{is_grouped, result_format};
pub use verdict::{Verdict, judge_statement};
