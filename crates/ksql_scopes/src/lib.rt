//! What names stand for in a scope, functions by name, and expressions with resolved names.
#![tactic(auto)]

mod full_names;
mod function;
mod scope;
mod sense;

pub use full_names::{first_known_as, is_row_time, resolved};
pub use function::{aggregate_of, function_of};
pub use scope::{Scope, ScopeColumn, ScopeColumns};
pub use sense::{Sense, sense_of};
