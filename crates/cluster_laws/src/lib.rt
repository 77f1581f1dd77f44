//! Laws of clusters that speak of no cluster: of numbers, owners, live workers, topics and texts, and of tasks at their workers
//! and a broker in a round.
#![tactic(auto)]

mod seats;
mod texts;

pub use seats::{Ran, Seat};
pub use texts::texts_are_utf8;
