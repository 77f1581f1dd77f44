//! Laws of the report and its summary: what a broker in a good state shows is printed like the program's meaning.
#![tactic(auto)]

mod laws;

pub use laws::{a_good_broker_reports_the_meaning, a_good_broker_summarizes_the_meaning};
