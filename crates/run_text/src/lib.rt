//! The text of a report: the records that were fed, and the changes of each relation.
#![tactic(auto)]

mod broker_text;
mod declared;
mod line;
mod order;
mod printed;
mod row_keys;
mod row_lines;
mod rows;
mod section;
mod visible;

pub use broker_text::{broker_report, broker_summary};
pub use line::{Line, Told};
pub use order::push_order;
pub use section::{Extent, push_section};
