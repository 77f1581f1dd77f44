//! Topic files: their lines, the records in those by the schema and the format of a relation, and the printed text of a
//! value.
#![tactic(auto)]

mod delimited;
mod fields;
mod file;
mod line;
mod lines;
mod number;
mod printed;
mod read;
mod record;
mod topic;
mod tree;

pub use file::read_topic;
pub use lines::Lines;
pub use printed::{Printer, push_printed, value_text};
pub use topic::{Fed, Feds, FileFault, LineWhy, Room, TopicLines};
