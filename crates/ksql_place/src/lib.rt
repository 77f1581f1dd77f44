//! Where a change stands: stamps and places, their order, records and changes.
#![tactic(auto)]

mod change;
mod laws;
mod order;
mod path;
mod said;
mod stamp;

pub use change::{Body, Change, Changes, Decoded, SourceRecord};
pub use laws::{
    feeds_follow, lists_ascend, order_is_merged, order_is_sorted, places_are_ordered,
    places_between_are_ordered, stamps_are_ordered,
};
pub use order::{PartTimes, cmp_between, cmp_place, order_of, stamps_of};
pub use path::Path;
pub use said::{is_skipped, said_by};
pub use stamp::{Place, Stamp};
