//! The clauses of a query and of a declaration: sources, result columns and their keys, windows and properties.
#![tactic(auto)]

mod items;
mod keys;
mod left_names;
mod properties;
mod sources;
mod windows;

pub use items::{Named, is_alias, is_join, result_columns};
pub use keys::{columns_at, columns_besides, join_key, key_places, needs, on_sides};
pub use properties::{are_bad, format_in, has_topic, is_word, partitions_in, topic_in};
pub use sources::{
    Known, all_known, from_scope, has_unknown_source, have_one_alias, is_full, is_windowed,
    item_scope, joined_streams, on_scope, reads_stream,
};
pub use windows::{is_bad, is_too_large, window_of};
