//! The values, keys, rows and schemas that all crates of `ksql` share.
#![tactic(auto)]

mod boxed;
mod catalog;
mod chars;
mod code;
mod copying;
mod items;
mod key;
mod lanes;
mod names;
mod operator;
mod order;
mod relation;
mod topic;
mod value;
mod word;

pub use boxed::Boxed;
pub use catalog::{AddRefusal, Catalog};
pub use chars::Chars;
pub use code::Code;
pub use copying::CopyOf;
pub use items::Items;
pub use key::Key;
pub use lanes::{key_bytes, lane};
pub use names::{are_column_names, is_among, is_topic_name};
pub use operator::BinaryOp;
pub use order::{cmp_key, keys_are_ordered};
pub use relation::{
    Changelog, Column, Columns, Format, Kind, Relation, Schema, Span, StoreEntry, TaskName, Window,
};
pub use topic::{TopicSpec, Writer};
pub use value::{LONGEST_VALUE, Row, SqlType, Value};
pub use word::{Word, Words};

/// A list of bytes.
pub type Bytes = Items<u8>;
