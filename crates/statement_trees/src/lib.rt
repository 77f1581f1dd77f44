//! The statements of a script as trees.
#![tactic(auto)]

mod tree;

pub use tree::{
    ColumnText, ColumnTexts, JoinText, JoinWord, KeyMark, Properties, Property, PropertyValue,
    Select, SelectItem, SelectItems, Source, SpanText, Statement, StatementBody, Unit, WindowText,
};
