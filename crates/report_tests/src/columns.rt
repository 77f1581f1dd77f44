//! Helpers of both kinds of tests: short texts, and the columns of relations.

use ksql_types::{Chars, Column, SqlType};
use std::alloc::{AllocError, Global};

#[tactic(auto, unfolding(ksql_types::specs::Text::longest_text))]
pub fn chars(alloc: Global, text: &str) -> Result<Chars, AllocError> {
    if text.len() > 1000 {
        return Err(AllocError);
    }
    Ok(Chars::of(String::from_str(alloc, text)?)?)
}

pub fn column(alloc: Global, name: &str, ty: SqlType) -> Result<Column, AllocError> {
    Ok(Column {
        name: chars(alloc, name)?,
        ty,
    })
}
