//! Short texts, and numbers in texts.

use ksql_types::Chars;
use std::alloc::{AllocError, Global};

#[tactic(auto, unfolding(ksql_types::specs::Text::longest_text))]
pub fn chars(alloc: Global, text: &str) -> Result<Chars, AllocError> {
    if text.len() > 100 {
        return Err(AllocError);
    }
    Ok(Chars::of(String::from_str(alloc, text)?)?)
}

/// The parts before and after ` | `.
pub fn halves(text: &str) -> (&str, &str) {
    text.split_once(" | ").unwrap_or((text, ""))
}

pub fn number(digits: &str) -> u32 {
    digits.parse::<u32>().unwrap_or(0)
}
