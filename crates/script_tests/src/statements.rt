use ksql_lexer::tokens;
use ksql_parser::{ParseFault, parse};
use std::alloc::{AllocError, Global};

/// How many trees a script has, or its refusal.
#[tactic(auto, unfolding(ksql_types::specs::Text::longest_text))]
pub fn answer(alloc: Global, text: &str) -> Result<String, AllocError> {
    if text.len() > 1_048_576 {
        return String::from_str(alloc, "too long");
    }
    let Ok(tokens) = tokens(alloc, text) else {
        return String::from_str(alloc, "no tokens");
    };
    match parse(alloc, tokens.as_slice()) {
        Ok(trees) => format!(in alloc; "{} trees", trees.len()),
        Err(ParseFault::Refused { statement, code }) => {
            format!(in alloc; "{code:?} at {statement}")
        }
        Err(ParseFault::OutOfMemory) => Err(AllocError),
    }
}
