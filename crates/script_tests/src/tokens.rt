use ksql_lexer::{LexFault, Token, TokenKind, tokens};
use ksql_types::CopyOf;
use std::alloc::{AllocError, Global};

/// A token's copy with its statement, as `1w:NAME`.
fn piece(alloc: Global, token: &Token) -> Result<String, AllocError> {
    let Token { kind, statement } = token.copy(alloc)?;
    match &kind {
        TokenKind::Word(name) => format!(in alloc; "{statement}w:{}", name.items()),
        TokenKind::Quoted(name) => format!(in alloc; "{statement}q:{}", name.items()),
        TokenKind::Text(content) => format!(in alloc; "{statement}t:{}", content.items()),
        TokenKind::Digits(digits) => format!(in alloc; "{statement}d:{}", digits.items()),
        TokenKind::Mark(mark) => format!(in alloc; "{statement}{mark:?}"),
    }
}

/// Each token of a text, or the statement of the fault.
#[tactic(auto, unfolding(ksql_types::specs::Text::longest_text))]
pub fn shown(alloc: Global, text: &str) -> Result<String, AllocError> {
    if text.len() > 1_048_576 {
        return String::from_str(alloc, "too long");
    }
    let tokens = match tokens(alloc, text) {
        Ok(tokens) => tokens,
        Err(LexFault::Bad { statement }) => return format!(in alloc; "bad {statement}"),
        Err(LexFault::OutOfMemory) => return Err(AllocError),
    };
    let mut shown = String::from_str(alloc, "tokens")?;
    for token in tokens.as_slice() {
        shown.push(' ')?;
        shown.push_str(piece(alloc, token)?.as_str())?;
    }
    Ok(shown)
}
