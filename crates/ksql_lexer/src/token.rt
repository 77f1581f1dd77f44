use ksql_types::{Chars, CopyOf};
use std::alloc::{AllocError, Global};

/// A sign. Both `!=` and `<>` are `NotEqual`, and `||` is `Concat`.
#[derive(Clone, Copy, Debug, PartialEq, Eq)]
pub enum Mark {
    Open,
    Close,
    Comma,
    Semicolon,
    Dot,
    Equal,
    NotEqual,
    Less,
    LessEqual,
    Greater,
    GreaterEqual,
    Plus,
    Minus,
    Star,
    Slash,
    Percent,
    Concat,
}

/// The kind of a token, and its text.
#[derive(Debug, Drop)]
pub enum TokenKind {
    /// A word in upper case: keywords and names ignore case.
    Word(Chars),
    /// The name between two backquotes, as written.
    Quoted(Chars),
    /// The text between two single quotes, where a doubled quote stands for one.
    Text(Chars),
    /// Decimal digits, as written.
    Digits(Chars),
    /// A sign.
    Mark(Mark),
}

/// A token, with the number of its statement: one more than the number of non-empty statements that ended with `;`
/// before it. So a `;` has the number of the statement that it ends.
#[derive(Debug, Drop)]
pub struct Token {
    pub kind: TokenKind,
    pub statement: u32,
}

impl CopyOf for TokenKind {
    fn copy(&self, alloc: Global) -> Result<TokenKind, AllocError> {
        match self {
            TokenKind::Word(name) => Ok(TokenKind::Word(name.copy(alloc)?)),
            TokenKind::Quoted(name) => Ok(TokenKind::Quoted(name.copy(alloc)?)),
            TokenKind::Text(content) => Ok(TokenKind::Text(content.copy(alloc)?)),
            TokenKind::Digits(digits) => Ok(TokenKind::Digits(digits.copy(alloc)?)),
            TokenKind::Mark(mark) => Ok(TokenKind::Mark(*mark)),
        }
    }
}

impl CopyOf for Token {
    fn copy(&self, alloc: Global) -> Result<Token, AllocError> {
        Ok(Token {
            kind: self.kind.copy(alloc)?,
            statement: self.statement,
        })
    }
}
