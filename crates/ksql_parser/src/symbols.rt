ghost use Rattle.std.specs.Prelude.{◌≡◌, IfOk, IsTrue, map};
ghost use Rattle.ksql_lexer.specs.Script.{kinds};
ghost use Rattle.ksql_grammar.specs.Symbols.{symbol_of, word_symbol, keyword_of};
ghost use Rattle.ksql_parser.specs.Limits.{is_too_large, HasTooLarge};
ghost use Rattle.ksql_parser.specs.Words.{are_digits, is_written, AreWritten, capped_value};

use crate::words::keyword_of;
use ksql_grammar::Symbol;
use ksql_lexer::{Token, TokenKind};
use ksql_types::{Chars, CopyOf};
use std::alloc::{AllocError, Global};

/// The number that decimal digits spell, or `u64::MAX` if it is larger.
pub(crate) fn number_of(digits: &str) -> u64
    requires { IsTrue (are_digits digits.now) }
    ensures { result ≡ capped_value digits.now }
{
    match digits.parse() {
        Ok(number) => number,
        Err(_) => u64::MAX,
    }
}

fn word_symbol(alloc: Global, word: &Chars) -> Result<Symbol, AllocError>
    ensures { IfOk result (λ s. s ≡ word_symbol (keyword_of word.now) word.now) }
{
    match keyword_of(word.items()) {
        Some(keyword) => Ok(Symbol::Key(keyword)),
        None => Ok(Symbol::Word(word.copy(alloc)?)),
    }
}

/// A token as the grammar sees it.
fn symbol_of(alloc: Global, kind: &TokenKind) -> Result<Symbol, AllocError>
    requires written { IsTrue (is_written kind.now) }
    requires fits { ¬ (IsTrue (is_too_large kind.now)) }
    ensures { IfOk result (λ s. s ≡ symbol_of kind.now) }
{
    match kind {
        TokenKind::Word(word) => word_symbol(alloc, word),
        TokenKind::Quoted(name) => Ok(Symbol::Quoted(name.copy(alloc)?)),
        TokenKind::Text(content) => Ok(Symbol::Text(content.copy(alloc)?)),
        TokenKind::Digits(digits) => Ok(Symbol::Number(number_of(digits.items()))),
        TokenKind::Mark(mark) => Ok(Symbol::Sign(*mark)),
    }
}

/// The tokens as the grammar sees them.
pub(crate) fn symbols_of(alloc: Global, tokens: &[Token]) -> Result<Vec<Symbol>, AllocError>
    requires written { AreWritten (kinds tokens.now) }
    requires fit { ¬ (HasTooLarge (kinds tokens.now)) }
    ensures { IfOk result (λ symbols. symbols.items ≡ map symbol_of (kinds tokens.now)) }
{
    let mut symbols = Vec::new(alloc);
    for token in tokens {
        symbols.push(symbol_of(alloc, &token.kind)?)?;
    }
    Ok(symbols)
}
