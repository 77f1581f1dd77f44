//! Reading names, words and aliases.

ghost use Rattle.std.specs.Prelude.{◌≡◌, Some, None, option_map};
ghost use Rattle.std.specs.Option.{option_copied};
ghost use Rattle.ksql_grammar.specs.Symbols.{name_of as named, type_of as typed};
ghost use Rattle.ksql_grammar.specs.Reading.{Gives, with_rest};
ghost use Rattle.ksql_grammar.specs.Expressions as read;
ghost use Rattle.ksql_parser.specs.Statements as part;

use ksql_grammar::{Keyword, ReadError, Symbol, after_key, after_sign, name_of, type_of};
use ksql_lexer::Mark;
use ksql_types::{Chars, CopyOf, SqlType};
use std::alloc::Global;

/// The symbols after this reserved word, which is required.
pub(crate) fn key(key: Keyword, symbols: &[Symbol]) -> Result<&[Symbol], ReadError>
    ensures { Gives (λ rest. rest.now) result (read.after_key key symbols.now) }
{
    after_key(key, symbols).ok_or(ReadError::Unspelled)
}

/// The symbols after this sign, which is required.
pub(crate) fn sign(sign: Mark, symbols: &[Symbol]) -> Result<&[Symbol], ReadError>
    ensures { Gives (λ rest. rest.now) result (read.after_sign sign symbols.now) }
{
    after_sign(sign, symbols).ok_or(ReadError::Unspelled)
}

/// The symbols after this word, if it comes first.
#[tactic(auto, unfolding(crate::specs::Statements::after_word))]
pub(crate) fn after_word<'a>(word: &str, symbols: &'a [Symbol]) -> Option<&'a [Symbol]>
    ensures { option_copied result ≡ part.after_word word.now symbols.now }
{
    match symbols {
        [Symbol::Word(found), rest @ ..] if found.items() == word => Some(rest),
        _ => None,
    }
}

/// The symbols after these two words, if they come first.
#[tactic(auto, unfolding(crate::specs::Statements::after_words))]
pub(crate) fn after_words<'a>(word: &str, next: &str, symbols: &'a [Symbol]) -> Option<&'a [Symbol]>
    ensures { option_copied result ≡ part.after_words word.now next.now symbols.now }
{
    let rest = after_word(word, symbols)?;
    after_word(next, rest)
}

/// The symbols after this reserved word and BY, if they come first.
#[tactic(auto, unfolding(crate::specs::Statements::after_by))]
pub(crate) fn after_by(key: Keyword, symbols: &[Symbol]) -> Option<&[Symbol]>
    ensures { option_copied result ≡ part.after_by key symbols.now }
{
    let rest = after_key(key, symbols)?;
    after_key(Keyword::By, rest)
}

/// The symbols after this word, which is required.
pub(crate) fn word<'a>(word: &str, symbols: &'a [Symbol]) -> Result<&'a [Symbol], ReadError>
    ensures { Gives (λ rest. rest.now) result (part.after_word word.now symbols.now) }
{
    after_word(word, symbols).ok_or(ReadError::Unspelled)
}

/// A name, if one comes first, and the symbols after it.
#[tactic(auto, unfolding(ksql_grammar::specs::Expressions::first))]
pub(crate) fn after_name(symbols: &[Symbol]) -> Option<(&Chars, &[Symbol])>
    ensures { option_map part.lent result ≡ read.first named symbols.now }
{
    let (symbol, rest) = symbols.split_first()?;
    Some((name_of(symbol)?, rest))
}

/// A name, which is required, and the symbols after it.
pub(crate) fn name(symbols: &[Symbol]) -> Result<(&Chars, &[Symbol]), ReadError>
    ensures { Gives part.lent result (read.first named symbols.now) }
{
    after_name(symbols).ok_or(ReadError::Unspelled)
}

/// A type, and the symbols after it.
#[tactic(auto, unfolding(ksql_grammar::specs::Expressions::first))]
pub(crate) fn sql_type(symbols: &[Symbol]) -> Result<(SqlType, &[Symbol]), ReadError>
    ensures { Gives with_rest result (read.first typed symbols.now) }
{
    let (symbol, rest) = symbols.split_first().ok_or(ReadError::Unspelled)?;
    let ty = type_of(symbol).ok_or(ReadError::Unspelled)?;
    Ok((ty, rest))
}

/// The name after AS, if AS and a name come first, and the symbols after it.
#[tactic(auto, unfolding(crate::specs::Statements::after_as))]
fn after_as(symbols: &[Symbol]) -> Option<(&Chars, &[Symbol])>
    ensures { option_map part.lent result ≡ part.after_as symbols.now }
{
    let rest = after_key(Keyword::As, symbols)?;
    after_name(rest)
}

/// An alias, if any, and the symbols after it.
#[tactic(auto, unfolding(crate::specs::Statements::alias))]
pub(crate) fn alias(
    alloc: Global,
    symbols: &[Symbol],
) -> Result<(Option<Chars>, &[Symbol]), ReadError>
    ensures { Gives with_rest result (part.alias symbols.now) }
{
    if let Some((name, rest)) = after_as(symbols) {
        return Ok((Some(name.copy(alloc)?), rest));
    }
    if let Some((name, rest)) = after_name(symbols) {
        return Ok((Some(name.copy(alloc)?), rest));
    }
    Ok((None, symbols))
}
