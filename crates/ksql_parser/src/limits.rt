ghost use Rattle.std.specs.Prelude.{◌≡◌, IsTrue, ◌↔◌, codes, count_by};
ghost use Rattle.std.specs.List.{list_any};
ghost use Rattle.ksql_lexer.specs.Script.{kinds};
ghost use Rattle.ksql_parser.specs.Limits.{is_word, HasTooMany, is_opening, is_closing, IsTooDeep, is_too_large, HasTooLarge, begins_with_select, is_unsupported, HasUnsupported};
ghost use Rattle.ksql_parser.specs.Words.{is_written, AreWritten};

use crate::symbols::number_of;
use crate::words::is_unsupported_word;
use ksql_lexer::{Mark, Token, TokenKind};

const MOST_TOKENS: usize = 2000;

const DEEPEST_NESTING: usize = 64;

const LONGEST_NAME: usize = 128;

const LONGEST_TEXT: usize = 65_536;

const LARGEST_NUMBER: u64 = 9_223_372_036_854_775_807;

/// Whether a token is this word.
fn is_word(kind: &TokenKind, wanted: &str) -> bool
    ensures { result ≡ is_word wanted.now kind.now }
{
    match kind {
        TokenKind::Word(word) => word.items() == wanted,
        _ => false,
    }
}

/// Whether a statement has more than 2,000 tokens.
pub(crate) fn has_too_many(tokens: &[Token]) -> bool
    ensures { IsTrue result ↔ HasTooMany (kinds tokens.now) }
{
    tokens.len() > MOST_TOKENS
}

fn is_opening(kind: &TokenKind) -> bool
    ensures { result ≡ is_opening kind.now }
{
    matches!(kind, TokenKind::Mark(Mark::Open)) || is_word(kind, "CASE")
}

fn is_closing(kind: &TokenKind) -> bool
    ensures { result ≡ is_closing kind.now }
{
    matches!(kind, TokenKind::Mark(Mark::Close)) || is_word(kind, "END")
}

/// Whether `(` and CASE nest deeper than 64 anywhere in a statement.
pub(crate) fn is_too_deep(tokens: &[Token]) -> bool
    ensures { IsTrue result ↔ IsTooDeep (kinds tokens.now) }
{
    let mut opened: usize = 0;
    let mut closed: usize = 0;
    for token in tokens {
        opened += usize::from(is_opening(&token.kind));
        closed += usize::from(is_closing(&token.kind));
        if closed + DEEPEST_NESTING < opened {
            return true;
        }
    }
    false
}

fn is_too_large(kind: &TokenKind) -> bool
    requires { IsTrue (is_written kind.now) }
    ensures { result ≡ is_too_large kind.now }
{
    match kind {
        TokenKind::Word(name) | TokenKind::Quoted(name) => name.items().len() > LONGEST_NAME,
        TokenKind::Text(content) => content.items().len() > LONGEST_TEXT,
        TokenKind::Digits(digits) => number_of(digits.items()) > LARGEST_NUMBER,
        TokenKind::Mark(_) => false,
    }
}

/// Whether a token exceeds its limit: 128 bytes for a name, 65,536 bytes for a text, 9223372036854775807 for digits.
pub(crate) fn has_too_large(tokens: &[Token]) -> bool
    requires { AreWritten (kinds tokens.now) }
    ensures { result ≡ list_any is_too_large (kinds tokens.now) }
{
    for token in tokens {
        if is_too_large(&token.kind) {
            return true;
        }
    }
    false
}

fn begins_with_select(tokens: &[Token]) -> bool
    ensures { result ≡ begins_with_select (kinds tokens.now) }
{
    match tokens {
        [first, ..] => is_word(&first.kind, "SELECT"),
        [] => false,
    }
}

fn joins(tokens: &[Token]) -> usize
    ensures { result ≡ count_by (is_word (codes "JOIN")) (kinds tokens.now) }
{
    let mut joins: usize = 0;
    for token in tokens {
        joins += usize::from(is_word(&token.kind, "JOIN"));
    }
    joins
}

fn is_unsupported(kind: &TokenKind) -> bool
    ensures { result ≡ is_unsupported kind.now }
{
    match kind {
        TokenKind::Word(word) => is_unsupported_word(word.items()),
        _ => false,
    }
}

fn has_unsupported_word(tokens: &[Token]) -> bool
    ensures { result ≡ list_any is_unsupported (kinds tokens.now) }
{
    for token in tokens {
        if is_unsupported(&token.kind) {
            return true;
        }
    }
    false
}

/// Whether a statement uses an unsupported form of ksqlDB.
pub(crate) fn has_unsupported(tokens: &[Token]) -> bool
    ensures { IsTrue result ↔ HasUnsupported (kinds tokens.now) }
{
    begins_with_select(tokens) || joins(tokens) > 1 || has_unsupported_word(tokens)
}
