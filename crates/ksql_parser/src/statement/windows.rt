//! Reading WINDOW and what follows it.

ghost use Rattle.std.specs.Prelude.{◌≡◌};
ghost use Rattle.std.specs.Option.{option_copied};
ghost use Rattle.expression_trees.specs.Words.{beside};
ghost use Rattle.ksql_grammar.specs.Reading.{Gives, with_rest};
ghost use Rattle.ksql_grammar.specs.Expressions as read;
ghost use Rattle.ksql_parser.specs.Grammar as spec;
ghost use Rattle.ksql_parser.specs.Statements as part;

use crate::statement::step::{after_word, after_words, key, sign, word};
use ksql_grammar::{Keyword, ReadError, Symbol, after_key, after_sign};
use ksql_lexer::Mark;
use statement_trees::{SpanText, Unit, WindowText};

/// The unit of time that a word names, if any.
fn unit_named(word: &str) -> Option<Unit>
    ensures { result ≡ beside spec.unit_words word.now }
{
    match word {
        "DAY" | "DAYS" => Some(Unit::Day),
        "HOUR" | "HOURS" => Some(Unit::Hour),
        "MINUTE" | "MINUTES" => Some(Unit::Minute),
        "SECOND" | "SECONDS" => Some(Unit::Second),
        "MILLISECOND" | "MILLISECONDS" => Some(Unit::Millisecond),
        _ => None,
    }
}

/// The unit of time that a symbol names, if any.
fn unit_of(symbol: &Symbol) -> Option<Unit>
    ensures { result ≡ spec.unit_of symbol.now }
{
    match symbol {
        Symbol::Word(word) => unit_named(word.items()),
        _ => None,
    }
}

/// A unit of time, and the symbols after it.
#[tactic(auto, unfolding(ksql_grammar::specs::Expressions::first))]
fn unit(symbols: &[Symbol]) -> Result<(Unit, &[Symbol]), ReadError>
    ensures { Gives with_rest result (read.first spec.unit_of symbols.now) }
{
    let (symbol, rest) = symbols.split_first().ok_or(ReadError::Unspelled)?;
    let unit = unit_of(symbol).ok_or(ReadError::Unspelled)?;
    Ok((unit, rest))
}

/// A number, and the symbols after it.
#[tactic(auto, unfolding(ksql_grammar::specs::Expressions::first))]
fn digits(symbols: &[Symbol]) -> Result<(u64, &[Symbol]), ReadError>
    ensures { Gives with_rest result (read.first part.digits_of symbols.now) }
{
    match symbols {
        [Symbol::Number(number), rest @ ..] => Ok((*number, rest)),
        _ => Err(ReadError::Unspelled),
    }
}

/// A span of time, and the symbols after it.
#[tactic(auto, unfolding(crate::specs::Statements::span))]
fn span(symbols: &[Symbol]) -> Result<(SpanText, &[Symbol]), ReadError>
    ensures { Gives with_rest result (part.span symbols.now) }
{
    let (digits, rest) = digits(symbols)?;
    let (unit, rest) = unit(rest)?;
    Ok((SpanText { digits, unit }, rest))
}

#[tactic(auto, unfolding(crate::specs::Statements::after_retention))]
fn after_retention(symbols: &[Symbol]) -> Option<&[Symbol]>
    ensures { option_copied result ≡ part.after_retention symbols.now }
{
    let rest = after_sign(Mark::Comma, symbols)?;
    after_word("RETENTION", rest)
}

#[tactic(auto, unfolding(crate::specs::Statements::after_grace))]
fn after_grace(symbols: &[Symbol]) -> Option<&[Symbol]>
    ensures { option_copied result ≡ part.after_grace symbols.now }
{
    let rest = after_sign(Mark::Comma, symbols)?;
    after_words("GRACE", "PERIOD", rest)
}

/// The retention, if any.
fn retention(symbols: &[Symbol]) -> Result<(Option<SpanText>, &[Symbol]), ReadError>
    ensures { Gives with_rest result (part.span_at symbols.now (part.after_retention symbols.now)) }
{
    let Some(rest) = after_retention(symbols) else {
        return Ok((None, symbols));
    };
    let (span, rest) = span(rest)?;
    Ok((Some(span), rest))
}

/// The grace period, if any.
fn grace(symbols: &[Symbol]) -> Result<(Option<SpanText>, &[Symbol]), ReadError>
    ensures { Gives with_rest result (part.span_at symbols.now (part.after_grace symbols.now)) }
{
    let Some(rest) = after_grace(symbols) else {
        return Ok((None, symbols));
    };
    let (span, rest) = span(rest)?;
    Ok((Some(span), rest))
}

/// The retention and the grace period, if any, and then `)`.
#[tactic(auto, unfolding(crate::specs::Statements::limits))]
fn limits(
    symbols: &[Symbol],
) -> Result<((Option<SpanText>, Option<SpanText>), &[Symbol]), ReadError>
    ensures { Gives with_rest result (part.limits symbols.now) }
{
    let (retention, rest) = retention(symbols)?;
    let (grace, rest) = grace(rest)?;
    let rest = sign(Mark::Close, rest)?;
    Ok(((retention, grace), rest))
}

/// `(` and the size of a window.
#[tactic(auto, unfolding(crate::specs::Statements::size))]
fn size(symbols: &[Symbol]) -> Result<(SpanText, &[Symbol]), ReadError>
    ensures { Gives with_rest result (part.size symbols.now) }
{
    let rest = sign(Mark::Open, symbols)?;
    let rest = word("SIZE", rest)?;
    span(rest)
}

/// A comma and the advance of a window.
#[tactic(auto, unfolding(crate::specs::Statements::advance))]
fn advance(symbols: &[Symbol]) -> Result<(SpanText, &[Symbol]), ReadError>
    ensures { Gives with_rest result (part.advance symbols.now) }
{
    let rest = sign(Mark::Comma, symbols)?;
    let rest = word("ADVANCE", rest)?;
    let rest = key(Keyword::By, rest)?;
    span(rest)
}

#[tactic(auto, unfolding(crate::specs::Statements::tumbling))]
fn tumbling(symbols: &[Symbol]) -> Result<(WindowText, &[Symbol]), ReadError>
    ensures { Gives with_rest result (part.tumbling symbols.now) }
{
    let (size, rest) = size(symbols)?;
    let ((retention, grace), rest) = limits(rest)?;
    let window = WindowText::Tumbling {
        size,
        retention,
        grace,
    };
    Ok((window, rest))
}

#[tactic(auto, unfolding(crate::specs::Statements::hopping))]
fn hopping(symbols: &[Symbol]) -> Result<(WindowText, &[Symbol]), ReadError>
    ensures { Gives with_rest result (part.hopping symbols.now) }
{
    let (size, rest) = size(symbols)?;
    let (advance, rest) = advance(rest)?;
    let ((retention, grace), rest) = limits(rest)?;
    let window = WindowText::Hopping {
        size,
        advance,
        retention,
        grace,
    };
    Ok((window, rest))
}

/// Reads what follows WINDOW.
#[tactic(auto, unfolding(crate::specs::Statements::window))]
fn window(symbols: &[Symbol]) -> Result<(WindowText, &[Symbol]), ReadError>
    ensures { Gives with_rest result (part.window symbols.now) }
{
    if let Some(rest) = after_word("TUMBLING", symbols) {
        return tumbling(rest);
    }
    match after_word("HOPPING", symbols) {
        Some(rest) => hopping(rest),
        None => Err(ReadError::Unspelled),
    }
}

/// The window of a query, if any.
#[tactic(auto, unfolding(crate::specs::Statements::windowed))]
pub(crate) fn read_window(symbols: &[Symbol]) -> Result<(Option<WindowText>, &[Symbol]), ReadError>
    ensures { Gives with_rest result (part.windowed symbols.now) }
{
    let Some(rest) = after_key(Keyword::Window, symbols) else {
        return Ok((None, symbols));
    };
    let (window, rest) = window(rest)?;
    Ok((Some(window), rest))
}
