//! Reading columns and properties.

ghost use Rattle.std.specs.Prelude.{◌≡◌, List, [], ◌∷◌, Some, IfOk};
ghost use Rattle.ksql_lexer.specs.declared.token.Mark.TheVariants as mark;
ghost use Rattle.ksql_grammar.specs.declared.symbol.Symbol.{Symbol as OneSymbol};
ghost use Rattle.ksql_grammar.specs.declared.symbol.Symbol.TheVariants.{Key, Sign};
ghost use Rattle.ksql_grammar.specs.declared.symbol.Keyword.TheVariants as key;
ghost use Rattle.statement_trees.specs.declared.tree.ColumnText.{ColumnText as OneColumn};
ghost use Rattle.statement_trees.specs.declared.tree.Property.{Property as OneProperty};
ghost use Rattle.ksql_parser.specs.Grammar.{Spells, columns, prop_list, props, with_props};
ghost use Rattle.ksql_grammar.specs.Reading.{Gives, with_rest};
ghost use Rattle.ksql_parser.specs.Statements as part;

use crate::statement::step::{after_word, after_words, name, sign, sql_type};
use ksql_grammar::{Keyword, ReadError, Symbol, after_key, after_sign};
use ksql_lexer::Mark;
use ksql_types::{CopyOf, Items};
use statement_trees::{ColumnText, ColumnTexts, KeyMark, Properties, Property, PropertyValue};
use std::alloc::Global;

/// The leading key mark, if any, and the symbols after it.
#[tactic(auto, unfolding(crate::specs::Statements::key_mark))]
fn key_mark(symbols: &[Symbol]) -> (KeyMark, &[Symbol])
    ensures { with_rest result ≡ part.key_mark symbols.now }
{
    if let Some(rest) = after_word("KEY", symbols) {
        return (KeyMark::Key, rest);
    }
    if let Some(rest) = after_words("PRIMARY", "KEY", symbols) {
        return (KeyMark::PrimaryKey, rest);
    }
    (KeyMark::Plain, symbols)
}

#[tactic(auto, unfolding(crate::specs::Statements::column))]
fn read_column(alloc: Global, symbols: &[Symbol]) -> Result<(ColumnText, &[Symbol]), ReadError>
    ensures { Gives with_rest result (part.column symbols.now) }
{
    let (name, rest) = name(symbols)?;
    let (ty, rest) = sql_type(rest)?;
    let (mark, rest) = key_mark(rest);
    let name = name.copy(alloc)?;
    Ok((ColumnText { name, ty, mark }, rest))
}

/// One or more columns, separated by commas.
pub(crate) fn read_columns(
    alloc: Global,
    symbols: &[Symbol],
) -> Result<(ColumnTexts, &[Symbol]), ReadError>
    ensures found { IfOk result (λ x. Spells (columns x.0) symbols.now x.1.now) }
    ensures only { (cs : List OneColumn) (rest : List OneSymbol)
        → Spells (columns cs) symbols.now (Sign mark.Close ∷ rest)
        → Gives with_rest result (Some (cs, Sign mark.Close ∷ rest)) }
{
    let mut columns = Vec::new(alloc);
    let mut rest = symbols;
    loop {
        let (column, behind) = read_column(alloc, rest)?;
        columns.push(column)?;
        match after_sign(Mark::Comma, behind) {
            Some(after) => rest = after,
            None => return Ok((Items::of(columns), behind)),
        }
    }
}

#[tactic(auto, unfolding(crate::specs::Statements::property_value))]
fn property_value(
    alloc: Global,
    symbols: &[Symbol],
) -> Result<(PropertyValue, &[Symbol]), ReadError>
    ensures { Gives with_rest result (part.property_value symbols.now) }
{
    match symbols {
        [Symbol::Text(content), rest @ ..] => {
            Ok((PropertyValue::Text(content.copy(alloc)?), rest))
        }
        [Symbol::Number(number), rest @ ..] => Ok((PropertyValue::Digits(*number), rest)),
        _ => Err(ReadError::Unspelled),
    }
}

#[tactic(auto, unfolding(crate::specs::Statements::property))]
fn read_property(alloc: Global, symbols: &[Symbol]) -> Result<(Property, &[Symbol]), ReadError>
    ensures { Gives with_rest result (part.property symbols.now) }
{
    let (name, rest) = name(symbols)?;
    let rest = sign(Mark::Equal, rest)?;
    let (value, rest) = property_value(alloc, rest)?;
    let name = name.copy(alloc)?;
    Ok((Property { name, value }, rest))
}

/// One or more properties, separated by commas.
fn property_list(alloc: Global, symbols: &[Symbol]) -> Result<(Properties, &[Symbol]), ReadError>
    ensures found { IfOk result (λ x. Spells (prop_list x.0) symbols.now x.1.now) }
    ensures only { (ps : List OneProperty) (rest : List OneSymbol)
        → Spells (prop_list ps) symbols.now (Sign mark.Close ∷ rest)
        → Gives with_rest result (Some (ps, Sign mark.Close ∷ rest)) }
{
    let mut properties = Vec::new(alloc);
    let mut rest = symbols;
    loop {
        let (property, behind) = read_property(alloc, rest)?;
        properties.push(property)?;
        match after_sign(Mark::Comma, behind) {
            Some(after) => rest = after,
            None => return Ok((Items::of(properties), behind)),
        }
    }
}

/// Properties in parentheses.
pub(crate) fn read_properties(
    alloc: Global,
    symbols: &[Symbol],
) -> Result<(Properties, &[Symbol]), ReadError>
    ensures found { IfOk result (λ x. Spells (props x.0) symbols.now x.1.now) }
    ensures only { (ps : List OneProperty) (rest : List OneSymbol) → Spells (props ps) symbols.now rest
        → Gives with_rest result (Some (ps, rest)) }
{
    let rest = sign(Mark::Open, symbols)?;
    let (properties, rest) = property_list(alloc, rest)?;
    let rest = sign(Mark::Close, rest)?;
    Ok((properties, rest))
}

/// WITH and its properties, if present.
pub(crate) fn optional_properties(
    alloc: Global,
    symbols: &[Symbol],
) -> Result<(Properties, &[Symbol]), ReadError>
    ensures found { IfOk result (λ x. Spells (with_props x.0) symbols.now x.1.now) }
    ensures only { (ps : List OneProperty) (rest : List OneSymbol)
        → Spells (with_props ps) symbols.now (Key key.As ∷ rest)
        → Gives with_rest result (Some (ps, Key key.As ∷ rest)) }
{
    match after_key(Keyword::With, symbols) {
        Some(rest) => read_properties(alloc, rest),
        None => Ok((Items::of(Vec::new(alloc)), symbols)),
    }
}
