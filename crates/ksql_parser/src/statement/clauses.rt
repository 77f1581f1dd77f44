//! Reading the clauses of a query. Each is optional, and ends at the end or at a later clause. Their trees are held as
//! `Boxed`: the check goes once through such a value that isn't needed, but through every form of an `Expr`.

ghost use Rattle.std.specs.Prelude.{◌≡◌, List, Option, Some, IfOk};
ghost use Rattle.std.specs.Option.{option_copied};
ghost use Rattle.ksql_grammar.specs.declared.symbol.Symbol.{Symbol as OneSymbol};
ghost use Rattle.expression_trees.specs.declared.tree.Expr.{Expr as Tree};
ghost use Rattle.ksql_grammar.specs.Grammar.{Spells as SpellsExpr, at, expr};
ghost use Rattle.statement_trees.specs.declared.tree.JoinText.{JoinText as OneJoin};
ghost use Rattle.ksql_parser.specs.Grammar.{Spells, joined, filter, group, partition, having};
ghost use Rattle.ksql_grammar.specs.Reading.{EndsExpr, Gives, with_rest, option_with_rest};
ghost use Rattle.ksql_parser.specs.Queries as query;
ghost use Rattle.ksql_parser.specs.Statements.{BeginsFrom};
ghost use Rattle.ksql_parser.specs.Statements as part;

use crate::statement::step::{after_by, after_word, alias, key, name};
use expression_trees::{Expr, ExprTexts};
use ksql_grammar::{Keyword, ReadError, Symbol, after_key, read_expression, read_expressions};
use ksql_types::{Boxed, CopyOf, Items};
use statement_trees::{JoinText, JoinWord, Source};
use std::alloc::Global;

/// An expression, and the symbols after it.
fn boxed_expression(
    alloc: Global,
    symbols: &[Symbol],
) -> Result<(Boxed<Expr>, &[Symbol]), ReadError>
    ensures found { IfOk result (λ x. SpellsExpr (at expr x.0) symbols.now x.1.now) }
    ensures only { (e : Tree) (rest : List OneSymbol) → SpellsExpr (at expr e) symbols.now rest → EndsExpr rest
        → Gives with_rest result (Some (e, rest)) }
{
    let (expr, rest) = read_expression(alloc, symbols)?;
    Ok((Boxed::of(alloc, expr)?, rest))
}

/// A relation and its alias.
#[tactic(auto, unfolding(crate::specs::Statements::source))]
pub(crate) fn read_source(
    alloc: Global,
    symbols: &[Symbol],
) -> Result<(Source, &[Symbol]), ReadError>
    ensures { Gives with_rest result (part.source symbols.now) }
{
    let (name, rest) = name(symbols)?;
    let (alias, rest) = alias(alloc, rest)?;
    let name = name.copy(alloc)?;
    Ok((Source { name, alias }, rest))
}

/// The symbols after JOIN, which `word` may precede.
#[tactic(auto, unfolding(crate::specs::Queries::after_join))]
fn after_join(word: Keyword, symbols: &[Symbol]) -> Option<&[Symbol]>
    ensures { option_copied result ≡ query.after_join word symbols.now }
{
    match after_key(word, symbols) {
        Some(rest) => after_key(Keyword::Join, rest),
        None => after_key(Keyword::Join, symbols),
    }
}

/// How the next source is joined, if one is, and the symbols after JOIN.
fn join_words(symbols: &[Symbol]) -> Option<(JoinWord, &[Symbol])>
    ensures { option_with_rest result ≡ part.join_words symbols.now }
{
    if let Some(rest) = after_key(Keyword::Left, symbols) {
        return Some((JoinWord::Left, after_join(Keyword::Outer, rest)?));
    }
    if let Some(rest) = after_key(Keyword::Full, symbols) {
        return Some((JoinWord::Full, after_join(Keyword::Outer, rest)?));
    }
    Some((JoinWord::Inner, after_join(Keyword::Inner, symbols)?))
}

pub(crate) fn read_join(
    alloc: Global,
    symbols: &[Symbol],
) -> Result<(Option<Boxed<JoinText>>, &[Symbol]), ReadError>
    ensures found { IfOk result (λ x. Spells (joined x.0) symbols.now x.1.now) }
    ensures only { (j : Option OneJoin) (rest : List OneSymbol) → Spells (joined j) symbols.now rest → BeginsFrom 2 rest
        → Gives with_rest result (Some (j, rest)) }
{
    let Some((kind, rest)) = join_words(symbols) else {
        return Ok((None, symbols));
    };
    let (source, rest) = read_source(alloc, rest)?;
    let rest = key(Keyword::On, rest)?;
    let (on, rest) = read_expression(alloc, rest)?;
    let join = Boxed::of(alloc, JoinText { kind, source, on })?;
    Ok((Some(join), rest))
}

pub(crate) fn read_filter(
    alloc: Global,
    symbols: &[Symbol],
) -> Result<(Option<Boxed<Expr>>, &[Symbol]), ReadError>
    ensures found { IfOk result (λ x. Spells (filter x.0) symbols.now x.1.now) }
    ensures only { (f : Option Tree) (rest : List OneSymbol) → Spells (filter f) symbols.now rest → BeginsFrom 4 rest
        → Gives with_rest result (Some (f, rest)) }
{
    let Some(rest) = after_key(Keyword::Where, symbols) else {
        return Ok((None, symbols));
    };
    let (condition, rest) = boxed_expression(alloc, rest)?;
    Ok((Some(condition), rest))
}

pub(crate) fn read_group(
    alloc: Global,
    symbols: &[Symbol],
) -> Result<(ExprTexts, &[Symbol]), ReadError>
    ensures found { IfOk result (λ x. Spells (group x.0) symbols.now x.1.now) }
    ensures only { (g : List Tree) (rest : List OneSymbol) → Spells (group g) symbols.now rest → BeginsFrom 5 rest
        → Gives with_rest result (Some (g, rest)) }
{
    match after_by(Keyword::Group, symbols) {
        Some(rest) => read_expressions(alloc, rest),
        None => Ok((Items::of(Vec::new(alloc)), symbols)),
    }
}

pub(crate) fn read_partition(
    alloc: Global,
    symbols: &[Symbol],
) -> Result<(Option<Boxed<Expr>>, &[Symbol]), ReadError>
    ensures found { IfOk result (λ x. Spells (partition x.0) symbols.now x.1.now) }
    ensures only { (p : Option Tree) (rest : List OneSymbol) → Spells (partition p) symbols.now rest → BeginsFrom 6 rest
        → Gives with_rest result (Some (p, rest)) }
{
    let Some(rest) = after_by(Keyword::Partition, symbols) else {
        return Ok((None, symbols));
    };
    let (column, rest) = boxed_expression(alloc, rest)?;
    Ok((Some(column), rest))
}

pub(crate) fn read_having(
    alloc: Global,
    symbols: &[Symbol],
) -> Result<(Option<Boxed<Expr>>, &[Symbol]), ReadError>
    ensures found { IfOk result (λ x. Spells (having x.0) symbols.now x.1.now) }
    ensures only { (h : Option Tree) (rest : List OneSymbol) → Spells (having h) symbols.now rest → BeginsFrom 7 rest
        → Gives with_rest result (Some (h, rest)) }
{
    let Some(rest) = after_key(Keyword::Having, symbols) else {
        return Ok((None, symbols));
    };
    let (condition, rest) = boxed_expression(alloc, rest)?;
    Ok((Some(condition), rest))
}

#[tactic(auto, unfolding(crate::specs::Statements::after_changes))]
fn after_changes(symbols: &[Symbol]) -> Option<&[Symbol]>
    ensures { option_copied result ≡ part.after_changes symbols.now }
{
    let rest = after_key(Keyword::Emit, symbols)?;
    after_word("CHANGES", rest)
}

/// The symbols after EMIT CHANGES, if present.
#[tactic(auto, unfolding(crate::specs::Statements::emit))]
pub(crate) fn after_emit(symbols: &[Symbol]) -> &[Symbol]
    ensures { result.now ≡ part.emit symbols.now }
{
    match after_changes(symbols) {
        Some(rest) => rest,
        None => symbols,
    }
}
