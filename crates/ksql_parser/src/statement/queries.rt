//! Reading SELECT and what follows it.

ghost use Rattle.std.specs.Prelude.{◌≡◌, List, [], ◌∷◌, Some, IfOk, option_map};
ghost use Rattle.ksql_grammar.specs.declared.symbol.Keyword.TheVariants as key;
ghost use Rattle.ksql_grammar.specs.declared.symbol.Symbol.{Symbol as OneSymbol};
ghost use Rattle.ksql_grammar.specs.declared.symbol.Symbol.TheVariants.{Key};
ghost use Rattle.statement_trees.specs.declared.tree.Select.{Select as OneSelect};
ghost use Rattle.statement_trees.specs.declared.tree.SelectItem.{SelectItem as OneItem};
ghost use Rattle.ksql_parser.specs.Grammar.{Spells, select, items, item};
ghost use Rattle.ksql_grammar.specs.Reading.{Gives, with_rest};
ghost use Rattle.ksql_parser.specs.declared.statement.queries.Clauses.{Clauses as OneClauses};
ghost use Rattle.ksql_parser.specs.declared.statement.queries.Front.{Front as OneFront};
ghost use Rattle.ksql_parser.specs.Queries.{SpellsFront, SpellsClauses};
ghost use Rattle.ksql_parser.specs.Queries as query;
ghost use Rattle.ksql_parser.specs.Statements.{BeginsFrom, EndsItem, lent};
ghost use Rattle.ksql_parser.specs.Statements as part;

use crate::statement::clauses::{
    after_emit, read_filter, read_group, read_having, read_join, read_partition, read_source,
};
use crate::statement::step::{after_name, alias, key};
use crate::statement::windows::read_window;
use expression_trees::{Expr, ExprTexts};
use ksql_grammar::{Keyword, ReadError, Symbol, after_sign, read_expression};
use ksql_lexer::Mark;
use ksql_types::{Boxed, Chars, CopyOf, Items};
use statement_trees::{JoinText, Select, SelectItem, SelectItems, Source, WindowText};
use std::alloc::Global;

/// The name before `.*`, and the symbols after.
fn after_star_of(symbols: &[Symbol]) -> Option<(&Chars, &[Symbol])>
    ensures { option_map lent result ≡ part.star_of symbols.now }
{
    let (name, rest) = after_name(symbols)?;
    let rest = after_sign(Mark::Dot, rest)?;
    let rest = after_sign(Mark::Star, rest)?;
    Some((name, rest))
}

/// An item: all columns, those of a source, or an expression and its alias.
fn read_item(alloc: Global, symbols: &[Symbol]) -> Result<(SelectItem, &[Symbol]), ReadError>
    ensures found { IfOk result (λ x. Spells (item x.0) symbols.now x.1.now) }
    ensures only { (i : OneItem) (rest : List OneSymbol) → Spells (item i) symbols.now rest → EndsItem rest
        → Gives with_rest result (Some (i, rest)) }
{
    if let Some(rest) = after_sign(Mark::Star, symbols) {
        return Ok((SelectItem::Star, rest));
    }
    if let Some((name, rest)) = after_star_of(symbols) {
        return Ok((SelectItem::StarOf(name.copy(alloc)?), rest));
    }
    let (expr, rest) = read_expression(alloc, symbols)?;
    let (alias, rest) = alias(alloc, rest)?;
    Ok((SelectItem::One { expr, alias }, rest))
}

/// One or more items, separated by commas.
fn read_items(alloc: Global, symbols: &[Symbol]) -> Result<(SelectItems, &[Symbol]), ReadError>
    ensures found { IfOk result (λ x. Spells (items x.0) symbols.now x.1.now) }
    ensures only { (is : List OneItem) (rest : List OneSymbol) → Spells (items is) symbols.now (Key key.From ∷ rest)
        → Gives with_rest result (Some (is, Key key.From ∷ rest)) }
{
    let mut items = Vec::new(alloc);
    let mut rest = symbols;
    loop {
        let (item, behind) = read_item(alloc, rest)?;
        items.push(item)?;
        match after_sign(Mark::Comma, behind) {
            Some(after) => rest = after,
            None => return Ok((Items::of(items), behind)),
        }
    }
}

/// The first half of a query: SELECT and what follows it, up to and including the window.
#[derive(Drop)]
struct Front {
    items: SelectItems,
    source: Source,
    join: Option<Boxed<JoinText>>,
    window: Option<WindowText>,
}

/// The second half of a query: what follows the window.
#[derive(Drop)]
struct Clauses {
    filter: Option<Boxed<Expr>>,
    group: ExprTexts,
    partition: Option<Boxed<Expr>>,
    having: Option<Boxed<Expr>>,
}

fn read_front(alloc: Global, symbols: &[Symbol]) -> Result<(Front, &[Symbol]), ReadError>
    ensures found { IfOk result (λ x. SpellsFront x.0 symbols.now x.1.now) }
    ensures only { (f : OneFront) (rest : List OneSymbol) → SpellsFront f symbols.now rest → BeginsFrom 3 rest
        → Gives with_rest result (Some (f, rest)) }
{
    let rest = key(Keyword::Select, symbols)?;
    let (items, rest) = read_items(alloc, rest)?;
    let rest = key(Keyword::From, rest)?;
    let (source, rest) = read_source(alloc, rest)?;
    let (join, rest) = read_join(alloc, rest)?;
    let (window, rest) = read_window(rest)?;
    let front = Front {
        items,
        source,
        join,
        window,
    };
    Ok((front, rest))
}

fn read_clauses(alloc: Global, symbols: &[Symbol]) -> Result<(Clauses, &[Symbol]), ReadError>
    ensures found { IfOk result (λ x. SpellsClauses x.0 symbols.now x.1.now) }
    ensures only { (c : OneClauses) (rest : List OneSymbol) → SpellsClauses c symbols.now rest → BeginsFrom 7 rest
        → Gives with_rest result (Some (c, rest)) }
{
    let (filter, rest) = read_filter(alloc, symbols)?;
    let (group, rest) = read_group(alloc, rest)?;
    let (partition, rest) = read_partition(alloc, rest)?;
    let (having, rest) = read_having(alloc, rest)?;
    let clauses = Clauses {
        filter,
        group,
        partition,
        having,
    };
    Ok((clauses, rest))
}

fn unboxed<T>(part: Option<Boxed<T>>) -> Option<T>
    ensures { result ≡ part }
{
    match part {
        Some(part) => Some(part.into_inner()),
        None => None,
    }
}

/// The query of its two halves.
fn select_of(front: Front, clauses: Clauses) -> Select
    ensures { result ≡ query.select_of front clauses }
{
    Select {
        items: front.items,
        source: front.source,
        join: unboxed(front.join),
        window: front.window,
        filter: unboxed(clauses.filter),
        group: clauses.group,
        partition: unboxed(clauses.partition),
        having: unboxed(clauses.having),
    }
}

/// A query, up to its last clause.
pub(crate) fn read_select(
    alloc: Global,
    symbols: &[Symbol],
) -> Result<(Select, &[Symbol]), ReadError>
    ensures found { IfOk result (λ x. Spells (select x.0) symbols.now x.1.now) }
    ensures only { (q : OneSelect) → Spells (select q) symbols.now [] → Gives with_rest result (Some (q, [])) }
{
    let (front, rest) = read_front(alloc, symbols)?;
    let (clauses, rest) = read_clauses(alloc, rest)?;
    Ok((select_of(front, clauses), after_emit(rest)))
}
