//! Reading statements. A tree that isn't needed is passed to `drop`: the check goes through such a call once, but
//! through every form of a local tree that ends with its block.

ghost use Rattle.std.specs.Prelude.{◌≡◌, List, [], ◌∷◌, Some, IfOk, option_map};
ghost use Rattle.ksql_lexer.specs.declared.token.Mark.TheVariants as mark;
ghost use Rattle.ksql_grammar.specs.declared.symbol.Keyword.TheVariants as key;
ghost use Rattle.ksql_grammar.specs.declared.symbol.Symbol.{Symbol as OneSymbol};
ghost use Rattle.ksql_grammar.specs.declared.symbol.Symbol.TheVariants.{Key, Sign};
ghost use Rattle.statement_trees.specs.declared.tree.Statement.{Statement as OneStatement};
ghost use Rattle.statement_trees.specs.declared.tree.StatementBody.{StatementBody as OneBody};
ghost use Rattle.ksql_parser.specs.Grammar.{Spells, statement, table_of as creates};
ghost use Rattle.ksql_grammar.specs.Expressions as read;
ghost use Rattle.ksql_grammar.specs.Reading.{Gives, with_rest};
ghost use Rattle.ksql_parser.specs.Statements as part;

mod clauses;
mod declaration;
mod queries;
mod step;
mod windows;

use crate::statement::declaration::{optional_properties, read_columns, read_properties};
use crate::statement::queries::read_select;
use crate::statement::step::{key, name, sign};
use ksql_grammar::{Keyword, ReadError, Symbol, after_sign};
use ksql_lexer::Mark;
use ksql_types::{Chars, CopyOf};
use statement_trees::{Statement, StatementBody};
use std::alloc::Global;

/// Whether the statement creates a table (or else a stream), and the symbols after TABLE or STREAM.
#[tactic(auto, unfolding(ksql_grammar::specs::Expressions::first))]
fn table(symbols: &[Symbol]) -> Result<(bool, &[Symbol]), ReadError>
    ensures { Gives with_rest result (read.first creates symbols.now) }
{
    match symbols {
        [Symbol::Key(Keyword::Stream), rest @ ..] => Ok((false, rest)),
        [Symbol::Key(Keyword::Table), rest @ ..] => Ok((true, rest)),
        _ => Err(ReadError::Unspelled),
    }
}

/// CREATE, the kind of relation and its name: whether it is a table, the name, and the symbols after them.
#[tactic(auto, unfolding(crate::specs::Statements::head))]
fn head(alloc: Global, symbols: &[Symbol]) -> Result<((bool, Chars), &[Symbol]), ReadError>
    ensures { Gives with_rest result (part.head symbols.now) }
{
    let rest = key(Keyword::Create, symbols)?;
    let (table, rest) = table(rest)?;
    let (name, rest) = name(rest)?;
    Ok(((table, name.copy(alloc)?), rest))
}

/// The columns of a declaration, `)`, and WITH and its properties.
fn declared(alloc: Global, symbols: &[Symbol]) -> Result<(StatementBody, &[Symbol]), ReadError>
    ensures found { IfOk result (λ x. part.SpellsDeclared x.0 symbols.now x.1.now) }
    ensures only { (b : OneBody) (rest : List OneSymbol) → part.SpellsDeclared b symbols.now rest
        → Gives with_rest result (Some (b, rest)) }
{
    let (columns, rest) = read_columns(alloc, symbols)?;
    let rest = sign(Mark::Close, rest)?;
    let rest = key(Keyword::With, rest)?;
    let (props, rest) = read_properties(alloc, rest)?;
    Ok((StatementBody::Declared { columns, props }, rest))
}

/// WITH and its properties, if present, then AS and a query.
fn query(alloc: Global, symbols: &[Symbol]) -> Result<(StatementBody, &[Symbol]), ReadError>
    ensures found { IfOk result (λ x. part.SpellsQuery x.0 symbols.now x.1.now) }
    ensures only { (b : OneBody) → part.SpellsQuery b symbols.now [] → Gives with_rest result (Some (b, [])) }
{
    let (props, rest) = optional_properties(alloc, symbols)?;
    let rest = key(Keyword::As, rest)?;
    let (select, rest) = read_select(alloc, rest)?;
    Ok((StatementBody::Query { props, select }, rest))
}

/// Reads what follows the name of a statement.
fn body(alloc: Global, symbols: &[Symbol]) -> Result<(StatementBody, &[Symbol]), ReadError>
    ensures found { IfOk result (λ x. part.SpellsBody x.0 symbols.now x.1.now) }
    ensures only { (b : OneBody) → part.SpellsBody b symbols.now [] → Gives with_rest result (Some (b, [])) }
{
    match after_sign(Mark::Open, symbols) {
        Some(rest) => declared(alloc, rest),
        None => query(alloc, symbols),
    }
}

/// The tree of the statement that these symbols spell as a whole.
pub(crate) fn read_statement(alloc: Global, symbols: &[Symbol]) -> Result<Statement, ReadError>
    ensures found { IfOk result (λ s. Spells (statement s) symbols.now []) }
    ensures only { (s : OneStatement) → Spells (statement s) symbols.now [] → Gives (λ x. x) result (Some s) }
{
    let ((table, name), rest) = head(alloc, symbols)?;
    let (body, rest) = body(alloc, rest)?;
    if !rest.is_empty() {
        drop(body);
        return Err(ReadError::Unspelled);
    }
    Ok(Statement { table, name, body })
}
