//! Expressions built from their parts.

ghost use Rattle.std.specs.Prelude.{◌≡◌, IfOk, List, Option};
ghost use Rattle.ksql_grammar.specs.Grammar.{when_then};
ghost use Rattle.ksql_grammar.specs.Expressions.{after_prefix};

use crate::symbol::{Keyword, Symbol};
use expression_trees::{Expr, WhenText};
use ksql_lexer::Mark;
use ksql_types::{BinaryOp, Boxed, Chars, CopyOf, Items};
use std::alloc::{AllocError, Global};

pub fn binary(
    alloc: Global,
    op: BinaryOp,
    left: Boxed<Expr>,
    right: Expr,
) -> Result<Expr, AllocError>
    ensures { IfOk result (λ e. e ≡ Expr.Binary op left right) }
{
    let right = Boxed::of(alloc, right)?;
    Ok(Expr::Binary { op, left, right })
}

/// The expression that a NOT or a sign makes of `arg`.
pub fn after(alloc: Global, prefix: &Symbol, arg: Expr) -> Result<Expr, AllocError>
    ensures { IfOk result (λ e. e ≡ after_prefix prefix.now arg) }
{
    let arg = Boxed::of(alloc, arg)?;
    match prefix {
        Symbol::Key(_) => Ok(Expr::Not(arg)),
        Symbol::Sign(Mark::Minus) => Ok(Expr::Sign { minus: true, arg }),
        _ => Ok(Expr::Sign { minus: false, arg }),
    }
}

pub fn between(negated: bool, arg: Boxed<Expr>, low: Boxed<Expr>, high: Boxed<Expr>) -> Expr
    ensures { result ≡ Expr.Between negated arg low high }
{
    Expr::Between {
        negated,
        arg,
        low,
        high,
    }
}

pub fn one_of(negated: bool, arg: Boxed<Expr>, choices: Vec<Expr>) -> Expr
    ensures { result ≡ Expr.OneOf negated arg choices.items }
{
    let choices = Items::of(choices);
    Expr::OneOf {
        negated,
        arg,
        choices,
    }
}

pub fn like(
    alloc: Global,
    negated: bool,
    arg: Boxed<Expr>,
    pattern: &Chars,
) -> Result<Expr, AllocError>
    ensures { IfOk result (λ e. e ≡ Expr.Like negated arg pattern.now) }
{
    let pattern = pattern.copy(alloc)?;
    Ok(Expr::Like {
        negated,
        arg,
        pattern,
    })
}

pub fn case(arg: Option<Boxed<Expr>>, whens: Vec<WhenText>, otherwise: Option<Boxed<Expr>>) -> Expr
    ensures { result ≡ Expr.Case arg whens.items otherwise }
{
    let whens = Items::of(whens);
    Expr::Case {
        arg,
        whens,
        otherwise,
    }
}

/// A WHEN and its THEN.
pub fn when(cond: Expr, result_of: Expr) -> WhenText
    ensures { result ≡ when_then cond result_of }
{
    WhenText {
        cond,
        result: result_of,
    }
}

pub fn call(alloc: Global, name: &Chars, star: bool, args: Vec<Expr>) -> Result<Expr, AllocError>
    ensures { IfOk result (λ e. e ≡ Expr.Call name.now star args.items) }
{
    let name = name.copy(alloc)?;
    let args = Items::of(args);
    Ok(Expr::Call { name, star, args })
}

/// A plain name.
pub fn name(alloc: Global, name: &Chars) -> Result<Expr, AllocError>
    ensures { IfOk result (λ e. e ≡ Expr.Name Option.None name.now) }
{
    let name = name.copy(alloc)?;
    Ok(Expr::Name {
        qualifier: None,
        name,
    })
}

/// A name after its source and `.`.
pub fn name_in(alloc: Global, qualifier: &Chars, name: &Chars) -> Result<Expr, AllocError>
    ensures { IfOk result (λ e. e ≡ Expr.Name (Option.Some qualifier.now) name.now) }
{
    let qualifier = qualifier.copy(alloc)?;
    let name = name.copy(alloc)?;
    Ok(Expr::Name {
        qualifier: Some(qualifier),
        name,
    })
}

pub fn text(alloc: Global, content: &Chars) -> Result<Expr, AllocError>
    ensures { IfOk result (λ e. e ≡ Expr.Text content.now) }
{
    Ok(Expr::Text(content.copy(alloc)?))
}
