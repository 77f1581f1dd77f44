use aggregate_rules::{
    has_aggregate, has_bare_column, has_nested_aggregate, has_ordered_aggregate,
    has_unknown_function,
};
use expression_trees::Expr;
use ksql_grammar::{Keyword, Symbol, read_expression, read_expressions};
use ksql_lexer::{TokenKind, tokens};
use ksql_types::CopyOf;
use std::alloc::{AllocError, Global};

/// The reserved word that a word is, among those of the tables.
fn keyword(word: &str) -> Option<Keyword> {
    match word {
        "OR" => Some(Keyword::Or),
        "AND" => Some(Keyword::And),
        "NOT" => Some(Keyword::Not),
        "BETWEEN" => Some(Keyword::Between),
        "IN" => Some(Keyword::In),
        "CASE" => Some(Keyword::Case),
        "WHEN" => Some(Keyword::When),
        "THEN" => Some(Keyword::Then),
        "END" => Some(Keyword::End),
        _ => None,
    }
}

fn symbol(alloc: Global, kind: &TokenKind) -> Result<Symbol, AllocError> {
    match kind {
        TokenKind::Word(name) => match keyword(name.items()) {
            Some(key) => Ok(Symbol::Key(key)),
            None => Ok(Symbol::Word(name.copy(alloc)?)),
        },
        TokenKind::Quoted(name) => Ok(Symbol::Quoted(name.copy(alloc)?)),
        TokenKind::Text(content) => Ok(Symbol::Text(content.copy(alloc)?)),
        TokenKind::Digits(digits) => {
            Ok(Symbol::Number(digits.items().parse::<u64>().unwrap_or(0)))
        }
        TokenKind::Mark(mark) => Ok(Symbol::Sign(*mark)),
    }
}

/// The symbols of a text's tokens.
#[tactic(auto, unfolding(ksql_types::specs::Text::longest_text))]
fn symbols(alloc: Global, text: &str) -> Result<Vec<Symbol>, AllocError> {
    let mut symbols = Vec::new(alloc);
    if text.len() > 1_048_576 {
        return Ok(symbols);
    }
    let Ok(tokens) = tokens(alloc, text) else {
        return Ok(symbols);
    };
    for token in tokens.as_slice() {
        symbols.push(symbol(alloc, &token.kind)?)?;
    }
    Ok(symbols)
}

fn shown(alloc: Global, expr: &Expr) -> Result<String, AllocError> {
    match expr {
        Expr::Digits(number) => format!(in alloc; "{number}"),
        Expr::Name { name, .. } => String::from_str(alloc, name.items()),
        Expr::Not(arg) => {
            let arg = shown(alloc, arg.get())?;
            format!(in alloc; "[Not {arg}]")
        }
        Expr::Binary { op, left, right } => {
            let left = shown(alloc, left.get())?;
            let right = shown(alloc, right.get())?;
            format!(in alloc; "[{op:?} {left} {right}]")
        }
        Expr::Between { arg, low, high, .. } => {
            let arg = shown(alloc, arg.get())?;
            let low = shown(alloc, low.get())?;
            let high = shown(alloc, high.get())?;
            format!(in alloc; "[Between {arg} {low} {high}]")
        }
        _ => String::from_str(alloc, "another"),
    }
}

/// The tree of an expression, as its copy shows it, with the number of symbols after it.
pub fn tree(alloc: Global, text: &str) -> Result<String, AllocError> {
    let symbols = symbols(alloc, text)?;
    let Ok((expr, rest)) = read_expression(alloc, &symbols) else {
        return String::from_str(alloc, "none");
    };
    let copied = shown(alloc, &expr.copy(alloc)?)?;
    format!(in alloc; "{copied} {}", rest.len())
}

/// The trees of a list of expressions, with the number of symbols after it.
pub fn list(alloc: Global, text: &str) -> Result<String, AllocError> {
    let symbols = symbols(alloc, text)?;
    let Ok((exprs, rest)) = read_expressions(alloc, &symbols) else {
        return String::from_str(alloc, "none");
    };
    let mut trees = String::new(alloc);
    for expr in exprs.items() {
        trees.push_str(shown(alloc, expr)?.as_str())?;
        trees.push(' ')?;
    }
    format!(in alloc; "{trees}{}", rest.len())
}

/// What stands in an expression where some others are the groups, from a text `GROUPS | EXPRESSION`.
pub fn held(alloc: Global, text: &str) -> Result<String, AllocError> {
    let (groups, text) = text.split_once(" | ").unwrap_or(("", text));
    let groups = symbols(alloc, groups)?;
    let symbols = symbols(alloc, text)?;
    let Ok((groups, _)) = read_expressions(alloc, &groups) else {
        return String::from_str(alloc, "no groups");
    };
    let Ok((expr, _)) = read_expression(alloc, &symbols) else {
        return String::from_str(alloc, "none");
    };
    words(alloc, groups.items(), &expr)
}

fn words(alloc: Global, groups: &[Expr], expr: &Expr) -> Result<String, AllocError> {
    let mut words = String::from_str(alloc, "holds")?;
    for (word, holds) in [
        (" aggregate", has_aggregate(expr)),
        (" ordered", has_ordered_aggregate(expr)),
        (" unknown", has_unknown_function(expr)),
        (" nested", has_nested_aggregate(expr)),
        (" bare", has_bare_column(groups, expr)),
    ] {
        if holds {
            words.push_str(word)?;
        }
    }
    Ok(words)
}
