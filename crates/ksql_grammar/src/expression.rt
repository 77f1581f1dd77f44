//! Reading expressions. An expression that isn't needed is passed to `drop`, or held as a `Boxed`: the check goes
//! through such a call once, but through every form of a local `Expr` that ends with its block.

ghost use Rattle.std.specs.Prelude.{◌≡◌, ◌≤◌, List, length, Some, IfOk};
ghost use Rattle.std.specs.List.{prefix_len};
ghost use Rattle.expression_trees.specs.declared.tree.Expr.{Expr as Tree};
ghost use Rattle.ksql_grammar.specs.declared.symbol.Symbol.{Symbol as OneSymbol};
ghost use Rattle.ksql_grammar.specs.Symbols as spec;
ghost use Rattle.ksql_grammar.specs.Grammar.{Spells, at, expr, exprs};
ghost use Rattle.ksql_grammar.specs.Reading.{Gives, with_rest, with_items, option_with_rest, EndsExpr, EndsExprs};
ghost use Rattle.ksql_grammar.specs.Expressions as read;
ghost use Rattle.ksql_grammar.specs.Nests.{Nests, ReadsAs};

use crate::fault::ReadError;
use crate::node;
use crate::symbol::{
    Keyword, Symbol, after_key, after_sign, and_of, comparison_of, is_not, is_sign, name_of, or_of,
    product_of, sum_of, type_of,
};
use expression_trees::{Expr, ExprTexts, WhenText};
use ksql_lexer::Mark;
use ksql_types::{BinaryOp, Boxed, Chars, Items, SqlType};
use std::alloc::{AllocError, Global};

/// A level of binary operators.
#[derive(Clone, Copy, Debug, PartialEq, Eq)]
enum Level {
    Expr,
    Conj,
    Sum,
    Prod,
}

fn operator(level: Level, symbol: &Symbol) -> Option<BinaryOp>
    ensures { result ≡ read.operator_at level symbol.now }
{
    match level {
        Level::Expr => or_of(symbol),
        Level::Conj => and_of(symbol),
        Level::Sum => sum_of(symbol),
        Level::Prod => product_of(symbol),
    }
}

/// An operator of the level, and the symbols after it.
#[tactic(auto, unfolding(crate::specs::Expressions::first))]
fn after_operator(level: Level, symbols: &[Symbol]) -> Option<(BinaryOp, &[Symbol])>
    ensures { option_with_rest result ≡ read.first (read.operator_at level) symbols.now }
{
    let (symbol, rest) = symbols.split_first()?;
    Some((operator(level, symbol)?, rest))
}

/// The operator of a comparison, and the symbols after it.
#[tactic(auto, unfolding(crate::specs::Expressions::first))]
fn after_comparison(symbols: &[Symbol]) -> Option<(BinaryOp, &[Symbol])>
    ensures { option_with_rest result ≡ read.first spec.comparison_of symbols.now }
{
    let (symbol, rest) = symbols.split_first()?;
    Some((comparison_of(symbol)?, rest))
}

/// A type, and the symbols after it.
#[tactic(auto, unfolding(crate::specs::Expressions::first))]
fn after_type(symbols: &[Symbol]) -> Option<(SqlType, &[Symbol])>
    ensures { option_with_rest result ≡ read.first spec.type_of symbols.now }
{
    let (symbol, rest) = symbols.split_first()?;
    Some((type_of(symbol)?, rest))
}

/// Whether NOT comes first, and the symbols after it.
#[tactic(auto, unfolding(crate::specs::Expressions::negation_at))]
fn negation(symbols: &[Symbol]) -> (bool, &[Symbol])
    ensures { with_rest result ≡ read.negation_at symbols.now }
{
    match after_key(Keyword::Not, symbols) {
        Some(rest) => (true, rest),
        None => (false, symbols),
    }
}

/// The number of leading NOTs.
fn not_count(symbols: &[Symbol]) -> usize
    ensures value { result ≡ prefix_len read.is_not symbols.now }
    ensures within { result ≤ length symbols.now }
{
    symbols.iter().take_while(|s| is_not(s)).count()
}

/// The number of leading signs of a number.
fn sign_count(symbols: &[Symbol]) -> usize
    ensures value { result ≡ prefix_len read.is_sign symbols.now }
    ensures within { result ≤ length symbols.now }
{
    symbols.iter().take_while(|s| is_sign(s)).count()
}

/// The expression after all these prefixes.
fn after_all(alloc: Global, prefixes: &[Symbol], arg: Expr) -> Result<Expr, AllocError>
    ensures { IfOk result (λ e. e ≡ read.after_prefixes prefixes.now arg) }
{
    let mut whole = arg;
    let mut left = prefixes;
    while let Some((last, others)) = left.split_last() {
        whole = node::after(alloc, last, whole)?;
        left = others;
    }
    Ok(whole)
}

#[tactic(auto, unfolding(crate::specs::Expressions::is_null))]
fn is_null(alloc: Global, arg: Expr, symbols: &[Symbol]) -> Result<(Expr, &[Symbol]), ReadError>
    ensures { Gives with_rest result (read.is_null arg symbols.now) }
{
    let arg = Boxed::of(alloc, arg)?;
    let (negated, rest) = negation(symbols);
    let rest = after_key(Keyword::Null, rest).ok_or(ReadError::Unspelled)?;
    Ok((Expr::IsNull { negated, arg }, rest))
}

#[tactic(auto, unfolding(crate::specs::Expressions::like, crate::specs::Expressions::first))]
fn like(
    alloc: Global,
    negated: bool,
    arg: Expr,
    symbols: &[Symbol],
) -> Result<(Expr, &[Symbol]), ReadError>
    ensures { Gives with_rest result (read.like negated arg symbols.now) }
{
    let arg = Boxed::of(alloc, arg)?;
    match symbols {
        [Symbol::Text(pattern), rest @ ..] => Ok((node::like(alloc, negated, arg, pattern)?, rest)),
        _ => Err(ReadError::Unspelled),
    }
}

/// Reads what follows a source and `.`.
#[tactic(auto, unfolding(crate::specs::Expressions::qualified, crate::specs::Expressions::first))]
fn qualified<'a>(
    alloc: Global,
    qualifier: &Chars,
    symbols: &'a [Symbol],
) -> Result<(Expr, &'a [Symbol]), ReadError>
    ensures { Gives with_rest result (read.qualified qualifier.now symbols.now) }
{
    let (symbol, rest) = symbols.split_first().ok_or(ReadError::Unspelled)?;
    let name = name_of(symbol).ok_or(ReadError::Unspelled)?;
    Ok((node::name_in(alloc, qualifier, name)?, rest))
}

/// The grammar's rules take the reader of nested expressions, so that each rule is proved on its own.
#[derive(Clone, Copy)]
struct Nested<F> {
    alloc: Global,
    /// How many levels deeper expressions may nest.
    room: usize,
    reader: F,
}

impl<F: for<'a> Fn(Global, usize, &'a [Symbol]) -> Result<(Expr, &'a [Symbol]), ReadError>> Nested<
    F,
> {
    /// Reads an expression one level deeper.
    fn inner<'a>(&self, symbols: &'a [Symbol]) -> Result<(Expr, &'a [Symbol]), ReadError>
        requires { Nests self.now.room (F.pre self.now.reader) (F.post self.now.reader) }
        ensures { Gives with_rest result (read.within self.now.room symbols.now) }
    {
        (self.reader)(self.alloc, self.room, symbols)
    }

    /// Reads an expression one level deeper, and puts it on the heap.
    fn boxed_inner<'a>(
        &self,
        symbols: &'a [Symbol],
    ) -> Result<(Boxed<Expr>, &'a [Symbol]), ReadError>
        requires { Nests self.now.room (F.pre self.now.reader) (F.post self.now.reader) }
        ensures { Gives with_rest result (read.within self.now.room symbols.now) }
    {
        let (inner, rest) = self.inner(symbols)?;
        Ok((Boxed::of(self.alloc, inner)?, rest))
    }

    #[tactic(auto, unfolding(crate::specs::Expressions::parens))]
    fn parenthesized<'a>(&self, symbols: &'a [Symbol]) -> Result<(Expr, &'a [Symbol]), ReadError>
        requires { Nests self.now.room (F.pre self.now.reader) (F.post self.now.reader) }
        ensures { Gives with_rest result (read.parens (read.within self.now.room) symbols.now) }
    {
        let (inner, rest) = self.inner(symbols)?;
        let Some(rest) = after_sign(Mark::Close, rest) else {
            drop(inner);
            return Err(ReadError::Unspelled);
        };
        Ok((inner, rest))
    }

    #[tactic(auto, unfolding(crate::specs::Expressions::cast))]
    fn cast<'a>(&self, symbols: &'a [Symbol]) -> Result<(Expr, &'a [Symbol]), ReadError>
        requires { Nests self.now.room (F.pre self.now.reader) (F.post self.now.reader) }
        ensures { Gives with_rest result (read.cast (read.within self.now.room) symbols.now) }
    {
        let rest = after_sign(Mark::Open, symbols).ok_or(ReadError::Unspelled)?;
        let (arg, rest) = self.boxed_inner(rest)?;
        let rest = after_key(Keyword::As, rest).ok_or(ReadError::Unspelled)?;
        let (to, rest) = after_type(rest).ok_or(ReadError::Unspelled)?;
        let rest = after_sign(Mark::Close, rest).ok_or(ReadError::Unspelled)?;
        Ok((Expr::Cast { arg, to }, rest))
    }

    /// The operand of a CASE, if any.
    #[tactic(auto, unfolding(crate::specs::Expressions::operand))]
    fn case_operand<'a>(
        &self,
        symbols: &'a [Symbol],
    ) -> Result<(Option<Boxed<Expr>>, &'a [Symbol]), ReadError>
        requires { Nests self.now.room (F.pre self.now.reader) (F.post self.now.reader) }
        ensures { Gives with_rest result (read.operand (read.within self.now.room) symbols.now) }
    {
        if after_key(Keyword::When, symbols).is_some() {
            return Ok((None, symbols));
        }
        let (arg, rest) = self.boxed_inner(symbols)?;
        Ok((Some(arg), rest))
    }

    /// Reads what follows WHEN.
    #[tactic(auto, unfolding(crate::specs::Expressions::when))]
    fn when<'a>(&self, symbols: &'a [Symbol]) -> Result<(WhenText, &'a [Symbol]), ReadError>
        requires { Nests self.now.room (F.pre self.now.reader) (F.post self.now.reader) }
        ensures { Gives with_rest result (read.when (read.within self.now.room) symbols.now) }
    {
        let (cond, rest) = self.inner(symbols)?;
        let rest = after_key(Keyword::Then, rest).ok_or(ReadError::Unspelled)?;
        let (outcome, rest) = self.inner(rest)?;
        Ok((node::when(cond, outcome), rest))
    }

    /// One or more pairs of WHEN and THEN.
    #[tactic(auto, unfolding(crate::specs::Expressions::whens))]
    fn whens<'a>(&self, symbols: &'a [Symbol]) -> Result<(Vec<WhenText>, &'a [Symbol]), ReadError>
        requires { Nests self.now.room (F.pre self.now.reader) (F.post self.now.reader) }
        ensures { Gives with_items result (read.whens (read.within self.now.room) symbols.now) }
    {
        let mut whens = Vec::new(self.alloc);
        let mut rest = after_key(Keyword::When, symbols).ok_or(ReadError::Unspelled)?;
        loop {
            let (when, behind) = self.when(rest)?;
            whens.push(when)?;
            match after_key(Keyword::When, behind) {
                Some(after) => rest = after,
                None => return Ok((whens, behind)),
            }
        }
    }

    /// ELSE and its expression, if present.
    #[tactic(auto, unfolding(crate::specs::Expressions::otherwise))]
    fn otherwise<'a>(
        &self,
        symbols: &'a [Symbol],
    ) -> Result<(Option<Boxed<Expr>>, &'a [Symbol]), ReadError>
        requires { Nests self.now.room (F.pre self.now.reader) (F.post self.now.reader) }
        ensures { Gives with_rest result (read.otherwise (read.within self.now.room) symbols.now) }
    {
        let Some(rest) = after_key(Keyword::Else, symbols) else {
            return Ok((None, symbols));
        };
        let (otherwise, rest) = self.boxed_inner(rest)?;
        Ok((Some(otherwise), rest))
    }

    #[tactic(auto, unfolding(crate::specs::Expressions::case))]
    fn case<'a>(&self, symbols: &'a [Symbol]) -> Result<(Expr, &'a [Symbol]), ReadError>
        requires { Nests self.now.room (F.pre self.now.reader) (F.post self.now.reader) }
        ensures { Gives with_rest result (read.case (read.within self.now.room) symbols.now) }
    {
        let (arg, rest) = self.case_operand(symbols)?;
        let (whens, rest) = self.whens(rest)?;
        let (otherwise, rest) = self.otherwise(rest)?;
        let rest = after_key(Keyword::End, rest).ok_or(ReadError::Unspelled)?;
        Ok((node::case(arg, whens, otherwise), rest))
    }

    /// Reads an expression that begins with a reserved word.
    fn keyed<'a>(
        &self,
        key: Keyword,
        symbols: &'a [Symbol],
    ) -> Result<(Expr, &'a [Symbol]), ReadError>
        requires { Nests self.now.room (F.pre self.now.reader) (F.post self.now.reader) }
        ensures { Gives with_rest result (read.keyed (read.within self.now.room) key symbols.now) }
    {
        match key {
            Keyword::True => Ok((Expr::Truth(true), symbols)),
            Keyword::False => Ok((Expr::Truth(false), symbols)),
            Keyword::Null => Ok((Expr::Null, symbols)),
            Keyword::Cast => self.cast(symbols),
            Keyword::Case => self.case(symbols),
            _ => Err(ReadError::Unspelled),
        }
    }

    /// One or more expressions, separated by commas.
    #[tactic(auto, unfolding(crate::specs::Expressions::exprs))]
    fn expressions<'a>(&self, symbols: &'a [Symbol]) -> Result<(Vec<Expr>, &'a [Symbol]), ReadError>
        requires { Nests self.now.room (F.pre self.now.reader) (F.post self.now.reader) }
        ensures { Gives with_items result (read.exprs (read.within self.now.room) symbols.now) }
    {
        let mut exprs = Vec::new(self.alloc);
        let mut rest = symbols;
        loop {
            let (expr, behind) = self.inner(rest)?;
            exprs.push(expr)?;
            match after_sign(Mark::Comma, behind) {
                Some(after) => rest = after,
                None => return Ok((exprs, behind)),
            }
        }
    }

    /// Reads what stands between the parentheses of a call: whether it is `*`, and the expressions.
    #[tactic(auto, unfolding(crate::specs::Expressions::arguments))]
    fn arguments<'a>(
        &self,
        symbols: &'a [Symbol],
    ) -> Result<((bool, Vec<Expr>), &'a [Symbol]), ReadError>
        requires { Nests self.now.room (F.pre self.now.reader) (F.post self.now.reader) }
        ensures { Gives read.with_arguments result (read.arguments (read.within self.now.room) symbols.now) }
    {
        if after_sign(Mark::Close, symbols).is_some() {
            return Ok(((false, Vec::new(self.alloc)), symbols));
        }
        if let Some(rest) = after_sign(Mark::Star, symbols) {
            return Ok(((true, Vec::new(self.alloc)), rest));
        }
        let (args, rest) = self.expressions(symbols)?;
        Ok(((false, args), rest))
    }

    #[tactic(auto, unfolding(crate::specs::Expressions::call))]
    fn call<'a>(
        &self,
        name: &Chars,
        symbols: &'a [Symbol],
    ) -> Result<(Expr, &'a [Symbol]), ReadError>
        requires { Nests self.now.room (F.pre self.now.reader) (F.post self.now.reader) }
        ensures { Gives with_rest result (read.call (read.within self.now.room) name.now symbols.now) }
    {
        let ((star, args), rest) = self.arguments(symbols)?;
        let rest = after_sign(Mark::Close, rest).ok_or(ReadError::Unspelled)?;
        Ok((node::call(self.alloc, name, star, args)?, rest))
    }

    /// A call, a column with its source, or a plain name.
    #[tactic(auto, unfolding(crate::specs::Expressions::named))]
    fn named<'a>(
        &self,
        name: &Chars,
        symbols: &'a [Symbol],
    ) -> Result<(Expr, &'a [Symbol]), ReadError>
        requires { Nests self.now.room (F.pre self.now.reader) (F.post self.now.reader) }
        ensures { Gives with_rest result (read.named (read.within self.now.room) name.now symbols.now) }
    {
        if let Some(rest) = after_sign(Mark::Open, symbols) {
            return self.call(name, rest);
        }
        if let Some(rest) = after_sign(Mark::Dot, symbols) {
            return qualified(self.alloc, name, rest);
        }
        Ok((node::name(self.alloc, name)?, symbols))
    }

    #[tactic(auto, unfolding(crate::specs::Expressions::primary))]
    fn primary<'a>(&self, symbols: &'a [Symbol]) -> Result<(Expr, &'a [Symbol]), ReadError>
        requires { Nests self.now.room (F.pre self.now.reader) (F.post self.now.reader) }
        ensures { Gives with_rest result (read.primary (read.within self.now.room) symbols.now) }
    {
        match symbols {
            [Symbol::Key(key), rest @ ..] => self.keyed(*key, rest),
            [Symbol::Word(name), rest @ ..] => self.named(name, rest),
            [Symbol::Quoted(name), rest @ ..] => self.named(name, rest),
            [Symbol::Text(content), rest @ ..] => Ok((node::text(self.alloc, content)?, rest)),
            [Symbol::Number(number), rest @ ..] => Ok((Expr::Digits(*number), rest)),
            [Symbol::Sign(Mark::Open), rest @ ..] => self.parenthesized(rest),
            _ => Err(ReadError::Unspelled),
        }
    }

    /// A primary after any number of signs.
    #[tactic(auto, unfolding(crate::specs::Expressions::unary, crate::specs::Expressions::prefixed))]
    fn unary<'a>(&self, symbols: &'a [Symbol]) -> Result<(Expr, &'a [Symbol]), ReadError>
        requires { Nests self.now.room (F.pre self.now.reader) (F.post self.now.reader) }
        ensures { Gives with_rest result (read.unary (read.within self.now.room) symbols.now) }
    {
        let count = sign_count(symbols);
        let (arg, rest) = self.primary(&symbols[count..])?;
        Ok((after_all(self.alloc, &symbols[..count], arg)?, rest))
    }

    /// Operands of a level with operators between them, left-associative.
    fn chain<
        'a,
        O: for<'n, 'b> Fn(&'n Self, &'b [Symbol]) -> Result<(Expr, &'b [Symbol]), ReadError>,
    >(
        &self,
        level: Level,
        operand: O,
        symbols: &'a [Symbol],
    ) -> Result<(Expr, &'a [Symbol]), ReadError>
        requires { ReadsAs (read.operand_of (read.within self.now.room) level) (O.pre operand self) (O.post operand self) }
        ensures { Gives with_rest result (read.chain (read.operator_at level) (read.operand_of (read.within self.now.room) level) symbols.now) }
    {
        let (mut left, mut rest) = operand(self, symbols)?;
        while let Some((op, after)) = after_operator(level, rest) {
            let boxed = Boxed::of(self.alloc, left)?;
            let (right, behind) = operand(self, after)?;
            left = node::binary(self.alloc, op, boxed, right)?;
            rest = behind;
        }
        Ok((left, rest))
    }

    #[tactic(auto, unfolding(crate::specs::Expressions::product))]
    fn product<'a>(&self, symbols: &'a [Symbol]) -> Result<(Expr, &'a [Symbol]), ReadError>
        requires { Nests self.now.room (F.pre self.now.reader) (F.post self.now.reader) }
        ensures { Gives with_rest result (read.product (read.within self.now.room) symbols.now) }
    {
        self.chain(Level::Prod, Self::unary, symbols)
    }

    #[tactic(auto, unfolding(crate::specs::Expressions::sum))]
    fn sum<'a>(&self, symbols: &'a [Symbol]) -> Result<(Expr, &'a [Symbol]), ReadError>
        requires { Nests self.now.room (F.pre self.now.reader) (F.post self.now.reader) }
        ensures { Gives with_rest result (read.sum (read.within self.now.room) symbols.now) }
    {
        self.chain(Level::Sum, Self::product, symbols)
    }

    /// A sum, put on the heap.
    fn boxed_sum<'a>(&self, symbols: &'a [Symbol]) -> Result<(Boxed<Expr>, &'a [Symbol]), ReadError>
        requires { Nests self.now.room (F.pre self.now.reader) (F.post self.now.reader) }
        ensures { Gives with_rest result (read.sum (read.within self.now.room) symbols.now) }
    {
        let (sum, rest) = self.sum(symbols)?;
        Ok((Boxed::of(self.alloc, sum)?, rest))
    }

    #[tactic(auto, unfolding(crate::specs::Expressions::between))]
    fn between<'a>(
        &self,
        negated: bool,
        arg: Expr,
        symbols: &'a [Symbol],
    ) -> Result<(Expr, &'a [Symbol]), ReadError>
        requires { Nests self.now.room (F.pre self.now.reader) (F.post self.now.reader) }
        ensures { Gives with_rest result (read.between (read.within self.now.room) negated arg symbols.now) }
    {
        let arg = Boxed::of(self.alloc, arg)?;
        let (low, rest) = self.boxed_sum(symbols)?;
        let rest = after_key(Keyword::And, rest).ok_or(ReadError::Unspelled)?;
        let (high, rest) = self.boxed_sum(rest)?;
        Ok((node::between(negated, arg, low, high), rest))
    }

    #[tactic(auto, unfolding(crate::specs::Expressions::one_of))]
    fn one_of<'a>(
        &self,
        negated: bool,
        arg: Expr,
        symbols: &'a [Symbol],
    ) -> Result<(Expr, &'a [Symbol]), ReadError>
        requires { Nests self.now.room (F.pre self.now.reader) (F.post self.now.reader) }
        ensures { Gives with_rest result (read.one_of (read.within self.now.room) negated arg symbols.now) }
    {
        let arg = Boxed::of(self.alloc, arg)?;
        let rest = after_sign(Mark::Open, symbols).ok_or(ReadError::Unspelled)?;
        let (choices, rest) = self.expressions(rest)?;
        let rest = after_sign(Mark::Close, rest).ok_or(ReadError::Unspelled)?;
        Ok((node::one_of(negated, arg, choices), rest))
    }

    /// BETWEEN, IN or LIKE, or nothing unless NOT was read before.
    fn ranged<'a>(
        &self,
        negated: bool,
        arg: Expr,
        symbols: &'a [Symbol],
    ) -> Result<(Expr, &'a [Symbol]), ReadError>
        requires { Nests self.now.room (F.pre self.now.reader) (F.post self.now.reader) }
        ensures { Gives with_rest result (read.ranged (read.within self.now.room) negated arg symbols.now) }
    {
        match symbols {
            [Symbol::Key(Keyword::Between), rest @ ..] => self.between(negated, arg, rest),
            [Symbol::Key(Keyword::In), rest @ ..] => self.one_of(negated, arg, rest),
            [Symbol::Key(Keyword::Like), rest @ ..] => like(self.alloc, negated, arg, rest),
            _ if negated => {
                drop(arg);
                Err(ReadError::Unspelled)
            }
            _ => Ok((arg, symbols)),
        }
    }

    #[tactic(auto, unfolding(crate::specs::Expressions::compared))]
    fn compared<'a>(
        &self,
        left: Expr,
        op: BinaryOp,
        symbols: &'a [Symbol],
    ) -> Result<(Expr, &'a [Symbol]), ReadError>
        requires { Nests self.now.room (F.pre self.now.reader) (F.post self.now.reader) }
        ensures { Gives with_rest result (read.compared (read.within self.now.room) left op symbols.now) }
    {
        let left = Boxed::of(self.alloc, left)?;
        let (right, rest) = self.sum(symbols)?;
        Ok((node::binary(self.alloc, op, left, right)?, rest))
    }

    /// Reads what follows a sum: a comparison, IS, BETWEEN, IN or LIKE, or nothing.
    #[tactic(auto, unfolding(crate::specs::Expressions::tested))]
    fn tested<'a>(
        &self,
        arg: Expr,
        symbols: &'a [Symbol],
    ) -> Result<(Expr, &'a [Symbol]), ReadError>
        requires { Nests self.now.room (F.pre self.now.reader) (F.post self.now.reader) }
        ensures { Gives with_rest result (read.tested (read.within self.now.room) arg symbols.now) }
    {
        if let Some((op, rest)) = after_comparison(symbols) {
            return self.compared(arg, op, rest);
        }
        if let Some(rest) = after_key(Keyword::Is, symbols) {
            return is_null(self.alloc, arg, rest);
        }
        let (negated, rest) = negation(symbols);
        self.ranged(negated, arg, rest)
    }

    /// A sum, or a test of it.
    #[tactic(auto, unfolding(crate::specs::Expressions::predicate))]
    fn predicate<'a>(&self, symbols: &'a [Symbol]) -> Result<(Expr, &'a [Symbol]), ReadError>
        requires { Nests self.now.room (F.pre self.now.reader) (F.post self.now.reader) }
        ensures { Gives with_rest result (read.predicate (read.within self.now.room) symbols.now) }
    {
        let (arg, rest) = self.sum(symbols)?;
        self.tested(arg, rest)
    }

    /// A predicate after any number of NOT.
    #[tactic(auto, unfolding(crate::specs::Expressions::negations, crate::specs::Expressions::prefixed))]
    fn negations<'a>(&self, symbols: &'a [Symbol]) -> Result<(Expr, &'a [Symbol]), ReadError>
        requires { Nests self.now.room (F.pre self.now.reader) (F.post self.now.reader) }
        ensures { Gives with_rest result (read.negations (read.within self.now.room) symbols.now) }
    {
        let count = not_count(symbols);
        let (arg, rest) = self.predicate(&symbols[count..])?;
        Ok((after_all(self.alloc, &symbols[..count], arg)?, rest))
    }

    #[tactic(auto, unfolding(crate::specs::Expressions::conjunction))]
    fn conjunction<'a>(&self, symbols: &'a [Symbol]) -> Result<(Expr, &'a [Symbol]), ReadError>
        requires { Nests self.now.room (F.pre self.now.reader) (F.post self.now.reader) }
        ensures { Gives with_rest result (read.conjunction (read.within self.now.room) symbols.now) }
    {
        self.chain(Level::Conj, Self::negations, symbols)
    }

    #[tactic(auto, unfolding(crate::specs::Expressions::disjunction))]
    fn disjunction<'a>(&self, symbols: &'a [Symbol]) -> Result<(Expr, &'a [Symbol]), ReadError>
        requires { Nests self.now.room (F.pre self.now.reader) (F.post self.now.reader) }
        ensures { Gives with_rest result (read.disjunction (read.within self.now.room) symbols.now) }
    {
        self.chain(Level::Expr, Self::conjunction, symbols)
    }
}

/// An expression in which others nest at most `room` levels deep.
#[tactic(auto, unfolding(crate::specs::Expressions::within))]
fn expression(
    alloc: Global,
    room: usize,
    symbols: &[Symbol],
) -> Result<(Expr, &[Symbol]), ReadError>
    ensures { Gives with_rest result (read.within room symbols.now) }
{
    if room == 0 {
        return Err(ReadError::Unspelled);
    }
    let nested = Nested {
        alloc,
        room: room - 1,
        reader: expression,
    };
    nested.disjunction(symbols)
}

/// The longest expression at the start of the symbols, and the symbols after it.
pub fn read_expression(alloc: Global, symbols: &[Symbol]) -> Result<(Expr, &[Symbol]), ReadError>
    ensures found { IfOk result (λ x. Spells (at expr x.0) symbols.now x.1.now) }
    ensures only { (e : Tree) (rest : List OneSymbol) → Spells (at expr e) symbols.now rest → EndsExpr rest
        → Gives with_rest result (Some (e, rest)) }
{
    expression(alloc, symbols.len() + 1, symbols)
}

/// The longest list of one or more expressions, separated by commas, at the start of the symbols, and the symbols after
/// it.
pub fn read_expressions(
    alloc: Global,
    symbols: &[Symbol],
) -> Result<(ExprTexts, &[Symbol]), ReadError>
    ensures found { IfOk result (λ x. Spells (exprs x.0) symbols.now x.1.now) }
    ensures only { (es : List Tree) (rest : List OneSymbol) → Spells (exprs es) symbols.now rest → EndsExprs rest
        → Gives with_rest result (Some (es, rest)) }
{
    let nested = Nested {
        alloc,
        room: symbols.len() + 1,
        reader: expression,
    };
    let (exprs, rest) = nested.expressions(symbols)?;
    Ok((Items::of(exprs), rest))
}

/// Symbols begin with at most one longest expression, and at most one longest list of expressions.
pub fn one_expression()
    ensures one { (ts us vs : List OneSymbol) (a b : Tree) → Spells (at expr a) ts us → Spells (at expr b) ts vs
        → EndsExpr us → EndsExpr vs → (a ≡ b) × (us ≡ vs) }
    ensures list { (ts us vs : List OneSymbol) (ds es : List Tree) → Spells (exprs ds) ts us → Spells (exprs es) ts vs
        → EndsExprs us → EndsExprs vs → (ds ≡ es) × (us ≡ vs) }
{}
