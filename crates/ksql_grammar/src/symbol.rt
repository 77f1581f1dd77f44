ghost use Rattle.std.specs.Prelude.{◌≡◌};
ghost use Rattle.std.specs.Option.{option_copied};
ghost use Rattle.ksql_grammar.specs.Symbols as spec;
ghost use Rattle.ksql_grammar.specs.Expressions as read;

use crate::word;
use ksql_lexer::Mark;
use ksql_types::{BinaryOp, Chars, SqlType};

/// A reserved word, which can't be a name.
#[derive(Clone, Copy, Debug, PartialEq, Eq)]
pub enum Keyword {
    Create,
    Stream,
    Table,
    As,
    Select,
    From,
    Where,
    Group,
    By,
    Having,
    Partition,
    Window,
    Join,
    Inner,
    Left,
    Right,
    Full,
    Outer,
    On,
    With,
    And,
    Or,
    Not,
    Null,
    Is,
    In,
    Like,
    Between,
    Case,
    When,
    Then,
    Else,
    End,
    Cast,
    True,
    False,
    Emit,
    Limit,
    Within,
}

/// A token as the grammar sees it.
#[derive(Debug, Drop)]
pub enum Symbol {
    /// A reserved word.
    Key(Keyword),
    /// Any other word, in upper case. It can be a name; the grammar also reads some of these words, as `KEY` or `SIZE`,
    /// in particular places.
    Word(Chars),
    /// The name between two backquotes.
    Quoted(Chars),
    /// The content of a text.
    Text(Chars),
    /// The number that the digits spell.
    Number(u64),
    /// A sign.
    Sign(Mark),
}

/// The symbols after this reserved word, if it comes first.
#[tactic(auto, unfolding(crate::specs::Expressions::after_key))]
pub fn after_key(key: Keyword, symbols: &[Symbol]) -> Option<&[Symbol]>
    ensures { option_copied result ≡ read.after_key key symbols.now }
{
    match symbols {
        [Symbol::Key(found), rest @ ..] if *found == key => Some(rest),
        _ => None,
    }
}

/// The symbols after this sign, if it comes first.
#[tactic(auto, unfolding(crate::specs::Expressions::after_sign))]
pub fn after_sign(sign: Mark, symbols: &[Symbol]) -> Option<&[Symbol]>
    ensures { option_copied result ≡ read.after_sign sign symbols.now }
{
    match symbols {
        [Symbol::Sign(found), rest @ ..] if *found == sign => Some(rest),
        _ => None,
    }
}

/// The name that a symbol spells, if any.
pub fn name_of(symbol: &Symbol) -> Option<&Chars>
    ensures { option_copied result ≡ spec.name_of symbol.now }
{
    match symbol {
        Symbol::Word(name) | Symbol::Quoted(name) => Some(name),
        _ => None,
    }
}

/// The type that a symbol names, if any.
pub fn type_of(symbol: &Symbol) -> Option<SqlType>
    ensures { result ≡ spec.type_of symbol.now }
{
    match symbol {
        Symbol::Word(name) => word::type_of(name.items()),
        _ => None,
    }
}

/// The comparison operator of a symbol, if any.
pub fn comparison_of(symbol: &Symbol) -> Option<BinaryOp>
    ensures { result ≡ spec.comparison_of symbol.now }
{
    match symbol {
        Symbol::Sign(Mark::Equal) => Some(BinaryOp::Eq),
        Symbol::Sign(Mark::NotEqual) => Some(BinaryOp::Ne),
        Symbol::Sign(Mark::Less) => Some(BinaryOp::Lt),
        Symbol::Sign(Mark::LessEqual) => Some(BinaryOp::Le),
        Symbol::Sign(Mark::Greater) => Some(BinaryOp::Gt),
        Symbol::Sign(Mark::GreaterEqual) => Some(BinaryOp::Ge),
        _ => None,
    }
}

/// The operator of a sum that a symbol stands for, if any.
pub fn sum_of(symbol: &Symbol) -> Option<BinaryOp>
    ensures { result ≡ spec.sum_of symbol.now }
{
    match symbol {
        Symbol::Sign(Mark::Plus) => Some(BinaryOp::Add),
        Symbol::Sign(Mark::Minus) => Some(BinaryOp::Sub),
        Symbol::Sign(Mark::Concat) => Some(BinaryOp::Concat),
        _ => None,
    }
}

/// The operator of a product that a symbol stands for, if any.
pub fn product_of(symbol: &Symbol) -> Option<BinaryOp>
    ensures { result ≡ spec.product_of symbol.now }
{
    match symbol {
        Symbol::Sign(Mark::Star) => Some(BinaryOp::Mul),
        Symbol::Sign(Mark::Slash) => Some(BinaryOp::Div),
        Symbol::Sign(Mark::Percent) => Some(BinaryOp::Rem),
        _ => None,
    }
}

/// `Or` for the symbol OR.
pub fn or_of(symbol: &Symbol) -> Option<BinaryOp>
    ensures { result ≡ spec.or_of symbol.now }
{
    match symbol {
        Symbol::Key(Keyword::Or) => Some(BinaryOp::Or),
        _ => None,
    }
}

/// `And` for the symbol AND.
pub fn and_of(symbol: &Symbol) -> Option<BinaryOp>
    ensures { result ≡ spec.and_of symbol.now }
{
    match symbol {
        Symbol::Key(Keyword::And) => Some(BinaryOp::And),
        _ => None,
    }
}

/// Whether a symbol is NOT.
pub fn is_not(symbol: &Symbol) -> bool
    ensures { result ≡ read.is_not symbol.now }
{
    matches!(symbol, Symbol::Key(Keyword::Not))
}

/// Whether a symbol can be the sign of a number.
pub fn is_sign(symbol: &Symbol) -> bool
    ensures { result ≡ read.is_sign symbol.now }
{
    matches!(symbol, Symbol::Sign(Mark::Minus) | Symbol::Sign(Mark::Plus))
}
