use ksql_types::{BinaryOp, Boxed as Box, Chars, CopyOf, Items, SqlType};
use std::alloc::{AllocError, Global};

/// An expression. Parentheses leave no node.
#[cycle(expr)]
#[derive(Drop)]
pub enum Expr {
    Digits(u64),
    Text(Chars),
    Truth(bool),
    Null,
    /// A column, and the source written before it, if any.
    Name {
        qualifier: Option<Chars>,
        name: Chars,
    },
    /// `-` if `minus` is true, else `+`.
    Sign {
        minus: bool,
        arg: Box<Expr>,
    },
    Binary {
        op: BinaryOp,
        left: Box<Expr>,
        right: Box<Expr>,
    },
    Not(Box<Expr>),
    IsNull {
        negated: bool,
        arg: Box<Expr>,
    },
    Between {
        negated: bool,
        arg: Box<Expr>,
        low: Box<Expr>,
        high: Box<Expr>,
    },
    /// IN.
    OneOf {
        negated: bool,
        arg: Box<Expr>,
        choices: ExprTexts,
    },
    Like {
        negated: bool,
        arg: Box<Expr>,
        pattern: Chars,
    },
    Cast {
        arg: Box<Expr>,
        to: SqlType,
    },
    Case {
        arg: Option<Box<Expr>>,
        whens: WhenTexts,
        otherwise: Option<Box<Expr>>,
    },
    /// A call. `star` is true if `*` is the only argument; `args` is then empty.
    Call {
        name: Chars,
        star: bool,
        args: ExprTexts,
    },
}

pub type ExprTexts = Items<Expr>;

/// The WHEN and THEN of a CASE.
#[cycle(expr)]
#[derive(Drop)]
pub struct WhenText {
    pub cond: Expr,
    pub result: Expr,
}

pub type WhenTexts = Items<WhenText>;
