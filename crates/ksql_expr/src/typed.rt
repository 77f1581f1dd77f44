use ksql_types::{BinaryOp, Boxed as Box, Chars, Items, SqlType, Value};

/// An expression with its type. `ty` is None exactly if the expression has only the type of NULL.
#[cycle(typed)]
#[derive(Debug, Drop)]
pub struct Typed {
    pub ty: Option<SqlType>,
    pub node: TypedNode,
}

/// The form of an expression. A column is an index into a row.
#[cycle(typed)]
#[derive(Debug, Drop)]
pub enum TypedNode {
    Literal(Value),
    Column(u32),
    /// The row's time.
    RowTime,
    /// `-` if `minus` is true, else `+`.
    Sign {
        minus: bool,
        arg: Box<Typed>,
    },
    Binary {
        op: BinaryOp,
        left: Box<Typed>,
        right: Box<Typed>,
    },
    Not(Box<Typed>),
    IsNull {
        negated: bool,
        arg: Box<Typed>,
    },
    Between {
        negated: bool,
        arg: Box<Typed>,
        low: Box<Typed>,
        high: Box<Typed>,
    },
    /// IN.
    OneOf {
        negated: bool,
        arg: Box<Typed>,
        choices: Exprs,
    },
    Like {
        negated: bool,
        arg: Box<Typed>,
        pattern: Chars,
    },
    Cast {
        arg: Box<Typed>,
        to: SqlType,
    },
    Case {
        arg: Option<Box<Typed>>,
        whens: TypedWhens,
        otherwise: Option<Box<Typed>>,
    },
    Call {
        fun: Fun,
        args: Exprs,
    },
    /// `arg` is None exactly for `CountAll`.
    Aggregate {
        fun: AggFun,
        arg: Option<Box<Typed>>,
    },
}

/// Expressions, in order.
pub type Exprs = Items<Typed>;

/// The WHEN and THEN of a CASE.
#[cycle(typed)]
#[derive(Debug, Drop)]
pub struct TypedWhen {
    pub cond: Typed,
    pub result: Typed,
}

/// The WHENs of a CASE, in order.
pub type TypedWhens = Items<TypedWhen>;

/// A scalar function.
#[derive(Clone, Copy, Debug, PartialEq, Eq)]
pub enum Fun {
    Abs,
    Len,
    Concat,
    Substring,
    Trim,
    Ucase,
    Lcase,
    Coalesce,
    IfNull,
    NullIf,
}

/// An aggregate function. `CountAll` is COUNT(*); `Latest` and `Earliest` are LATEST_BY_OFFSET and EARLIEST_BY_OFFSET.
#[derive(Clone, Copy, Debug, PartialEq, Eq)]
pub enum AggFun {
    CountAll,
    Count,
    Sum,
    Min,
    Max,
    Latest,
    Earliest,
}
