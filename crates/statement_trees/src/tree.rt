use expression_trees::{Expr, ExprTexts};
use ksql_types::{Chars, Items, SqlType};

/// A statement: the name of the relation it creates, whether that is a table (or else a stream), and its body.
#[derive(Drop)]
pub struct Statement {
    pub table: bool,
    pub name: Chars,
    pub body: StatementBody,
}

/// What follows the name of a statement. Empty `props` mean that WITH is left out.
#[derive(Drop)]
pub enum StatementBody {
    Declared {
        columns: ColumnTexts,
        props: Properties,
    },
    Query {
        props: Properties,
        select: Select,
    },
}

/// A column of a declaration.
#[derive(Debug, Drop)]
pub struct ColumnText {
    pub name: Chars,
    pub ty: SqlType,
    pub mark: KeyMark,
}

pub type ColumnTexts = Items<ColumnText>;

/// Whether a column has KEY, PRIMARY KEY or neither.
#[derive(Clone, Copy, Debug, PartialEq, Eq)]
pub enum KeyMark {
    Plain,
    Key,
    PrimaryKey,
}

/// A property of a WITH clause.
#[derive(Debug, Drop)]
pub struct Property {
    pub name: Chars,
    pub value: PropertyValue,
}

pub type Properties = Items<Property>;

#[derive(Debug, Drop)]
pub enum PropertyValue {
    Text(Chars),
    Digits(u64),
}

/// A query. An empty `group` means that GROUP BY is left out. EMIT CHANGES leaves no trace here.
#[derive(Drop)]
pub struct Select {
    pub items: SelectItems,
    pub source: Source,
    pub join: Option<JoinText>,
    pub window: Option<WindowText>,
    pub filter: Option<Expr>,
    pub group: ExprTexts,
    pub partition: Option<Expr>,
    pub having: Option<Expr>,
}

/// An item of a query: `*`, all columns of a source, or an expression and its alias.
#[derive(Drop)]
pub enum SelectItem {
    Star,
    StarOf(Chars),
    One { expr: Expr, alias: Option<Chars> },
}

pub type SelectItems = Items<SelectItem>;

/// A relation that a query reads, and its alias.
#[derive(Debug, Drop)]
pub struct Source {
    pub name: Chars,
    pub alias: Option<Chars>,
}

/// A join with another source.
#[derive(Drop)]
pub struct JoinText {
    pub kind: JoinWord,
    pub source: Source,
    pub on: Expr,
}

/// How a join is written; JOIN alone is `Inner`.
#[derive(Clone, Copy, Debug, PartialEq, Eq)]
pub enum JoinWord {
    Inner,
    Left,
    Full,
}

/// A window of a query.
#[derive(Clone, Copy, Debug, PartialEq, Eq)]
pub enum WindowText {
    Tumbling {
        size: SpanText,
        retention: Option<SpanText>,
        grace: Option<SpanText>,
    },
    Hopping {
        size: SpanText,
        advance: SpanText,
        retention: Option<SpanText>,
        grace: Option<SpanText>,
    },
}

/// A span of time as written.
#[derive(Clone, Copy, Debug, PartialEq, Eq)]
pub struct SpanText {
    pub digits: u64,
    pub unit: Unit,
}

#[derive(Clone, Copy, Debug, PartialEq, Eq)]
pub enum Unit {
    Day,
    Hour,
    Minute,
    Second,
    Millisecond,
}
