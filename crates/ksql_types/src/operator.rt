/// An operator between two expressions: `OR`, `AND`, `=`, `<>`, `<`, `<=`, `>`, `>=`, `+`, `-`, `||`, `*`, `/`, `%`.
#[derive(Clone, Copy, Debug, PartialEq, Eq)]
pub enum BinaryOp {
    Or,
    And,
    Eq,
    Ne,
    Lt,
    Le,
    Gt,
    Ge,
    Add,
    Sub,
    Concat,
    Mul,
    Div,
    Rem,
}
