use ksql_types::Value;

/// A row as an expression sees it, borrowed: the cells of its key, then its own; and its time in milliseconds.
#[derive(Clone, Copy)]
pub struct RowView<'a> {
    pub key: &'a [Value],
    pub row: &'a [Value],
    pub time: u64,
}
