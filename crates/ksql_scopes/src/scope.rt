use ksql_types::{Chars, Column, CopyOf, Items};
use std::alloc::{AllocError, Global};

/// What names can stand for: the columns of a row; where `stream` is true the row's time ROWTIME, which the alias of
/// the first column may qualify; and where `windowed` is true WINDOWSTART and WINDOWEND, the two columns after those of
/// `columns`, outside aggregates.
#[derive(Debug, Drop)]
pub struct Scope {
    pub columns: ScopeColumns,
    pub stream: bool,
    pub windowed: bool,
}

/// A column, and the alias of its relation if it belongs to one.
#[derive(Debug, Drop)]
pub struct ScopeColumn {
    pub alias: Option<Chars>,
    pub column: Column,
}

/// The columns in the order of a row.
pub type ScopeColumns = Items<ScopeColumn>;

impl CopyOf for Scope {
    fn copy(&self, alloc: Global) -> Result<Scope, AllocError> {
        Ok(Scope {
            columns: self.columns.copy(alloc)?,
            stream: self.stream,
            windowed: self.windowed,
        })
    }
}

impl CopyOf for ScopeColumn {
    fn copy(&self, alloc: Global) -> Result<ScopeColumn, AllocError> {
        Ok(ScopeColumn {
            alias: self.alias.copy(alloc)?,
            column: self.column.copy(alloc)?,
        })
    }
}
