//! Copies of expressions, as replacements that replace nothing.

use crate::replacing::{Replaces, becomes, when_becomes};
use crate::tree::{Expr, WhenText};
use ksql_types::CopyOf;
use std::alloc::{AllocError, Global};

/// Replaces nothing.
struct Nothing;

impl Replaces for Nothing {
    ghost use Rattle.std.specs.Prelude.{None};

    ghost decide = { λ _ _. None };

    fn replacement(&self, _alloc: Global, _expr: &Expr) -> Result<Option<Expr>, AllocError> {
        Ok(None)
    }
}

impl CopyOf for Expr {
    fn copy(&self, alloc: Global) -> Result<Expr, AllocError> {
        becomes(alloc, &Nothing, self)
    }
}

impl CopyOf for WhenText {
    fn copy(&self, alloc: Global) -> Result<WhenText, AllocError> {
        when_becomes(alloc, &Nothing, self)
    }
}
