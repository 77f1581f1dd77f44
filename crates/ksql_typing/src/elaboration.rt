//! The typed tree of an expression.

ghost use Rattle.std.specs.Prelude.{◌≡◌, ◌≤◌, ◌-◌, ◌^◌, ◌⊎◌, length, IfOk, IfErr};
ghost use Rattle.ksql_expr.specs.declared.typed.Typed.{Typed as OneTyped};
ghost use Rattle.ksql_scopes.specs.Uses.{IsSmall};
ghost use Rattle.ksql_typing.specs.declared.fault.TypeFault.{TypeFault as OneFault};
ghost use Rattle.ksql_typing.specs.Judged as spec;
ghost use Rattle.ksql_typing.specs.Standing.{IsTypedTree};
ghost use Rattle.ksql_typing.specs.Typed.{HasFault, Answers};

use crate::fault::TypeFault;
use crate::judge::judge;
use crate::judged::Judged;
use expression_trees::Expr;
use ksql_expr::Typed;
use ksql_scopes::Scope;
use ksql_type_sets::{Types, has_some_type};
use std::alloc::Global;

fn refusal(types: Types, unknown: bool, ambiguous: bool) -> TypeFault
    ensures { result ≡ spec.refusal types unknown ambiguous }
{
    if unknown {
        return TypeFault::UnknownColumn;
    }
    if ambiguous {
        return TypeFault::AmbiguousColumn;
    }
    if has_some_type(types) {
        return TypeFault::Unsupported;
    }
    TypeFault::TypeMismatch
}

/// The tree in the findings, or the first fault that applies.
fn answer(judged: Judged) -> Result<Typed, TypeFault>
    ensures { result ≡ spec.answer judged }
{
    let fault = refusal(judged.types, judged.unknown, judged.ambiguous);
    match judged.tree {
        Some(tree) => Ok(tree.into_inner()),
        None => Err(fault),
    }
}

/// The typed tree of an expression in a scope, or the first fault that applies: a name stands for nothing, a name
/// stands for two columns, there is no type whatever the unknown functions return, or a function is unknown. The
/// expression's digits are at most 9223372036854775807, its texts have at most 65,536 bytes, and the scope has at most
/// 2^32 - 2 columns. `OutOfMemory` says nothing about the expression.
pub fn typed(alloc: Global, expr: &Expr, scope: &Scope) -> Result<Typed, TypeFault>
    requires small { IsSmall expr.now }
    requires columns { length scope.now.columns ≤ 2 ^ 32 - 2 }
    ensures found { IfOk result (λ tree. IsTypedTree scope.now expr.now tree) }
    ensures fault { IfErr result (λ f. (f ≡ TypeFault.OutOfMemory) ⊎ HasFault scope.now expr.now f) }
    ensures only { (tree : OneTyped) → IsTypedTree scope.now expr.now tree → Answers result (Ok tree) }
    ensures refused { (f : OneFault) → HasFault scope.now expr.now f → Answers result (Err f) }
{
    let judged = judge(alloc, scope, scope.windowed, expr)?;
    answer(judged)
}
