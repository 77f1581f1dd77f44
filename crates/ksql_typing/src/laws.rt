//! Laws of types and typed trees. These functions do nothing.

ghost use Rattle.std.specs.Prelude.{◌≡◌, ◌↔◌, false, IsTrue, Option, Some};
ghost use Rattle.ksql_types.specs.declared.value.SqlType.{SqlType as OneType};
ghost use Rattle.expression_trees.specs.declared.tree.Expr.{Expr as OneExpr};
ghost use Rattle.ksql_expr.specs.declared.typed.Typed.{Typed as OneTyped};
ghost use Rattle.ksql_expr.specs.Typing.{IsTyped};
ghost use Rattle.ksql_scopes.specs.declared.scope.Scope.{Scope as OneScope};
ghost use Rattle.ksql_type_sets.specs.Decisions as decided;
ghost use Rattle.ksql_type_sets.specs.Sets.{has, is_some_in};
ghost use Rattle.ksql_scopes.specs.Scope.{column_types};
ghost use Rattle.ksql_scopes.specs.Uses.{has_unknown_function};
ghost use Rattle.ksql_typing.specs.Judged.{judged};
ghost use Rattle.ksql_typing.specs.Standing.{HasType, HasSomeType, HasValue, CanBeTrue, CanAgree, IsTypedTree};
ghost use Rattle.ksql_typing.specs.Typed.{AreNamesClear};

/// The findings about an expression are exact: its types are those that it can have, and its tree is its only typed
/// tree. If all its functions are known, it has a tree of each of its types. The tree's type is one of the expression's
/// types, its functions are known, it and its parts have their types on a row of the scope, and the names of an
/// expression with a type are unambiguous.
pub fn types_are_decided()
    ensures types { (s : OneScope) (a : OneExpr) (t : Option OneType) → IsTrue (has (judged a s).types t) ↔ HasType s a t }
    ensures tree { (s : OneScope) (a : OneExpr) (x : OneTyped) → ((judged a s).tree ≡ Some x) ↔ IsTypedTree s a x }
    ensures one_tree { (s : OneScope) (a : OneExpr) (x y : OneTyped) → IsTypedTree s a x → IsTypedTree s a y → x ≡ y }
    ensures accepted { (s : OneScope) (a : OneExpr) (t : Option OneType) → has_unknown_function a ≡ false → HasType s a t
        → (x : OneTyped) × IsTypedTree s a x × (x.ty ≡ t) }
    ensures tree_type { (s : OneScope) (a : OneExpr) (x : OneTyped) → IsTypedTree s a x → HasType s a x.ty }
    ensures known { (s : OneScope) (a : OneExpr) (x : OneTyped) → IsTypedTree s a x → has_unknown_function a ≡ false }
    ensures checked { (s : OneScope) (a : OneExpr) (x : OneTyped) → IsTypedTree s a x → IsTyped (column_types s) x }
    ensures clear { (s : OneScope) (a : OneExpr) (t : Option OneType) → HasType s a t → AreNamesClear s a }
{}

/// What sets of types decide holds of the expressions.
pub fn types_decide()
    ensures some_type { (s : OneScope) (a : OneExpr) → IsTrue (is_some_in (judged a s).types) ↔ HasSomeType s a }
    ensures value { (s : OneScope) (a : OneExpr) → IsTrue (decided.has_value (judged a s).types) ↔ HasValue s a }
    ensures truth { (s : OneScope) (a : OneExpr) → IsTrue (decided.can_be_true (judged a s).types) ↔ CanBeTrue s a }
    ensures agreement { (s : OneScope) (a b : OneExpr)
        → IsTrue (decided.can_agree (judged a s).types (judged b s).types) ↔ CanAgree s (a, b) }
{}
