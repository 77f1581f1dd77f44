//! Laws of expressions. These functions do nothing.
ghost use Rattle.std.specs.Prelude.{◌≡◌, ◌↔◌, true};
ghost use Rattle.expression_trees.specs.declared.tree.Expr.{Expr as Tree};
ghost use Rattle.expression_trees.specs.Same.{same_expr};

/// Two expressions are the same exactly if they are equal.
pub fn sameness_is_equality()
    ensures { (a b : Tree) → (same_expr a b ≡ true) ↔ (a ≡ b) }
{}
