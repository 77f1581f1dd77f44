//! Laws of typed trees. The function does nothing.
ghost use Rattle.std.specs.Prelude.{◌≡◌, ◌↔◌, true};
ghost use Rattle.ksql_expr.specs.declared.typed.Typed.{Typed as Tree};
ghost use Rattle.ksql_expr.specs.declared.typed.TypedNode.{TypedNode as Form};
ghost use Rattle.grouped_expressions.specs.Same.{same_form, same_tree};

/// Two forms are the same exactly if they are equal, and so are two trees.
pub fn sameness_is_equality()
    ensures forms { (a b : Form) → (same_form a b ≡ true) ↔ (a ≡ b) }
    ensures trees { (a b : Tree) → (same_tree a b ≡ true) ↔ (a ≡ b) }
{}
