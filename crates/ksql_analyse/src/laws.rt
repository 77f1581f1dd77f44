//! Laws of the judgement. These functions do nothing.
ghost use Rattle.std.specs.Prelude.{◌≡◌, ◌⊎◌, List, ℕ};
ghost use Rattle.statement_trees.specs.declared.tree.Statement.{Statement as OneStatement};
ghost use Rattle.ksql_program.specs.declared.program.Item.{Item as OneItem};
ghost use Rattle.ksql_types.specs.declared.code.Code.{Code as OneCode};
ghost use Rattle.ksql_analyse.specs.Judgement.{AreParsed, AreRefused, IsProgramOf};

/// Statements have at most one program or one refusal, and not both.
pub fn one_judgement()
    ensures program { (statements : List OneStatement) (a b : List OneItem) → IsProgramOf statements a → IsProgramOf statements b
        → a ≡ b }
    ensures refusal { (statements : List OneStatement) (m n : ℕ) (c d : OneCode) → AreRefused statements m c → AreRefused statements n d
        → (m ≡ n) × (c ≡ d) }
    ensures not_both { (statements : List OneStatement) (items : List OneItem) (number : ℕ) (code : OneCode) → IsProgramOf statements items
        → AreRefused statements number code → ⊥ }
{}

/// Statements that the grammar accepts have a program or a refusal.
pub fn some_judgement()
    ensures { (statements : List OneStatement) → AreParsed statements
        → ((items : List OneItem) × IsProgramOf statements items) ⊎ ((number : ℕ) × (code : OneCode) × AreRefused statements number code) }
{}
