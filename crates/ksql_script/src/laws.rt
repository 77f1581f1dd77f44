//! Laws of scripts. These functions do nothing.

ghost use Rattle.std.specs.Prelude.{◌≡◌, ◌⊎◌, List, ℕ};
ghost use Rattle.ksql_types.specs.declared.code.Code.{Code as OneCode};
ghost use Rattle.ksql_program.specs.declared.program.Program.{Program as OneProgram};
ghost use Rattle.ksql_script.specs.Script.{IsAccepted, IsRefused};

/// A script has either one program or one refusal, and not both.
pub fn one_script()
    ensures program { (script : List ℕ) (a b : OneProgram) → IsAccepted script a → IsAccepted script b → a ≡ b }
    ensures refusal { (script : List ℕ) (s t : ℕ) (c d : OneCode) → IsRefused script s c → IsRefused script t d → (s ≡ t) × (c ≡ d) }
    ensures not_both { (script : List ℕ) (p : OneProgram) (s : ℕ) (c : OneCode) → IsAccepted script p → IsRefused script s c → ⊥ }
{}

/// Every script has a program or a refusal.
pub fn some_script()
    ensures { (script : List ℕ) → ((p : OneProgram) × IsAccepted script p) ⊎ ((s : ℕ) × (c : OneCode) × IsRefused script s c) }
{}
