ghost use Rattle.std.specs.Prelude.{◌≡◌, ℕ, List, [], ◌++◌};
ghost use Rattle.ksql_types.specs.declared.value.Value.{Value as OneValue};
ghost use Rattle.ksql_place.specs.declared.change.Change.{Change as OneChange};
ghost use Rattle.record_codec.specs.Spelling.{spelling, values, IsSpellable, IsSpellableRow};

/// No spelling of a change is a prefix of another, nor is a spelling of a row. So each change and each row has at most
/// one spelling, and reading returns what was written, whatever bytes follow. Does nothing.
pub fn one_spelling()
    ensures changes { (c d : OneChange) (more : List ℕ) → IsSpellable c → IsSpellable d → spelling c ++ more ≡ spelling d → (c ≡ d) × (more ≡ []) }
    ensures rows { (r s : List OneValue) (more : List ℕ) → IsSpellableRow r → IsSpellableRow s → values r ++ more ≡ values s → (r ≡ s) × (more ≡ []) }
{}
