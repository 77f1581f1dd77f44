//! What a round hands out.
ghost use Rattle.std.specs.Prelude.{ℕ};

/// An item of a round. It has no functions, only meanings for the contracts.
pub trait Item: Drop {
    /// What the items of one round belong to. The round keeps it for the contracts alone.
    type Plan;

    // Whether the value may be handed out at this place.
    ghost fresh: { Self.Plan → ℕ → Self → Type 0 };

    // Whether the value may be given back at this place.
    ghost done: { Self.Plan → ℕ → Self → Type 0 };

    // The number that the value stores.
    ghost number: { Self → ℕ };
}
