ghost use Rattle.std.specs.Prelude.{◌≡◌, ◌+◌, true};

use crate::Item;

// A parcel to be sealed. The labels count up from the plan's number.
#[derive(Drop)]
pub struct Parcel {
    pub label: u32,
    pub number: u32,
    pub sealed: bool,
}

impl Item for Parcel {
    type Plan = u32;

    ghost fresh = { λ first i x. x.label ≡ first + i };

    ghost done = { λ first i x. (x.label ≡ first + i) × (x.sealed ≡ true) };

    ghost number = { λ x. x.number };
}
