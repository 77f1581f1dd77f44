//! The order of the places of two topics.
ghost use Rattle.std.specs.Prelude.{◌≡◌};
ghost use Rattle.ksql_place.specs.Order.{between_cmp};
ghost use Rattle.task_core.specs.Readers.{place_at};

use ksql_place::{Change, Stamp};
use std::cmp::Ordering;

/// The place of an entry, borrowed: its stamp and its path.
#[derive(Clone, Copy, Drop)]
pub struct Front<'a> {
    pub stamp: &'a Stamp,
    pub path: &'a [u32],
}

/// The place of a change.
pub fn front_of(change: &Change) -> Front<'_>
    ensures { place_at result ≡ change.now.place }
{
    Front {
        stamp: &change.place.stamp,
        path: change.place.path.items(),
    }
}

/// Compares places of the relations `ra` and `rb`: by stamp, then by relation, then by path.
pub fn cmp_fronts(a: &Front<'_>, ra: u32, b: &Front<'_>, rb: u32) -> Ordering
    ensures { result ≡ between_cmp (place_at a.now) ra (place_at b.now) rb }
{
    let first = a.path;
    let second = b.path;
    a.stamp
        .cmp(b.stamp)
        .then(ra.cmp(&rb))
        .then_with(|| first.cmp(second))
}
