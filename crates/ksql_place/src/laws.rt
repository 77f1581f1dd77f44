//! Laws of the orders. These functions do nothing.
ghost use Rattle.std.specs.Prelude.{◌≡◌, ◌↔◌, ◌∷◌, ◌++◌, ◌<◌, ℕ, All, AllPairs, Bool, Contains, List, filter, map, not, true, false};
ghost use Rattle.std.specs.List.Sorted.{IsPermutation, IsSorted, IsSortedByKey, IsStable, IsStableByKey};
ghost use Rattle.std.specs.Cmp.{IsTotalOrder};
ghost use Rattle.std.specs.Ordering.{is_gt, ordering_reverse};
ghost use Rattle.std.specs.declared.cmp.Ordering.{Ordering as Answer};
ghost use Rattle.ksql_place.specs.declared.change.SourceRecord.{SourceRecord as OneRecord};
ghost use Rattle.ksql_place.specs.declared.order.PartTimes.{PartTimes as OnePart};
ghost use Rattle.ksql_place.specs.declared.stamp.Place.{Place as OnePlace};
ghost use Rattle.ksql_place.specs.declared.stamp.Stamp.{Stamp as OneStamp};
ghost use Rattle.ksql_place.specs.Ascending.{ascending, PassesFirst, Rises};
ghost use Rattle.ksql_place.specs.Merge.{is_of, queues, Taken};
ghost use Rattle.ksql_place.specs.Order.{between_cmp, part_stamps, place_cmp, record_cmp, stamp_cmp, stamps_of, AreDistinct};

use std::cmp::Ordering;

/// The order of stamps is total: only equal stamps tie.
pub fn stamps_are_ordered()
    ensures ties { (a b : OneStamp) → (stamp_cmp a b ≡ Ordering.Equal) ↔ (a ≡ b) }
    ensures turned { (a b : OneStamp) → stamp_cmp a b ≡ ordering_reverse (stamp_cmp b a) }
    ensures transitive { (a b c : OneStamp) → stamp_cmp a b ≡ Ordering.Less → stamp_cmp b c ≡ Ordering.Less
        → stamp_cmp a c ≡ Ordering.Less }
{}

/// The order of the places of one relation is total: only equal places tie.
pub fn places_are_ordered()
    ensures ties { (a b : OnePlace) → (place_cmp a b ≡ Ordering.Equal) ↔ (a ≡ b) }
    ensures turned { (a b : OnePlace) → place_cmp a b ≡ ordering_reverse (place_cmp b a) }
    ensures transitive { (a b c : OnePlace) → place_cmp a b ≡ Ordering.Less → place_cmp b c ≡ Ordering.Less
        → place_cmp a c ≡ Ordering.Less }
{}

/// The order of the places of all relations is total: only equal places of the same relation tie.
pub fn places_between_are_ordered()
    ensures ties { (a b : OnePlace) (ra rb : ℕ) → (between_cmp a ra b rb ≡ Ordering.Equal)
        ↔ ((a ≡ b) × (ra ≡ rb)) }
    ensures turned { (a b : OnePlace) (ra rb : ℕ) →
        between_cmp a ra b rb ≡ ordering_reverse (between_cmp b rb a ra) }
    ensures transitive { (a b c : OnePlace) (ra rb rc : ℕ) → between_cmp a ra b rb ≡ Ordering.Less
        → between_cmp b rb c rc ≡ Ordering.Less → between_cmp a ra c rc ≡ Ordering.Less }
{}

/// Sorting by any total comparison keeps the members, each as often; the result ascends, and members that tie keep
/// their order. A list that ascends already is unchanged. Sorting commutes with filtering. If no member of a second
/// list is before a member of the first, the sorted first list comes before the sorted second; the second may be sorted
/// on its own first. Two lists that ascend are merged by their heads, where the first list's head goes first on a tie.
/// If the members that pass a test come first, the list is those members and then the others. A list that ascends
/// without ties rises, and two lists that rise are equal if they have the same members.
pub fn lists_ascend<T>()
    ensures members { (cmp : T → T → Answer) → IsTotalOrder cmp → (xs : List T) → IsPermutation xs (ascending cmp xs) }
    ensures ascends { (cmp : T → T → Answer) → IsTotalOrder cmp → (xs : List T) → IsSorted cmp (ascending cmp xs) }
    ensures stable { (cmp : T → T → Answer) → IsTotalOrder cmp → (xs : List T) → IsStable cmp xs (ascending cmp xs) }
    ensures kept { (cmp : T → T → Answer) → IsTotalOrder cmp → (xs : List T) → IsSorted cmp xs → ascending cmp xs ≡ xs }
    ensures part { (cmp : T → T → Answer) → IsTotalOrder cmp → (passes : T → Bool) (xs : List T) →
        filter passes (ascending cmp xs) ≡ ascending cmp (filter passes xs) }
    ensures follow { (cmp : T → T → Answer) → IsTotalOrder cmp → (xs ys : List T) →
        All (λ x. All (λ y. is_gt (cmp x y) ≡ false) ys) xs → ascending cmp (xs ++ ys) ≡ ascending cmp xs ++ ascending cmp ys }
    ensures again { (cmp : T → T → Answer) → IsTotalOrder cmp → (xs ys : List T) →
        ascending cmp (xs ++ ascending cmp ys) ≡ ascending cmp (xs ++ ys) }
    ensures first_head { (cmp : T → T → Answer) → IsTotalOrder cmp → (x y : T) (xs ys : List T) →
        is_gt (cmp x y) ≡ false → IsSorted cmp (x ∷ xs) → IsSorted cmp (y ∷ ys) →
        ascending cmp ((x ∷ xs) ++ y ∷ ys) ≡ x ∷ ascending cmp (xs ++ y ∷ ys) }
    ensures second_head { (cmp : T → T → Answer) → IsTotalOrder cmp → (x y : T) (xs ys : List T) →
        is_gt (cmp x y) ≡ true → IsSorted cmp (x ∷ xs) → IsSorted cmp (y ∷ ys) →
        ascending cmp ((x ∷ xs) ++ y ∷ ys) ≡ y ∷ ascending cmp ((x ∷ xs) ++ ys) }
    ensures cut { (passes : T → Bool) (xs : List T) → PassesFirst passes xs →
        xs ≡ filter passes xs ++ filter (λ x. not (passes x)) xs }
    ensures rises { (cmp : T → T → Answer) → IsTotalOrder cmp → (xs : List T) → IsSorted cmp xs →
        AllPairs (λ x y. ¬ (cmp x y ≡ Ordering.Equal)) xs → Rises cmp xs }
    ensures same { (cmp : T → T → Answer) → IsTotalOrder cmp → (xs ys : List T) → Rises cmp xs → Rises cmp ys →
        ((x : T) → Contains xs x ↔ Contains ys x) → xs ≡ ys }
{}

/// The order of consumption has the records that were fed, each as often, and ascends by their stamps. Records with the
/// same stamp keep their order, and records that ascend already stay as they are. Taking the stamps commutes with
/// ordering, and so does filtering.
pub fn order_is_sorted()
    ensures members { (records : List OneRecord) → IsPermutation records (ascending record_cmp records) }
    ensures ascends { (records : List OneRecord) →
        IsSortedByKey (λ r. r.stamp) stamp_cmp (ascending record_cmp records) }
    ensures stable { (records : List OneRecord) →
        IsStableByKey (λ r. r.stamp) stamp_cmp records (ascending record_cmp records) }
    ensures kept { (records : List OneRecord) →
        IsSortedByKey (λ r. r.stamp) stamp_cmp records → ascending record_cmp records ≡ records }
    ensures stamps { (records : List OneRecord) → map (λ r. r.stamp) (ascending record_cmp records)
        ≡ ascending stamp_cmp (map (λ r. r.stamp) records) }
    ensures part { (records : List OneRecord) (passes : OneRecord → Bool) →
        filter passes (ascending record_cmp records) ≡ ascending record_cmp (filter passes records) }
{}

/// The ordered records of earlier feeds all come before those of later feeds.
pub fn feeds_follow()
    ensures { (earlier later : List OneRecord) →
        All (λ e. All (λ l. e.stamp.feed < l.stamp.feed) later) earlier →
        ascending record_cmp (earlier ++ later)
        ≡ ascending record_cmp earlier ++ ascending record_cmp later }
{}

/// The merge law: the stamps of one feed in ascending order are what results from repeatedly taking the head with the
/// smallest time, ties going to the smaller topic number and then to the smaller partition; nothing else results from
/// it. Each partition keeps its own order.
pub fn order_is_merged()
    ensures taken { (feed : ℕ) (parts : List OnePart) → AreDistinct parts
        → Taken (queues feed parts) (stamps_of feed parts) }
    ensures only { (feed : ℕ) (parts : List OnePart) (stamps : List OneStamp) → AreDistinct parts
        → Taken (queues feed parts) stamps → stamps ≡ stamps_of feed parts }
    ensures kept { (feed : ℕ) (parts : List OnePart) (part : OnePart) → AreDistinct parts
        → Contains parts part → filter (is_of part) (stamps_of feed parts) ≡ part_stamps feed part }
{}
