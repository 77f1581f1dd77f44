//! The end of a round.
ghost use Rattle.std.specs.Prelude.{◌≡◌, ℕ, ◌<◌, ◌≤◌, [], List, Some, map, All, IfOk, slice_get, vec_len, vec_capacity};
ghost use Rattle.std.specs.Mem.Slots.{IsFull, slots_items, slots_len};
ghost use Rattle.claim_table.specs.Sums.{weigh, below, total};
ghost use Rattle.claim_table.specs.Claims.{IsClaimOf, HasGivenBack, HasEnded, count_of, claims_of, plan_of, drawn_by};
ghost use Rattle.claim_table.specs.Gathering.{Gathers};

use crate::item::Item;
use crate::plays::{Parts, View};
use crate::table::{Claim, Round};
use atomic_table::{Closed, Seat};
use std::alloc::{AllocError, Global};

impl<T: Item> Round<T> {
    /// Ends the round and all its claims. Returns the values in the order of their places.
    pub fn close(self, alloc: Global, claims: Vec<Claim<T>>) -> Result<Vec<T>, AllocError>
        requires all { vec_len claims ≡ claims_of self }
        requires own { All (IsClaimOf T.fresh self) claims.items }
        requires returned { All (HasGivenBack self) claims.items }
        requires ended { All (HasEnded self) claims.items }
        ensures count { IfOk result (λ values. vec_len values ≡ count_of self) }
        ensures done { IfOk result (λ values. (i : ℕ) (x : T) → slice_get values.items i ≡ Some x → T.done (plan_of self) i x) }

        // The numbers of n values are 0 to n - 1, each once.
        ensures numbers { IfOk result (λ values. (h : ℕ → ℕ) → weigh h (map T.number values.items) ≡ below h (count_of self)) }

        // The numbers drawn are 0 up to some m above the number of items, each drawn once, by one claim.
        ensures drawn { IfOk result (λ _. (m : ℕ) × (count_of self < m) × ((h : ℕ → ℕ) → total (λ c. weigh h (drawn_by c)) claims.items ≡ below h m)) }
    {
        let values = Vec::with_capacity(alloc, self.count as usize)?;
        let seat = self.gathered(claims);
        let Round { table, count: _ } = self;
        Ok(moved(values, table.close_with(seat)))
    }

    // One seat that stands for all claims.
    fn gathered(&self, mut claims: Vec<Claim<T>>) -> Seat<Option<T>, View<T::Plan>>
        requires some { 0 < vec_len claims }
        requires own { All (IsClaimOf T.fresh self.now) claims.items }
        requires returned { All (HasGivenBack self.now) claims.items }
        requires ended { All (HasEnded self.now) claims.items }
        ensures table { result.table_id ≡ self.now.table.shared.table_id }
        ensures view { Gathers (count_of self.now) claims.items result.me.0 }
    {
        let Some(first) = claims.pop() else {
            unreachable!()
        };
        let mut seat = first.seat;
        while let Some(claim) = claims.pop() {
            self.table.shared.join_seat::<Parts>(&mut seat, claim.seat);
        }
        seat
    }
}

// Moves the values of the slots into `values`, which has room for them.
fn moved<T: Drop>(mut values: Vec<T>, mut closed: Closed<Option<T>, Global>) -> Vec<T>
    requires empty { values.items ≡ [] }
    requires room { slots_len closed.slots ≤ vec_capacity values }
    requires full { IsFull closed.slots × ((items : List T) × (slots_items closed.slots ≡ map Some items)) }
    ensures { map Some result.items ≡ slots_items closed.slots }
{
    for slot in 0..closed.slot_count() {
        let Some(value) = closed.take(slot) else {
            unreachable!()
        };
        let Ok(()) = values.push(value) else {
            unreachable!()
        };
    }
    closed.free();
    values
}
