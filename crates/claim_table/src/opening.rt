//! Making a round and its claims.
ghost use Rattle.std.specs.Prelude.{◌≡◌, ℕ, ◌^◌, ◌<◌, [], Some, map, All, IfOk, slice_get, vec_len};
ghost use Rattle.claim_table.specs.Rule.{opened};
ghost use Rattle.claim_table.specs.Claims.{IsClaimOf, IsNew, count_of, claims_of, plan_of};

use crate::item::Item;
use crate::plays::{Key, Parts, View};
use crate::table::{Claim, Round};
use atomic_table::{Seat, Table};
use std::alloc::{AllocError, Global};
use std::snapshot::Snapshot;

/// A new round, and all its claims.
#[derive(Drop)]
pub struct Opened<T: Item> {
    pub round: Round<T>,
    pub claims: Vec<Claim<T>>,
}

// Each item in a `Some`.
fn wrapped<T: Drop>(alloc: Global, items: Vec<T>) -> Result<Vec<Option<T>>, AllocError>
    ensures { IfOk result (λ slots. slots.items ≡ map Some items.items) }
{
    items.into_iter().map(Some).collect(alloc)
}

impl<T: Item> Round<T> {
    /// A round of these items, each fresh at its place, with the requested number of claims.
    pub fn new(
        alloc: Global,
        items: Vec<T>,
        claims: u32,
        plan: &T::Plan,
    ) -> Result<Opened<T>, AllocError>
        requires some { 0 < claims }
        requires few { vec_len items < 2 ^ 32 }
        requires fresh { (i : ℕ) (x : T) → slice_get items.items i ≡ Some x → T.fresh plan.now i x }
        ensures round { IfOk result (λ o. (count_of o.round ≡ vec_len items) × (claims_of o.round ≡ claims) × (plan_of o.round ≡ plan.now)) }
        ensures claims { IfOk result (λ o. vec_len o.claims ≡ claims) }
        ensures own { IfOk result (λ o. All (IsClaimOf T.fresh o.round) o.claims.items) }
        ensures unused { IfOk result (λ o. All IsNew o.claims.items) }
    {
        let count = items.len() as u32;
        let key = Key {
            claims: u64::from(claims),
            plan: Snapshot::of(plan),
        };
        let slots = wrapped(alloc, items)?;
        match Table::new(alloc, &[0, 0], slots, &key) {
            Ok((table, seat)) => {
                let round = Round { table, count };
                let claims = round.parted(alloc, seat, claims)?;
                Ok(Opened { round, claims })
            }
            Err(_) => Err(AllocError),
        }
    }

    // Splits the claims off the first seat, which stands for all of them.
    fn parted(
        &self,
        alloc: Global,
        mut seat: Seat<Option<T>, View<T::Plan>>,
        claims: u32,
    ) -> Result<Vec<Claim<T>>, AllocError>
        requires some { 0 < claims }
        requires table { seat.table_id ≡ self.now.table.shared.table_id }
        requires seat { seat.me ≡ (opened (plan_of self.now) claims, []) }
        ensures count { IfOk result (λ all. vec_len all ≡ claims) }
        ensures own { IfOk result (λ all. All (IsClaimOf T.fresh self.now) all.items) }
        ensures unused { IfOk result (λ all. All IsNew all.items) }
    {
        let mut all = Vec::new(alloc);
        for _ in 1..claims {
            let part = self.table.shared.split_seat::<Parts>(&mut seat);
            all.push(Claim {
                seat: part,
                over: false,
            })?;
        }
        all.push(Claim { seat, over: false })?;
        Ok(all)
    }
}
