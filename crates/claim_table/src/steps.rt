//! The steps of a claim in a round.
ghost use Rattle.std.specs.Prelude.{◌≡◌, ℕ, ◌<◌, ◌↔◌, ◌∷◌, IfSome, MatchOption};
ghost use Rattle.claim_table.specs.Sums.{AllBelow};
ghost use Rattle.claim_table.specs.Rule.{Says};
ghost use Rattle.claim_table.specs.Claims.{IsClaimOf, HasEnded, IsWaiting, IsTaken, IsOwed, HasNoNumber, SameItems, SameBut, count_of, items_left, plan_of, drawn_by, returned_by, numbers_of};

use crate::bring::bring;
use crate::item::Item;
use crate::plays::{Draws, Homes, Numbers};
use crate::table::{Claim, Round};

// The indexes of the word that counts draws and of the word that counts numbers.
const DRAWS: usize = 0;

const NUMBERS: usize = 1;

impl<T: Item> Round<T> {
    /// Draws the next item for the claim, or `None` once there are no more. After that the claim draws none.
    pub fn draw(&self, claim: &mut Claim<T>) -> Option<u32>
        requires { IsClaimOf T.fresh self.now claim.old }
        ensures claim { IsClaimOf T.fresh self.now claim.new }

        // No two numbers of a claim are the same, since they rise.
        ensures drawn { ¬ HasEnded self.now claim.old → (n : ℕ) × (drawn_by claim.new ≡ n ∷ drawn_by claim.old) × AllBelow (drawn_by claim.old) n }
        ensures ended { HasEnded self.now claim.old → drawn_by claim.new ≡ drawn_by claim.old }
        ensures none { (result ≡ None) ↔ HasEnded self.now claim.new }
        ensures some { IfSome result (λ i. (drawn_by claim.new ≡ i ∷ drawn_by claim.old) × (i < count_of self.now) × IsWaiting claim.new i × HasNoNumber claim.new i) }
        ensures fewer { IfSome result (λ _. items_left self.now claim.new < items_left self.now claim.old) }

        ensures items { MatchOption result (SameItems claim.old claim.new) (λ i. SameBut i claim.old claim.new) }
        ensures returned { returned_by claim.new ≡ returned_by claim.old }
        ensures numbers { numbers_of claim.new ≡ numbers_of claim.old }
    {
        if claim.over {
            return None;
        }
        let found = self
            .table
            .shared
            .fetch_add::<Draws<T>>(&mut claim.seat, DRAWS, 1);
        if found < u64::from(self.count) {
            Some(found as u32)
        } else {
            claim.over = true;
            None
        }
    }

    /// Takes the value of an item that the claim drew.
    pub fn take(&self, claim: &mut Claim<T>, item: u32) -> T
        requires claim { IsClaimOf T.fresh self.now claim.old }
        requires waiting { IsWaiting claim.old item }
        ensures claim { IsClaimOf T.fresh self.now claim.new }
        ensures fresh { T.fresh (plan_of self.now) item result }

        ensures taken { IsTaken claim.new item }
        ensures items { SameBut item claim.old claim.new }
        ensures drawn { drawn_by claim.new ≡ drawn_by claim.old }
        ensures returned { returned_by claim.new ≡ returned_by claim.old }
        ensures numbers { numbers_of claim.new ≡ numbers_of claim.old }
    {
        let slot = item as usize;
        bring(&mut claim.seat, slot);
        match self.table.shared.exchange(&mut claim.seat, slot, None) {
            Some(value) => value,
            None => unreachable!(),
        }
    }

    /// Draws the next number for an item that the claim holds and that has no number yet.
    pub fn commit_number(&self, claim: &mut Claim<T>, item: u32) -> u32
        requires claim { IsClaimOf T.fresh self.now claim.old }
        requires owed { IsOwed claim.old item }
        requires first { HasNoNumber claim.old item }
        ensures claim { IsClaimOf T.fresh self.now claim.new }
        ensures numbers { numbers_of claim.new ≡ (item, result) ∷ numbers_of claim.old }
        ensures below { result < count_of self.now }

        ensures items { SameItems claim.old claim.new }
        ensures drawn { drawn_by claim.new ≡ drawn_by claim.old }
        ensures returned { returned_by claim.new ≡ returned_by claim.old }
    {
        bring(&mut claim.seat, item as usize);
        let number = self
            .table
            .shared
            .fetch_add::<Numbers>(&mut claim.seat, NUMBERS, 1);
        number as u32
    }

    /// Gives back the item with a value that is done and stores the item's number.
    pub fn give_back(&self, claim: &mut Claim<T>, item: u32, value: T)
        requires claim { IsClaimOf T.fresh self.now claim.old }
        requires taken { IsTaken claim.old item }
        requires done { T.done (plan_of self.now) item value }
        requires number { Says (numbers_of claim.old) item (T.number value) }
        ensures claim { IsClaimOf T.fresh self.now claim.new }
        ensures returned { returned_by claim.new ≡ item ∷ returned_by claim.old }

        ensures given { ¬ IsOwed claim.new item }
        ensures items { SameBut item claim.old claim.new }
        ensures drawn { drawn_by claim.new ≡ drawn_by claim.old }
        ensures numbers { numbers_of claim.new ≡ numbers_of claim.old }
    {
        let slot = item as usize;
        bring(&mut claim.seat, slot);
        drop(
            self.table
                .shared
                .exchange(&mut claim.seat, slot, Some(value)),
        );
        self.table.shared.load::<Homes>(&mut claim.seat, NUMBERS);
    }
}
