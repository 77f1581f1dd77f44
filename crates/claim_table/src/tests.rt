ghost use Rattle.std.specs.Prelude.{◌≡◌, ℕ, ◌+◌, ◌^◌, ◌<◌, Some, All, IfOk, IfSome, slice_get, vec_len};
ghost use Rattle.claim_table.specs.declared.tests.parcel.Parcel.{Parcel};
ghost use Rattle.claim_table.specs.Claims.{IsClaimOf, IsNew, HasGivenBack, HasEnded};

mod parcel;

use crate::{Claim, Item, Opened, Round};
use parcel::Parcel;
use std::alloc::{AllocError, Global};
use std::test::*;
use std::thread;
use std::thread::Threads;

// Seals parcels until there are no more.
fn seal(round: &Round<Parcel>, mut claim: Claim<Parcel>) -> Claim<Parcel>
    requires claim { IsClaimOf ⟦<Parcel as Item>⟧.fresh round.now claim }
    requires returned { HasGivenBack round.now claim }
    ensures claim { IsClaimOf ⟦<Parcel as Item>⟧.fresh round.now result }
    ensures returned { HasGivenBack round.now result }
    ensures ended { HasEnded round.now result }
{
    while let Some(place) = round.draw(&mut claim) {
        let mut parcel = round.take(&mut claim, place);
        parcel.number = round.commit_number(&mut claim, place);
        parcel.sealed = true;
        round.give_back(&mut claim, place, parcel);
    }
    claim
}

// Each claim seals parcels in a thread of its own, if a thread can be started.
fn seal_all<R: Threads + Sync>(
    rt: &R,
    round: &Round<Parcel>,
    claims: Vec<Claim<Parcel>>,
) -> Result<Vec<Claim<Parcel>>, AllocError>
    requires own { All (IsClaimOf ⟦<Parcel as Item>⟧.fresh round.now) claims.items }
    requires returned { All (HasGivenBack round.now) claims.items }
    ensures count { IfOk result (λ all. vec_len all ≡ vec_len claims) }
    ensures own { IfOk result (λ all. All (IsClaimOf ⟦<Parcel as Item>⟧.fresh round.now) all.items) }
    ensures returned { IfOk result (λ all. All (HasGivenBack round.now) all.items) }
    ensures ended { IfOk result (λ all. All (HasEnded round.now) all.items) }
{
    let work = move |claim: Claim<Parcel>| -> Claim<Parcel>
        requires { IsClaimOf (λ (first i : ℕ) (x : Parcel). x.label ≡ first + i) round.now claim × HasGivenBack round.now claim }
        ensures { IsClaimOf (λ (first i : ℕ) (x : Parcel). x.label ≡ first + i) round.entry.now result × HasGivenBack round.entry.now result × HasEnded round.entry.now result }
    { seal(round, claim) };
    thread::map_vec(rt, claims, &work)
}

fn parcels(alloc: Global, first: u32, count: u32) -> Result<Vec<Parcel>, AllocError>
    requires { first + count < 2 ^ 32 }
    ensures count { IfOk result (λ all. vec_len all ≡ count) }
    ensures labels { IfOk result (λ all. (i : ℕ) (x : Parcel) → slice_get all.items i ≡ Some x → x.label ≡ first + i) }
{
    let mut all = Vec::new(alloc);
    for place in 0..count {
        all.push(Parcel {
            label: first + place,
            number: 0,
            sealed: false,
        })?;
    }
    Ok(all)
}

#[test]
fn threads_seal_each_parcel_once(rt: HostRuntime) -> Result<(), Fail> {
    let items = parcels(rt.alloc(), 10, 100)?;
    let Opened { round, claims } = Round::new(rt.alloc(), items, 4, &10)?;
    let claims = seal_all(&rt, &round, claims)?;
    let sealed = round.close(rt.alloc(), claims)?;
    let mut numbers = Vec::new(rt.alloc());
    for (place, parcel) in sealed.iter().enumerate() {
        assert!(rt; parcel.label as usize == place + 10 && parcel.sealed);
        numbers.push(parcel.number as usize)?;
    }
    numbers.sort()?;
    for (place, number) in numbers.iter().enumerate() {
        assert_eq!(rt; *number, place);
    }
    assert_eq!(rt; numbers.len(), 100);
    Ok(())
}

// Draws two parcels, and takes and numbers them in a different order from the one in which it gives them back.
fn seal_two(round: &Round<Parcel>, mut claim: Claim<Parcel>) -> Option<Claim<Parcel>>
    requires claim { IsClaimOf ⟦<Parcel as Item>⟧.fresh round.now claim }
    requires returned { HasGivenBack round.now claim }
    ensures claim { IfSome result (IsClaimOf ⟦<Parcel as Item>⟧.fresh round.now) }
    ensures returned { IfSome result (HasGivenBack round.now) }
{
    let first = round.draw(&mut claim)?;
    let second = round.draw(&mut claim)?;
    let mut later = round.take(&mut claim, second);
    let mut earlier = round.take(&mut claim, first);
    later.number = round.commit_number(&mut claim, second);
    earlier.number = round.commit_number(&mut claim, first);
    later.sealed = true;
    earlier.sealed = true;
    round.give_back(&mut claim, first, earlier);
    round.give_back(&mut claim, second, later);
    Some(claim)
}

// One claim seals four parcels, two at a time.
fn seal_pairs(round: &Round<Parcel>, claim: Claim<Parcel>) -> Option<Claim<Parcel>>
    requires claim { IsClaimOf ⟦<Parcel as Item>⟧.fresh round.now claim }
    requires returned { HasGivenBack round.now claim }
    ensures claim { IfSome result (IsClaimOf ⟦<Parcel as Item>⟧.fresh round.now) }
    ensures returned { IfSome result (HasGivenBack round.now) }
    ensures ended { IfSome result (HasEnded round.now) }
{
    let claim = seal_two(round, claim)?;
    let claim = seal_two(round, claim)?;
    Some(seal(round, claim))
}

#[test]
fn a_claim_may_hold_several_parcels(rt: HostRuntime) -> Result<(), Fail> {
    let items = parcels(rt.alloc(), 0, 4)?;
    let Opened { round, mut claims } = Round::new(rt.alloc(), items, 1, &0)?;
    let Some(claim) = claims.pop() else {
        unreachable!()
    };
    let Some(claim) = seal_pairs(&round, claim) else {
        panic!(rt; "a parcel was not drawn")
    };
    claims.push(claim)?;
    let sealed = round.close(rt.alloc(), claims)?;
    let numbers: Vec<u32> = sealed
        .iter()
        .map(|parcel| parcel.number)
        .collect(rt.alloc())?;
    assert_eq!(rt; numbers.as_slice(), [1, 0, 3, 2].as_slice());
    Ok(())
}

#[test]
fn a_round_of_no_items_ends(rt: HostRuntime) -> Result<(), Fail> {
    let items = parcels(rt.alloc(), 0, 0)?;
    let Opened { round, mut claims } = Round::new(rt.alloc(), items, 1, &0)?;
    let Some(claim) = claims.pop() else {
        unreachable!()
    };
    claims.push(seal(&round, claim))?;
    let sealed = round.close(rt.alloc(), claims)?;
    assert!(rt; sealed.is_empty());
    Ok(())
}
