//! The rule of a round, and what each atomic step records. These types serve the proofs alone.
use crate::item::Item;
use atomic_table::{Join, Play, Split, TableRule};
use std::collections::LinkedList;
use std::marker::PhantomData;
use std::snapshot::Snapshot;

/// What a claim knows. No such value exists at run time.
pub struct View<P> {
    pub plan: Option<P>,
    pub parts: u64,
    pub drawn: LinkedList<u64>,
    pub returned: LinkedList<u64>,
    pub numbered: LinkedList<(u64, u64)>,
}

/// What the table is told at the start: the number of claims, and the plan.
#[derive(Drop)]
pub struct Key<P> {
    pub claims: u64,
    pub plan: Snapshot<P>,
}

pub struct Rule<T: Item> {
    items: PhantomData<T>,
}

impl<T: Item> TableRule<Option<T>, View<T::Plan>, Key<T::Plan>> for Rule<T> {
    ghost use Rattle.claim_table.specs.Rule.{Kept, opened};

    ghost holds = { λ k. Kept T.fresh T.done T.number k.plan.value k.claims };

    ghost first = { λ k. opened k.plan.value k.claims };
}

pub struct Draws<T: Item> {
    items: PhantomData<T>,
}

impl<T: Item> Play<Option<T>, View<T::Plan>> for Draws<T> {
    ghost use Rattle.claim_table.specs.Steps.{Drew};

    ghost then = { Drew T.fresh };
}

pub struct Numbers;

impl<T, P> Play<Option<T>, View<P>> for Numbers {
    ghost use Rattle.claim_table.specs.Steps.{Numbered};

    ghost then = { Numbered };
}

pub struct Homes;

impl<T, P> Play<Option<T>, View<P>> for Homes {
    ghost use Rattle.claim_table.specs.Steps.{WentHome};

    ghost then = { WentHome };
}

pub struct Parts;

impl<P> Split<View<P>> for Parts {
    ghost use Rattle.claim_table.specs.Rule.{parent, child};

    ghost left = { parent };

    ghost right = { child };
}

impl<P> Join<View<P>> for Parts {
    ghost use Rattle.claim_table.specs.Rule.{both, spent};

    ghost both = { both };

    ghost spent = { spent };
}
