//! A round: each task processes what its inputs are closed for, and then each proposal is committed.
ghost use Rattle.std.specs.Prelude.{◌≡◌, ◌++◌, flat_map, map, All, IfOk, IfSome, OnOk, Some};
ghost use Rattle.std.specs.List.{AllPairs, AllZip};
ghost use Rattle.core_state.specs.Shelf.{ShelfApplies};
ghost use Rattle.assignor.specs.Rule.{is_with};
ghost use Rattle.topic_log.specs.Shelves.{routes_in, shelf_of, topics_of};
ghost use Rattle.cluster_laws.specs.Rounds.{AllSettle, CanCommit, CanGo, HasRun, ProposeApart, Settles, noted, offered, seat_of};

use cluster_laws::{Ran, Seat};
use core_state::{JournalEntry, Proposal};
use std::alloc::{AllocError, Global};
use task_commit::commit;
use task_core::Moved;
use topic_log::Broker;

/// The tasks after a round on a broker, in order, with their proposals. The tasks of a worker that is lost in the round
/// don't run, since their proposals would be lost.
pub fn advance_all(
    alloc: Global,
    seats: Vec<Seat>,
    broker: &Broker,
    lost: Option<u32>,
) -> Result<Vec<Ran>, AllocError>
    requires { All (λ s. CanGo broker.now s.task) seats.items }
    ensures { IfOk result (λ rans. AllZip (HasRun lost (routes_in broker.now) (shelf_of broker.now)) seats.items rans.items) }
{
    let mut rans = Vec::with_capacity(alloc, seats.len())?;
    for seat in seats {
        rans.push(outcome_of(alloc, seat, broker, lost)?)?;
    }
    Ok(rans)
}

/// A task after a round on a broker, with its proposal. It is unchanged if its worker is lost.
fn outcome_of(
    alloc: Global,
    seat: Seat,
    broker: &Broker,
    lost: Option<u32>,
) -> Result<Ran, AllocError>
    requires { CanGo broker.now seat.task }
    ensures { IfOk result (HasRun lost (routes_in broker.now) (shelf_of broker.now) seat) }
{
    let Seat { worker, task } = seat;
    let moved = if is_lost(lost, worker) {
        Moved {
            task,
            proposal: None,
        }
    } else {
        task.advance(alloc, broker)?
    };
    Ok(Ran { worker, moved })
}

/// Whether this is the worker that is lost.
fn is_lost(lost: Option<u32>, worker: u32) -> bool
    ensures { result ≡ is_with worker lost }
{
    match lost {
        Some(other) => other == worker,
        None => false,
    }
}

/// Commits the proposals, in the order of the tasks, and returns the tasks.
pub fn commit_all(
    alloc: Global,
    broker: &mut Broker,
    rans: Vec<Ran>,
    journal: &mut Vec<JournalEntry>,
) -> Result<Vec<Seat>, AllocError>
    requires each { All (λ o. IfSome o (CanCommit (routes_in broker.old) (shelf_of broker.old))) (map offered rans.items) }
    requires apart { AllPairs ProposeApart (map offered rans.items) }
    ensures topics { OnOk result (topics_of broker.new ≡ topics_of broker.old) }
    ensures seats { IfOk result (λ seats. seats.items ≡ map seat_of rans.items) }
    ensures settled { OnOk result (AllSettle (routes_in broker.old) (map offered rans.items) (shelf_of broker.old) (shelf_of broker.new)) }
    ensures journal { OnOk result (journal.new.items ≡ journal.old.items ++ flat_map noted (map offered rans.items)) }
{
    let mut seats = Vec::with_capacity(alloc, rans.len())?;
    for ran in rans {
        let Ran { worker, moved } = ran;
        let Moved { task, proposal } = moved;
        settle(alloc, broker, proposal, journal)?;
        seats.push(Seat { worker, task })?;
    }
    Ok(seats)
}

/// Commits a task's proposal, if any.
fn settle(
    alloc: Global,
    broker: &mut Broker,
    proposal: Option<Proposal>,
    journal: &mut Vec<JournalEntry>,
) -> Result<(), AllocError>
    requires { IfSome proposal (CanCommit (routes_in broker.old) (shelf_of broker.old)) }
    ensures topics { OnOk result (topics_of broker.new ≡ topics_of broker.old) }
    ensures settled { OnOk result (Settles (routes_in broker.old) proposal (shelf_of broker.old) (shelf_of broker.new)) }
    ensures journal { OnOk result (journal.new.items ≡ journal.old.items ++ noted proposal) }
{
    match proposal {
        None => Ok(()),
        Some(proposal) => commit_one(alloc, broker, proposal, journal),
    }
}

/// Commits a proposal, and records it in the journal.
fn commit_one(
    alloc: Global,
    broker: &mut Broker,
    proposal: Proposal,
    journal: &mut Vec<JournalEntry>,
) -> Result<(), AllocError>
    requires { CanCommit (routes_in broker.old) (shelf_of broker.old) proposal }
    ensures topics { OnOk result (topics_of broker.new ≡ topics_of broker.old) }
    ensures applies { OnOk result (ShelfApplies (routes_in broker.old) proposal.task proposal (shelf_of broker.old) (shelf_of broker.new)) }
    ensures journal { OnOk result (journal.new.items ≡ journal.old.items ++ noted (Some proposal)) }
{
    journal.push(JournalEntry::Committed {
        task: proposal.task,
        from: proposal.from,
        to: proposal.to,
    })?;
    let Ok(prepared) = broker.prepare(alloc, proposal) else {
        return Err(AllocError);
    };
    let _ = commit(broker, prepared);
    Ok(())
}
