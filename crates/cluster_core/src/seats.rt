//! Tasks at their owners: those that leave them, and those that are restored from their changelogs.
ghost use Rattle.std.specs.Prelude.{◌≡◌, ◌∷◌, ◌++◌, [], if◌then◌else◌, not, All, IfOk, List, None, OnOk, Some, is_some, length, map, option_map, unwrap_or};
ghost use Rattle.core_state.specs.declared.journal.JournalEntry.{JournalEntry as OneEntry};
ghost use Rattle.core_state.specs.Routes.{IsWriter};
ghost use Rattle.topic_log.specs.Shelves.{routes_in, shelf_of, topics_of};
ghost use Rattle.cluster_laws.specs.Moves.{AllLeave, CanRestore, Leaves, LeavesOrStays, are_at, is_owner, kept_of, note_anew, owned_of, seat_anew, seat_notes, seated};
ghost use Rattle.cluster_laws.specs.Progress.{is_task};

use assignor::{Assignment, Owned};
use cluster_laws::Seat;
use core_state::JournalEntry;
use ksql_types::{Items, TaskName};
use std::alloc::{AllocError, Global};
use task_commit::fence;
use task_restore::restore;
use topic_log::Broker;
use topology::Topology;

/// Which worker owns each task.
pub fn owners_of(alloc: Global, seats: &[Seat]) -> Result<Assignment, AllocError>
    ensures { IfOk result (λ owners. owners ≡ map owned_of seats.now) }
{
    let mut owners = Vec::with_capacity(alloc, seats.len())?;
    for seat in seats {
        owners.push(Owned {
            task: seat.task.name(),
            worker: seat.worker,
        })?;
    }
    Ok(Items::of(owners))
}

/// For each task, whether it stays with its owner if the owners become `owners`, in the order of the tasks.
pub fn staying(alloc: Global, seats: &[Seat], owners: &[Owned]) -> Result<Vec<bool>, AllocError>
    ensures { IfOk result (λ stays. stays.items ≡ are_at owners.now seats.now) }
{
    let mut stays = Vec::with_capacity(alloc, seats.len())?;
    let mut owners = owners.iter();
    for seat in seats {
        stays.push(is_owner(owners.next(), seat.worker))?;
    }
    Ok(stays)
}

/// Whether `worker` is the owner.
fn is_owner(owned: Option<&Owned>, worker: u32) -> bool
    ensures { result ≡ is_owner (option_map (λ o. o.now) owned.entry) worker }
{
    match owned {
        Some(owned) => owned.worker == worker,
        None => false,
    }
}

/// For each task, whether it isn't the lost one.
pub fn staying_but(alloc: Global, seats: &[Seat], lost: TaskName) -> Result<Vec<bool>, AllocError>
    ensures { IfOk result (λ stays. stays.items ≡ map (λ s. not (is_task lost s.task.name)) seats.now) }
{
    let mut stays = Vec::with_capacity(alloc, seats.len())?;
    for seat in seats {
        stays.push(lost != seat.task.name())?;
    }
    Ok(stays)
}

/// Removes each task that doesn't stay from its owner: its instance is gone, and the task gets a new generation.
pub fn leave_all(
    alloc: Global,
    broker: &mut Broker,
    seats: Vec<Seat>,
    stays: &[bool],
    journal: &mut Vec<JournalEntry>,
) -> Result<Vec<Option<Seat>>, AllocError>
    requires writers { All (λ s. IsWriter (routes_in broker.old) s.task.name) seats.items }
    requires places { length stays.now ≡ length seats.items }
    ensures topics { OnOk result (topics_of broker.new ≡ topics_of broker.old) }
    ensures kept { IfOk result (λ kept. kept.items ≡ kept_of stays.now seats.items) }
    ensures left { OnOk result ((notes : List OneEntry) × AllLeave (routes_in broker.old) stays.now seats.items (shelf_of broker.old) notes (shelf_of broker.new)
        × (journal.new.items ≡ journal.old.items ++ notes)) }
{
    let mut kept = Vec::with_capacity(alloc, seats.len())?;
    for (seat, stays) in seats.into_iter().zip(stays) {
        kept.push(leave_unless(broker, seat, *stays, journal)?)?;
    }
    Ok(kept)
}

/// Removes a task from its owner unless it stays.
fn leave_unless(
    broker: &mut Broker,
    seat: Seat,
    stays: bool,
    journal: &mut Vec<JournalEntry>,
) -> Result<Option<Seat>, AllocError>
    requires { IsWriter (routes_in broker.old) seat.task.name }
    ensures topics { OnOk result (topics_of broker.new ≡ topics_of broker.old) }
    ensures kept { IfOk result (λ kept. kept ≡ (if stays then Some seat else None)) }
    ensures left { OnOk result ((notes : List OneEntry) × LeavesOrStays (routes_in broker.old) stays seat.task.name (shelf_of broker.old) notes (shelf_of broker.new)
        × (journal.new.items ≡ journal.old.items ++ notes)) }
{
    if stays {
        return Ok(Some(seat));
    }
    leave(broker, seat.task.name(), journal)?;
    Ok(None)
}

/// Gives a task that leaves its owner a new generation. Fails with out of memory at generation 2^64, which no run
/// reaches.
fn leave(
    broker: &mut Broker,
    task: TaskName,
    journal: &mut Vec<JournalEntry>,
) -> Result<(), AllocError>
    requires { IsWriter (routes_in broker.old) task }
    ensures topics { OnOk result (topics_of broker.new ≡ topics_of broker.old) }
    ensures left { OnOk result ((notes : List OneEntry) × Leaves (routes_in broker.old) task (shelf_of broker.old) notes (shelf_of broker.new)
        × (journal.new.items ≡ journal.old.items ++ notes)) }
{
    if broker.newest(task) == u64::MAX {
        return Err(AllocError);
    }
    let generation = fence(broker, task);
    journal.push(JournalEntry::Left { task, generation })?;
    Ok(())
}

/// The tasks at their new owners: a kept task stays at its place, and each other task is restored from its changelog.
pub fn seat_all(
    alloc: Global,
    broker: &Broker,
    topology: &Topology,
    kept: Vec<Option<Seat>>,
    owners: &[Owned],
    journal: &mut Vec<JournalEntry>,
) -> Result<Vec<Seat>, AllocError>
    requires { All (CanRestore topology.now (routes_in broker.now) (shelf_of broker.now)) owners.now }
    ensures seats { IfOk result (λ seats. seats.items ≡ seated topology.now (shelf_of broker.now) owners.now kept.items) }
    ensures journal { OnOk result (journal.new.items ≡ journal.old.items ++ seat_notes (shelf_of broker.now) owners.now kept.items) }
{
    let mut kept = kept.into_iter();
    let mut seats = Vec::with_capacity(alloc, owners.len())?;
    for owned in owners {
        let kept = kept.next().flatten();
        seats.push(kept_or_anew(alloc, broker, topology, kept, *owned, journal)?)?;
    }
    Ok(seats)
}

/// The kept task at its owner, or else one restored from its changelog.
fn kept_or_anew(
    alloc: Global,
    broker: &Broker,
    topology: &Topology,
    kept: Option<Seat>,
    owned: Owned,
    journal: &mut Vec<JournalEntry>,
) -> Result<Seat, AllocError>
    requires { CanRestore topology.now (routes_in broker.now) (shelf_of broker.now) owned }
    ensures seat { IfOk result (λ seat. seat ≡ unwrap_or kept (seat_anew topology.now (shelf_of broker.now) owned)) }
    ensures journal { OnOk result (journal.new.items
        ≡ journal.old.items ++ (if is_some kept then [] else note_anew (shelf_of broker.now) owned ∷ [])) }
{
    match kept {
        Some(seat) => Ok(seat),
        None => seat_anew(alloc, broker, topology, owned, journal),
    }
}

/// A task at its owner, restored from its changelog.
fn seat_anew(
    alloc: Global,
    broker: &Broker,
    topology: &Topology,
    owned: Owned,
    journal: &mut Vec<JournalEntry>,
) -> Result<Seat, AllocError>
    requires { CanRestore topology.now (routes_in broker.now) (shelf_of broker.now) owned }
    ensures seat { IfOk result (λ seat. seat ≡ seat_anew topology.now (shelf_of broker.now) owned) }
    ensures journal { OnOk result (journal.new.items ≡ journal.old.items ++ note_anew (shelf_of broker.now) owned ∷ []) }
{
    let Owned { task, worker } = owned;
    let generation = broker.newest(task);
    let done = broker.done(task);
    let sub = &topology.subs.items()[task.sub as usize];
    let task = restore(alloc, sub, task, generation, broker.logs(task), done)?;
    journal.push(JournalEntry::Restored {
        task: owned.task,
        worker,
        generation,
        done,
    })?;
    Ok(Seat { worker, task })
}
