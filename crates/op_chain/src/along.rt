//! The steps of several operators, one after another.
ghost use Rattle.std.specs.Prelude.{◌≡◌, ◌++◌, List, map, All, IfOk, OnOk};
ghost use Rattle.std.specs.List.{AllZip};
ghost use Rattle.ksql_nodes.specs.Entries.{from_side};
ghost use Rattle.operator.specs.Holding.{IsBaseOf, Maps, committed, maps_of};
ghost use Rattle.op_chain.specs.Along.{CanStore, CanTake, IsLogOf, StepAlong, Steps};
ghost use Rattle.op_chain.specs.Chain.{HaveOwnStores, MayLoad, entries_of, maps_after};

use crate::chain::Entry;
use crate::op::Op;
use ksql_place::Change;
use ksql_types::StoreEntry;
use operator::{Operator, StoredOperator};
use std::alloc::{AllocError, Global};

/// Runs entries through a row of operators, and appends what the last one gives to `out`.
pub(crate) fn run_along(
    ops: &mut [Op],
    alloc: Global,
    entries: Vec<Entry>,
    out: &mut Vec<Change>,
) -> Result<(), AllocError>
    requires { CanTake (map ⟦<Op as Operator>⟧.node ops.old) (map ⟦<Op as Operator>⟧.held ops.old) (entries_of entries.items) }
    ensures nodes { map ⟦<Op as Operator>⟧.node ops.new ≡ map ⟦<Op as Operator>⟧.node ops.old }
    ensures next { OnOk result (StepAlong (map ⟦<Op as Operator>⟧.node ops.old) (map ⟦<Op as Operator>⟧.held ops.old) (map ⟦<Op as Operator>⟧.held ops.new)
        (entries_of entries.items) out.old.items out.new.items) }
    ensures bases { (bases : List Maps) → AllZip IsBaseOf bases (map ⟦<Op as Operator>⟧.held ops.old) → AllZip IsBaseOf bases (map ⟦<Op as Operator>⟧.held ops.new) }
{
    let Some((op, later)) = ops.split_first_mut() else {
        return give(entries, out);
    };
    if later.is_empty() {
        return step_each(op, alloc, entries, out);
    }
    let mut given = Vec::with_capacity(alloc, entries.len())?;
    step_each(op, alloc, entries, &mut given)?;
    run_on(later, alloc, given, out)
}

/// Runs changes that come in on the left through a row of operators, and appends what the last one gives to `out`.
fn run_on(
    ops: &mut [Op],
    alloc: Global,
    mut changes: Vec<Change>,
    out: &mut Vec<Change>,
) -> Result<(), AllocError>
    requires { CanTake (map ⟦<Op as Operator>⟧.node ops.old) (map ⟦<Op as Operator>⟧.held ops.old) (from_side 0 changes.items) }
    ensures nodes { map ⟦<Op as Operator>⟧.node ops.new ≡ map ⟦<Op as Operator>⟧.node ops.old }
    ensures next { OnOk result (StepAlong (map ⟦<Op as Operator>⟧.node ops.old) (map ⟦<Op as Operator>⟧.held ops.old) (map ⟦<Op as Operator>⟧.held ops.new)
        (from_side 0 changes.items) out.old.items out.new.items) }
    ensures bases { (bases : List Maps) → AllZip IsBaseOf bases (map ⟦<Op as Operator>⟧.held ops.old) → AllZip IsBaseOf bases (map ⟦<Op as Operator>⟧.held ops.new) }
{
    let Some((op, later)) = ops.split_first_mut() else {
        out.append(&mut changes)?;
        return Ok(());
    };
    if later.is_empty() {
        return step_left(op, alloc, changes, out);
    }
    let mut given = Vec::with_capacity(alloc, changes.len())?;
    step_left(op, alloc, changes, &mut given)?;
    run_on(later, alloc, given, out)
}

/// Runs entries through one operator, and appends what it gives.
fn step_each(
    op: &mut Op,
    alloc: Global,
    entries: Vec<Entry>,
    out: &mut Vec<Change>,
) -> Result<(), AllocError>
    requires { CanStore (⟦<Op as Operator>⟧.node op.old) (entries_of entries.items) }
    ensures node { ⟦<Op as Operator>⟧.node op.new ≡ ⟦<Op as Operator>⟧.node op.old }
    ensures next { OnOk result (Steps (⟦<Op as Operator>⟧.node op.old) (⟦<Op as Operator>⟧.held op.old) (⟦<Op as Operator>⟧.held op.new) (entries_of entries.items) out.old.items out.new.items) }
    ensures base { (base : Maps) → IsBaseOf base (⟦<Op as Operator>⟧.held op.old) → IsBaseOf base (⟦<Op as Operator>⟧.held op.new) }
{
    for entry in entries {
        op.step(alloc, entry.side, entry.change, out)?;
    }
    Ok(())
}

/// Runs changes that come in on the left through one operator, and appends what it gives.
fn step_left(
    op: &mut Op,
    alloc: Global,
    changes: Vec<Change>,
    out: &mut Vec<Change>,
) -> Result<(), AllocError>
    requires { CanStore (⟦<Op as Operator>⟧.node op.old) (from_side 0 changes.items) }
    ensures node { ⟦<Op as Operator>⟧.node op.new ≡ ⟦<Op as Operator>⟧.node op.old }
    ensures next { OnOk result (Steps (⟦<Op as Operator>⟧.node op.old) (⟦<Op as Operator>⟧.held op.old) (⟦<Op as Operator>⟧.held op.new) (from_side 0 changes.items) out.old.items out.new.items) }
    ensures base { (base : Maps) → IsBaseOf base (⟦<Op as Operator>⟧.held op.old) → IsBaseOf base (⟦<Op as Operator>⟧.held op.new) }
{
    for change in changes {
        op.step(alloc, 0, change, out)?;
    }
    Ok(())
}

/// Appends what the last operator gave.
fn give(entries: Vec<Entry>, out: &mut Vec<Change>) -> Result<(), AllocError>
    ensures { OnOk result (out.new.items ≡ out.old.items ++ map (λ e. e.change) (entries_of entries.items)) }
{
    for Entry { change, .. } in entries {
        out.push(change)?;
    }
    Ok(())
}

/// Commits a row of operators, and returns what changed in their stores since the last commit.
pub(crate) fn changes_along(ops: &mut [Op], alloc: Global) -> Result<Vec<StoreEntry>, AllocError>
    requires { HaveOwnStores (map ⟦<Op as Operator>⟧.node ops.old) }
    ensures nodes { OnOk result (map ⟦<Op as Operator>⟧.node ops.new ≡ map ⟦<Op as Operator>⟧.node ops.old) }
    ensures committed { OnOk result (map ⟦<Op as Operator>⟧.held ops.new ≡ map committed (map maps_of (map ⟦<Op as Operator>⟧.held ops.old))) }
    ensures log { IfOk result (λ log. IsLogOf (map ⟦<Op as Operator>⟧.node ops.old) (map ⟦<Op as Operator>⟧.held ops.old) log.items) }
{
    let Some((op, later)) = ops.split_first_mut() else {
        return Ok(Vec::new(alloc));
    };
    let mut log = op.changes(alloc)?.into_items();
    let mut more = changes_along(later, alloc)?;
    log.append(&mut more)?;
    Ok(log)
}

/// Replaces the stores of a row of operators by the replay of a log on empty stores.
pub(crate) fn load_along(
    ops: &mut [Op],
    alloc: Global,
    log: &[StoreEntry],
) -> Result<(), AllocError>
    requires { All (MayLoad (map ⟦<Op as Operator>⟧.node ops.old)) log.now }
    ensures nodes { OnOk result (map ⟦<Op as Operator>⟧.node ops.new ≡ map ⟦<Op as Operator>⟧.node ops.old) }
    ensures loaded { OnOk result (map ⟦<Op as Operator>⟧.held ops.new ≡ map committed (maps_after (map ⟦<Op as Operator>⟧.node ops.old) log.now)) }
{
    let Some((op, later)) = ops.split_first_mut() else {
        return Ok(());
    };
    op.load(alloc, log)?;
    load_along(later, alloc, log)
}
