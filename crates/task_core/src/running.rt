//! What the operators of a task make of everything that its inputs show.
ghost use Rattle.std.specs.Prelude.{◌≡◌, ◌++◌, List, IfOk, OnOk};
ghost use Rattle.ksql_nodes.specs.Entries.{Entry as OneEntry};
ghost use Rattle.operator.specs.Holding.{Maps};
ghost use Rattle.op_chain.specs.Chain.{AreBasesOf, AreStorable, HaveOwnStores, Runs, StandAlong, at_rest, given, maps_in};
ghost use Rattle.task_core.specs.Readers.{IsOrdered, pending};

use crate::reader::Reader;
use ksql_place::Change;
use ksql_types::StoreEntry;
use op_chain::Chain;
use std::alloc::{AllocError, Global};

/// The results of a task's entries, and what changed in its stores.
#[derive(Drop)]
pub struct Made {
    pub outputs: Vec<Change>,
    pub entries: Vec<StoreEntry>,
}

/// What operators make of everything from a reader. After an error they must be dropped.
pub fn made_of(chain: &mut Chain, alloc: Global, reader: Reader) -> Result<Made, AllocError>
    requires rest { chain.old ≡ at_rest chain.old.nodes (maps_in chain.old) }
    requires order { IsOrdered reader }
    requires stores { HaveOwnStores chain.old.nodes }
    requires storable { (earlier : List OneEntry) × StandAlong chain.old.nodes (maps_in chain.old) earlier × AreStorable chain.old.nodes earlier (pending reader) }
    ensures rest { OnOk result (chain.new ≡ at_rest chain.old.nodes (maps_in chain.new)) }
    ensures runs { IfOk result (λ made. Runs chain.old.nodes (maps_in chain.old) (pending reader.entry) made.outputs.items made.entries.items (maps_in chain.new)) }
{
    let mut outputs = Vec::with_capacity(alloc, reader.len()?)?;
    run_all(chain, alloc, reader, &mut outputs)?;
    let entries = chain.changes(alloc)?;
    Ok(Made { outputs, entries })
}

/// Runs everything from a reader through operators, several entries at a time.
fn run_all(
    chain: &mut Chain,
    alloc: Global,
    mut reader: Reader,
    out: &mut Vec<Change>,
) -> Result<(), AllocError>
    requires order { IsOrdered reader }
    requires storable { (earlier : List OneEntry) × StandAlong chain.old.nodes (maps_in chain.old) earlier × AreStorable chain.old.nodes earlier (pending reader) }
    ensures nodes { chain.new.nodes ≡ chain.old.nodes }
    ensures next { OnOk result ((earlier : List OneEntry) → StandAlong chain.old.nodes (maps_in chain.old) earlier →
        (out.new.items ≡ out.old.items ++ given chain.old.nodes earlier (pending reader.entry))
        × StandAlong chain.old.nodes (maps_in chain.new) (earlier ++ pending reader.entry)) }
    ensures bases { (bases : List Maps) → AreBasesOf bases chain.old → AreBasesOf bases chain.new }
    ensures sound { OnOk result (chain.new.failed ≡ chain.old.failed) }
{
    let all = reader.len()?;
    while !reader.is_done() {
        reserve_rest(out, all, reader.len()?)?;
        let entries = reader.next(alloc)?;
        chain.run(alloc, entries, out)?;
    }
    Ok(())
}

/// Reserves room for the results of the remaining entries, `left` of `all`, if they give as many as those before.
fn reserve_rest(out: &mut Vec<Change>, all: usize, left: usize) -> Result<(), AllocError>
    ensures { out.new.items ≡ out.old.items }
{
    let taken = all.saturating_sub(left);
    if taken == 0 {
        return Ok(());
    }
    out.reserve(left.saturating_mul(out.len()) / taken)
}
