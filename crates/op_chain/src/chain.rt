//! A row of operators.
ghost use Rattle.std.specs.Prelude.{◌≡◌, ◌++◌, false, true, List, [], map, All, IfOk, IsTrue, OnErr, OnOk};
ghost use Rattle.ksql_nodes.specs.Entries.{Entry as OneEntry};
ghost use Rattle.operator.specs.Holding.{Maps, committed};
ghost use Rattle.op_chain.specs.Chain.{AreBasesOf, AreStorable, HaveOwnStores, MayLoad, StandAlong, at_rest, entries_of, given, has_operator, maps_after, maps_in, replayed_along};

use crate::along::{changes_along, load_along, run_along};
use crate::op::Op;
use ksql_nodes::Node;
use ksql_place::Change;
use ksql_types::StoreEntry;
use operator::Operator;
use std::alloc::{AllocError, Global};
use std::marker::Model;

/// A change that comes in on a side: 1 is the right side of a join.
#[derive(Debug, Drop)]
pub struct Entry {
    pub side: u32,
    pub change: Change,
}

/// An operator for each of some nodes; what one gives is the next one's input.
#[derive(Drop)]
pub struct Chain {
    ops: Vec<Op>,
    failed: bool,
}

impl Model for Chain {
    ghost use Rattle.std.specs.Prelude.{map};
    ghost use Rattle.op_chain.specs.Chain.{ChainView};
    ghost use Rattle.op_chain.specs.Codes.{chain_code};

    ghost Value = { ChainView };

    ghost coded = { chain_code };

    ghost view = { λ c. record {
      nodes = map ⟦<Op as Operator>⟧.node c.ops.items;
      held = map ⟦<Op as Operator>⟧.held c.ops.items;
      failed = c.failed;
    } };
}

impl Chain {
    /// The operators of some nodes, before any entry. Each node must have an operator: a window is valid, and over a
    /// stream.
    pub fn new(alloc: Global, nodes: &[Node]) -> Result<Chain, AllocError>
        requires { All (λ n. IsTrue (has_operator n)) nodes.now }
        ensures fresh { IfOk result (λ chain. chain ≡ at_rest nodes.now (maps_after nodes.now [])) }
        ensures stands { IfOk result (λ chain. StandAlong nodes.now (maps_in chain) []) }
    {
        Ok(Chain {
            ops: operators_of(alloc, nodes)?,
            failed: false,
        })
    }

    /// Runs further entries through all nodes, and appends what the last one gives to `out`. Once memory ran out, the
    /// chain gives nothing more.
    pub fn run(
        &mut self,
        alloc: Global,
        entries: Vec<Entry>,
        out: &mut Vec<Change>,
    ) -> Result<(), AllocError>
        requires { (earlier : List OneEntry) × StandAlong self.old.nodes (maps_in self.old) earlier × AreStorable self.old.nodes earlier (entries_of entries.items) }
        ensures nodes { self.new.nodes ≡ self.old.nodes }
        ensures next { OnOk result ((earlier : List OneEntry) → StandAlong self.old.nodes (maps_in self.old) earlier →
            (out.new.items ≡ out.old.items ++ given self.old.nodes earlier (entries_of entries.items))
            × StandAlong self.old.nodes (maps_in self.new) (earlier ++ entries_of entries.items)) }
        ensures bases { (bases : List Maps) → AreBasesOf bases self.old → AreBasesOf bases self.new }
        ensures sound { OnOk result (self.new.failed ≡ self.old.failed) }
        ensures failed { OnErr result (self.new.failed ≡ true) }
    {
        if self.failed {
            return Err(AllocError);
        }
        let ran = run_along(self.ops.as_mut_slice(), alloc, entries, out);
        self.failed = ran.is_err();
        ran
    }

    /// Commits, and returns what changed in all stores since the last commit. After an error the chain may have
    /// committed in part, and must be dropped.
    pub fn changes(&mut self, alloc: Global) -> Result<Vec<StoreEntry>, AllocError>
        requires { HaveOwnStores self.old.nodes }
        ensures rest { OnOk result (self.new ≡ record (at_rest self.old.nodes (maps_in self.old)) { failed = self.old.failed }) }
        ensures replayed { IfOk result (λ log. (bases : List Maps) → AreBasesOf bases self.old →
            replayed_along self.old.nodes bases log.items ≡ maps_in self.old) }
        ensures loadable { IfOk result (λ log. All (MayLoad self.old.nodes) log.items) }
    {
        changes_along(self.ops.as_mut_slice(), alloc)
    }

    /// Replaces all stores by the replay of a log on empty stores. After an error the chain may have loaded in part,
    /// and must be dropped.
    pub fn load(&mut self, alloc: Global, log: &[StoreEntry]) -> Result<(), AllocError>
        requires { All (MayLoad self.old.nodes) log.now }
        ensures { OnOk result (self.new ≡ at_rest self.old.nodes (maps_after self.old.nodes log.now)) }
    {
        if self.failed {
            return Err(AllocError);
        }
        load_along(self.ops.as_mut_slice(), alloc, log)
    }
}

/// The operators of some nodes, before any entry.
fn operators_of(alloc: Global, nodes: &[Node]) -> Result<Vec<Op>, AllocError>
    requires { All (λ n. IsTrue (has_operator n)) nodes.now }
    ensures nodes { IfOk result (λ ops. map ⟦<Op as Operator>⟧.node ops.items ≡ nodes.now) }
    ensures held { IfOk result (λ ops. map ⟦<Op as Operator>⟧.held ops.items ≡ map committed (maps_after nodes.now [])) }
{
    let mut ops = Vec::with_capacity(alloc, nodes.len())?;
    for node in nodes {
        ops.push(Op::new(alloc, node)?)?;
    }
    Ok(ops)
}
