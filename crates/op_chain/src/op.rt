//! An operator of any kind.
ghost use Rattle.std.specs.Prelude.{◌≡◌, false, [], IfOk, IsTrue};
ghost use Rattle.operator.specs.Holding.{nothing};
ghost use Rattle.operator.specs.StandsFor.{StandsFor};
ghost use Rattle.op_chain.specs.Chain.{has_operator};
ghost use Rattle.op_chain.specs.declared.op.Op.TheVariants as ops;

use agg_ops::{AggOp, WindowAggOp};
use join_ops::{StreamTableOp, TableTableOp};
use ksql_nodes::Node;
use ksql_place::Change;
use ksql_types::{Changelog, Kind, StoreEntry};
use operator::{Operator, StoredOperator};
use row_ops::{FilterOp, RekeyOp, SelectOp, TableOp};
use std::alloc::{AllocError, Global};

/// An operator of a node.
#[derive(Drop)]
pub enum Op {
    Rekey(RekeyOp),
    Table(TableOp),
    StreamTable(StreamTableOp),
    TableTable(TableTableOp),
    Filter(FilterOp),
    Agg(AggOp),
    WindowAgg(WindowAggOp),
    Select(SelectOp),
}

impl Op {
    /// The operator of a node, before any entry, with empty stores.
    pub fn new(alloc: Global, node: &Node) -> Result<Op, AllocError>
        requires { IsTrue (has_operator node.now) }
        ensures node { IfOk result (λ op. ⟦<Op as Operator>⟧.node op ≡ node.now) }
        ensures sound { IfOk result (λ op. ⟦<Op as Operator>⟧.failed op ≡ false) }
        ensures empty { IfOk result (λ op. ⟦<Op as Operator>⟧.held op ≡ nothing) }
        ensures stands { IfOk result (λ op. StandsFor node.now (⟦<Op as Operator>⟧.held op) []) }
    {
        let mut op = operator_of(alloc, node)?;
        op.load(alloc, &[])?;
        Ok(op)
    }
}

impl Operator for Op {
    ghost node = { elim [
      | ops.Rekey op ↦ ⟦<RekeyOp as Operator>⟧.node op
      | ops.Table op ↦ ⟦<TableOp as Operator>⟧.node op
      | ops.StreamTable op ↦ ⟦<StreamTableOp as Operator>⟧.node op
      | ops.TableTable op ↦ ⟦<TableTableOp as Operator>⟧.node op
      | ops.Filter op ↦ ⟦<FilterOp as Operator>⟧.node op
      | ops.Agg op ↦ ⟦<AggOp as Operator>⟧.node op
      | ops.WindowAgg op ↦ ⟦<WindowAggOp as Operator>⟧.node op
      | ops.Select op ↦ ⟦<SelectOp as Operator>⟧.node op
    ] };

    ghost held = { elim [
      | ops.Rekey op ↦ ⟦<RekeyOp as Operator>⟧.held op
      | ops.Table op ↦ ⟦<TableOp as Operator>⟧.held op
      | ops.StreamTable op ↦ ⟦<StreamTableOp as Operator>⟧.held op
      | ops.TableTable op ↦ ⟦<TableTableOp as Operator>⟧.held op
      | ops.Filter op ↦ ⟦<FilterOp as Operator>⟧.held op
      | ops.Agg op ↦ ⟦<AggOp as Operator>⟧.held op
      | ops.WindowAgg op ↦ ⟦<WindowAggOp as Operator>⟧.held op
      | ops.Select op ↦ ⟦<SelectOp as Operator>⟧.held op
    ] };

    ghost failed = { elim [
      | ops.Rekey op ↦ ⟦<RekeyOp as Operator>⟧.failed op
      | ops.Table op ↦ ⟦<TableOp as Operator>⟧.failed op
      | ops.StreamTable op ↦ ⟦<StreamTableOp as Operator>⟧.failed op
      | ops.TableTable op ↦ ⟦<TableTableOp as Operator>⟧.failed op
      | ops.Filter op ↦ ⟦<FilterOp as Operator>⟧.failed op
      | ops.Agg op ↦ ⟦<AggOp as Operator>⟧.failed op
      | ops.WindowAgg op ↦ ⟦<WindowAggOp as Operator>⟧.failed op
      | ops.Select op ↦ ⟦<SelectOp as Operator>⟧.failed op
    ] };

    fn step(
        &mut self,
        alloc: Global,
        side: u32,
        change: Change,
        out: &mut Vec<Change>,
    ) -> Result<(), AllocError> {
        match self {
            Op::Rekey(op) => op.step(alloc, side, change, out),
            Op::Table(op) => op.step(alloc, side, change, out),
            Op::StreamTable(op) => op.step(alloc, side, change, out),
            Op::TableTable(op) => op.step(alloc, side, change, out),
            Op::Filter(op) => op.step(alloc, side, change, out),
            Op::Agg(op) => op.step(alloc, side, change, out),
            Op::WindowAgg(op) => op.step(alloc, side, change, out),
            Op::Select(op) => op.step(alloc, side, change, out),
        }
    }
}

impl StoredOperator for Op {
    fn changes(&mut self, alloc: Global) -> Result<Changelog, AllocError> {
        match self {
            Op::Table(op) => op.changes(alloc),
            Op::StreamTable(op) => op.changes(alloc),
            Op::TableTable(op) => op.changes(alloc),
            Op::Agg(op) => op.changes(alloc),
            Op::WindowAgg(op) => op.changes(alloc),
            // These have no stores.
            Op::Rekey(_) | Op::Filter(_) | Op::Select(_) => Ok(Changelog::of(Vec::new(alloc))),
        }
    }

    fn load(&mut self, alloc: Global, log: &[StoreEntry]) -> Result<(), AllocError> {
        match self {
            Op::Table(op) => op.load(alloc, log),
            Op::StreamTable(op) => op.load(alloc, log),
            Op::TableTable(op) => op.load(alloc, log),
            Op::Agg(op) => op.load(alloc, log),
            Op::WindowAgg(op) => op.load(alloc, log),
            Op::Rekey(_) | Op::Filter(_) | Op::Select(_) => Ok(()),
        }
    }
}

/// The operator for a node's kind.
fn operator_of(alloc: Global, node: &Node) -> Result<Op, AllocError>
    requires { IsTrue (has_operator node.now) }
    ensures node { IfOk result (λ op. ⟦<Op as Operator>⟧.node op ≡ node.now) }
    ensures sound { IfOk result (λ op. ⟦<Op as Operator>⟧.failed op ≡ false) }
{
    match node {
        Node::Rekey { .. } | Node::Group { .. } => Ok(Op::Rekey(RekeyOp::new(alloc, node)?)),
        Node::Table { .. } => Ok(Op::Table(TableOp::new(alloc, node)?)),
        Node::JoinStreamTable { .. } => Ok(Op::StreamTable(StreamTableOp::new(alloc, node)?)),
        Node::JoinTables { .. } => Ok(Op::TableTable(TableTableOp::new(alloc, node)?)),
        Node::Filter { .. } | Node::Having { .. } => Ok(Op::Filter(FilterOp::new(alloc, node)?)),
        Node::Aggregate { window: None, .. } => Ok(Op::Agg(AggOp::new(alloc, node)?)),
        Node::Aggregate {
            over: Kind::Stream,
            window: Some(_),
            ..
        } => Ok(Op::WindowAgg(WindowAggOp::new(alloc, node)?)),
        Node::Select { .. } => Ok(Op::Select(SelectOp::new(alloc, node)?)),
        // Only streams have windows.
        Node::Aggregate { .. } => unreachable!(),
    }
}
