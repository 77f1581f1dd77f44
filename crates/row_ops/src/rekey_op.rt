ghost use Rattle.std.specs.Prelude.{◌≡◌, ◌++◌, IfOk, OnErr, OnOk, IsTrue};
ghost use Rattle.operator.specs.Holding.{nothing};
ghost use Rattle.row_ops.specs.Kinds.{is_rekey};
ghost use Rattle.row_ops.specs.Keying.{node_of, given_by};

use ksql_expr::{Exprs, Typed};
use ksql_nodes::Node;
use ksql_place::Change;
use ksql_types::CopyOf;
use operator::{Guarded, Processor};
use row_steps::{push_given, push_grouped, rekeyed};
use std::alloc::{AllocError, Global};

/// The operator that gives changes a new key, for a join or a group.
pub type RekeyOp = Guarded<Keying>;

/// What gives a change its key: the key of a join, or the values of GROUP BY.
#[derive(Drop)]
pub enum Keying {
    Join(Typed),
    Group(Exprs),
}

impl Processor for Keying {
    ghost is_of = { is_rekey };

    ghost node = { node_of };

    ghost held = { λ s. nothing };

    fn of(alloc: Global, origin: &Node) -> Result<Keying, AllocError> {
        keying_of(alloc, origin)
    }

    fn process(
        &mut self,
        alloc: Global,
        _side: u32,
        change: Change,
        out: &mut Vec<Change>,
    ) -> Result<(), AllocError> {
        give(alloc, self, change, out)
    }
}

/// What gives the node's changes their key.
fn keying_of(alloc: Global, node: &Node) -> Result<Keying, AllocError>
    requires { IsTrue (is_rekey node.now) }
    ensures { IfOk result (λ made. node_of made ≡ node.now) }
{
    match node {
        Node::Rekey { key } => Ok(Keying::Join(key.copy(alloc)?)),
        Node::Group { keys } => Ok(Keying::Group(keys.copy(alloc)?)),
        _ => unreachable!(),
    }
}

/// Appends a change under its new key; grouped, its old and new rows may have different keys.
fn give(
    alloc: Global,
    keying: &Keying,
    change: Change,
    out: &mut Vec<Change>,
) -> Result<(), AllocError>
    ensures given { OnOk result (out.new.items ≡ out.old.items ++ given_by keying.now change) }
    ensures unchanged { OnErr result (out.new.items ≡ out.old.items) }
{
    match keying {
        Keying::Join(key) => {
            let given = rekeyed(alloc, key, change)?;
            push_given(out, given)
        }
        Keying::Group(keys) => push_grouped(alloc, keys.items(), change, out),
    }
}
