ghost use Rattle.std.specs.Prelude.{◌≡◌, ◌++◌, if◌then◌else◌, IfOk, OnErr, OnOk};
ghost use Rattle.ksql_nodes.specs.declared.node.Node.TheVariants as nodes;
ghost use Rattle.ksql_nodes.specs.Rows.{filtered};
ghost use Rattle.operator.specs.Holding.{nothing};
ghost use Rattle.row_ops.specs.Kinds.{is_filter};

use ksql_expr::Typed;
use ksql_nodes::Node;
use ksql_place::Change;
use ksql_types::CopyOf;
use operator::{Guarded, Processor};
use row_steps::{filtered, push_given};
use std::alloc::{AllocError, Global};

/// The operator of WHERE and HAVING.
pub type FilterOp = Guarded<Filter>;

/// A condition, of WHERE or of HAVING.
#[derive(Drop)]
pub struct Filter {
    on: Typed,
    having: bool,
}

impl Processor for Filter {
    ghost is_of = { is_filter };

    ghost node = { λ s. if s.having then nodes.Having s.on else nodes.Filter s.on };

    ghost held = { λ s. nothing };

    fn of(alloc: Global, origin: &Node) -> Result<Filter, AllocError> {
        match origin {
            Node::Filter { on } => condition(alloc, on, false),
            Node::Having { on } => condition(alloc, on, true),
            _ => unreachable!(),
        }
    }

    fn process(
        &mut self,
        alloc: Global,
        _side: u32,
        change: Change,
        out: &mut Vec<Change>,
    ) -> Result<(), AllocError> {
        give(alloc, &self.on, change, out)
    }
}

fn condition(alloc: Global, on: &Typed, having: bool) -> Result<Filter, AllocError>
    ensures { IfOk result (λ made. (made.on ≡ on.now) × (made.having ≡ having)) }
{
    let on = on.copy(alloc)?;
    Ok(Filter { on, having })
}

/// Appends what the node gives.
fn give(alloc: Global, on: &Typed, change: Change, out: &mut Vec<Change>) -> Result<(), AllocError>
    ensures given { OnOk result (out.new.items ≡ out.old.items ++ filtered on.now change) }
    ensures unchanged { OnErr result (out.new.items ≡ out.old.items) }
{
    let given = filtered(alloc, on, change)?;
    push_given(out, given)
}
