ghost use Rattle.ksql_nodes.specs.declared.node.Node.TheVariants as nodes;
ghost use Rattle.operator.specs.Holding.{nothing};
ghost use Rattle.row_ops.specs.Kinds.{is_select};

use ksql_expr::Exprs;
use ksql_nodes::Node;
use ksql_place::Change;
use ksql_types::CopyOf;
use operator::{Guarded, Processor};
use row_steps::push_selected;
use std::alloc::{AllocError, Global};

/// The operator of a select list.
pub type SelectOp = Guarded<SelectList>;

/// The expressions of a select list.
#[derive(Drop)]
pub struct SelectList {
    keys: Exprs,
    items: Exprs,
}

impl Processor for SelectList {
    ghost is_of = { is_select };

    ghost node = { λ s. nodes.Select s.keys s.items };

    ghost held = { λ s. nothing };

    fn of(alloc: Global, origin: &Node) -> Result<SelectList, AllocError> {
        match origin {
            Node::Select { keys, values } => Ok(SelectList {
                keys: keys.copy(alloc)?,
                items: values.copy(alloc)?,
            }),
            _ => unreachable!(),
        }
    }

    fn process(
        &mut self,
        alloc: Global,
        _side: u32,
        change: Change,
        out: &mut Vec<Change>,
    ) -> Result<(), AllocError> {
        let (keys, items) = (self.keys.items(), self.items.items());
        push_selected(alloc, keys, items, change, out)
    }
}
