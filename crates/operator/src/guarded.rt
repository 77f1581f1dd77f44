//! The operator of a processor, which fails for good once memory ran out in a step.
ghost use Rattle.std.specs.Prelude.{◌≡◌, false, [], IfOk, IsTrue};
ghost use Rattle.operator.specs.StandsFor.{StandsFor};

use crate::operator::{Operator, StoredOperator};
use crate::processor::{Processor, StoredProcessor};
use ksql_nodes::Node;
use ksql_place::Change;
use ksql_types::{Changelog, StoreEntry};
use std::alloc::{AllocError, Global};

/// The operator of a processor: once memory ran out in a step, every later step is an error.
#[derive(Drop)]
pub struct Guarded<P> {
    processor: P,
    failed: bool,
}

impl<P: Processor> Guarded<P> {
    /// The operator of a node, before any entry.
    pub fn new(alloc: Global, node: &Node) -> Result<Guarded<P>, AllocError>
        requires { IsTrue (P.is_of node.now) }
        ensures node { IfOk result (λ made. ⟦<Guarded<P> as Operator>⟧.node made ≡ node.now) }
        ensures stands { IfOk result (λ made. StandsFor (⟦<Guarded<P> as Operator>⟧.node made) (⟦<Guarded<P> as Operator>⟧.held made) []) }
        ensures sound { IfOk result (λ made. ⟦<Guarded<P> as Operator>⟧.failed made ≡ false) }
    {
        Ok(Guarded {
            processor: P::of(alloc, node)?,
            failed: false,
        })
    }
}

impl<P: Processor> Operator for Guarded<P> {
    ghost node = { λ s. P.node s.processor };

    ghost held = { λ s. P.held s.processor };

    ghost failed = { λ s. s.failed };

    fn step(
        &mut self,
        alloc: Global,
        side: u32,
        change: Change,
        out: &mut Vec<Change>,
    ) -> Result<(), AllocError> {
        if self.failed {
            return Err(AllocError);
        }
        let stepped = self.processor.process(alloc, side, change, out);
        self.failed = stepped.is_err();
        stepped
    }
}

impl<P: StoredProcessor> StoredOperator for Guarded<P> {
    fn changes(&mut self, alloc: Global) -> Result<Changelog, AllocError> {
        self.processor.changes(alloc)
    }

    fn load(&mut self, alloc: Global, log: &[StoreEntry]) -> Result<(), AllocError> {
        self.processor.load(alloc, log)
    }
}
