//! The traits of what an operator is made of: what it gives for one entry, and the changelog of what it keeps.
ghost use Rattle.std.specs.Prelude.{◌≡◌, IsTrue, List, [], ◌∷◌, ◌++◌, IfOk, OnOk, OnErr};
ghost use Rattle.ksql_place.specs.declared.change.Change.{Change as OneChange};
ghost use Rattle.ksql_nodes.specs.Entries.{Entry};
ghost use Rattle.ksql_nodes.specs.Nodes.{gives};
ghost use Rattle.operator.specs.Front.{IsFront};
ghost use Rattle.operator.specs.Holding.{Maps, maps_of, committed, no_maps, replayed, IsLoadable, IsOwnLog, IsBaseOf};
ghost use Rattle.operator.specs.StandsFor.{StandsFor};
ghost use Rattle.operator.specs.Storable.{IsStorable};

use ksql_nodes::Node;
use ksql_place::Change;
use ksql_types::{Changelog, StoreEntry};
use std::alloc::{AllocError, Global};

/// What an operator is made of: what a node gives for one entry, and what is held for those after it.
pub trait Processor: Drop {
    ghost use Rattle.std.specs.Prelude.{Bool};
    ghost use Rattle.ksql_nodes.specs.declared.node.Node.{Node as OneNode};
    ghost use Rattle.operator.specs.Holding.{Held};

    // Whether a node is one that this can be made of.
    ghost is_of: { OneNode → Bool };

    // The node, and what the processor holds in its stores.
    ghost node: { Self → OneNode };

    ghost held: { Self → Held };

    /// The processor of a node, before any entry.
    fn of(alloc: Global, origin: &Node) -> Result<Self, AllocError>
    where
        Self: Sized,
        requires { IsTrue (is_of origin.now) }
        ensures node { IfOk result (λ made. node made ≡ origin.now) }
        ensures stands { IfOk result (λ made. StandsFor (node made) (held made) []) };

    /// Adds to `out` what the node gives for a change that comes in on a side, after all those before it. After an error
    /// `out` has what it had, perhaps followed by a front of what the node gives.
    fn process(
        &mut self,
        alloc: Global,
        side: u32,
        change: Change,
        out: &mut Vec<Change>,
    ) -> Result<(), AllocError>
        requires { IsStorable (node self.old) side change }
        ensures same_node { node self.new ≡ node self.old }
        ensures next { OnOk result ((es : List Entry) → StandsFor (node self.old) (held self.old) es →
            let e : Entry = record { side = side; change = change } in
            (out.new.items ≡ out.old.items ++ gives 1 (node self.old) es e) × StandsFor (node self.old) (held self.new) (es ++ e ∷ [])) }
        ensures base { (base : Maps) → IsBaseOf base (held self.old) → IsBaseOf base (held self.new) }
        ensures out { OnErr result ((some : List OneChange) × (out.new.items ≡ out.old.items ++ some)
            × ((es : List Entry) → StandsFor (node self.old) (held self.old) es →
            let e : Entry = record { side = side; change = change } in
            IsFront some (gives 1 (node self.old) es e))) };
}

/// A processor with stores, which are committed and restored as those of a `StoredOperator`.
pub trait StoredProcessor: Processor {
    fn changes(&mut self, alloc: Global) -> Result<Changelog, AllocError>
        ensures same_node { Self.node self.new ≡ Self.node self.old }
        ensures replayed { IfOk result (λ log. (base : Maps) → IsBaseOf base (Self.held self.old) →
            replayed (Self.node self.old) base log ≡ maps_of (Self.held self.old)) }
        ensures loadable { IfOk result (IsLoadable (Self.node self.old)) }
        ensures own { IfOk result (IsOwnLog (Self.node self.old)) }
        ensures committed { OnOk result (Self.held self.new ≡ committed (maps_of (Self.held self.old))) }
        ensures kept { OnErr result (Self.held self.new ≡ Self.held self.old) };

    fn load(&mut self, alloc: Global, log: &[StoreEntry]) -> Result<(), AllocError>
        requires { IsLoadable (Self.node self.old) log.now }
        ensures same_node { Self.node self.new ≡ Self.node self.old }
        ensures loaded { OnOk result (Self.held self.new ≡ committed (replayed (Self.node self.old) no_maps log.now)) }
        ensures kept { OnErr result (Self.held self.new ≡ Self.held self.old) };
}
