ghost use Rattle.std.specs.Prelude.{◌≡◌, Bool, true, List, [], ◌∷◌, ◌++◌, IfOk, OnOk, OnErr, IsErr};
ghost use Rattle.ksql_place.specs.declared.change.Change.{Change as OneChange};
ghost use Rattle.ksql_nodes.specs.declared.node.Node.{Node};
ghost use Rattle.ksql_nodes.specs.Entries.{Entry};
ghost use Rattle.ksql_nodes.specs.Nodes.{gives};
ghost use Rattle.operator.specs.Front.{IsFront};
ghost use Rattle.operator.specs.Holding.{Held, Maps, maps_of, committed, no_maps, replayed, IsLoadable, IsOwnLog, IsBaseOf};
ghost use Rattle.operator.specs.StandsFor.{StandsFor};
ghost use Rattle.operator.specs.Storable.{IsStorable};

use ksql_place::Change;
use ksql_types::{Changelog, StoreEntry};
use std::alloc::{AllocError, Global};

/// An operator gives what its node gives, entry by entry. `node` is the node, `held` the content of the operator's
/// stores, and `failed` whether memory ran out in a step.
pub trait Operator {
    ghost node: { Self → Node };

    ghost held: { Self → Held };

    ghost failed: { Self → Bool };

    /// Appends to `out` what the node gives for a change that comes in on a side, after all earlier ones: whichever
    /// entries the operator stood for, it then stands for these and the new one. After a step ran out of memory, every
    /// later step fails in the same way, and `out` keeps its content, perhaps followed by a front of what the node gives.
    fn step(
        &mut self,
        alloc: Global,
        side: u32,
        change: Change,
        out: &mut Vec<Change>,
    ) -> Result<(), AllocError>
        requires { IsStorable (node self.old) side change }
        ensures same_node { node self.new ≡ node self.old }
        ensures next { OnOk result ((es : List Entry) → StandsFor (node self.old) (held self.old) es →
            let e : Entry = record { side = side; change = change } in
            (out.new.items ≡ out.old.items ++ gives 1 (node self.old) es e) × StandsFor (node self.old) (held self.new) (es ++ e ∷ [])) }
        ensures base { (base : Maps) → IsBaseOf base (held self.old) → IsBaseOf base (held self.new) }
        ensures failing { failed self.old ≡ true → IsErr result }
        ensures err { OnErr result ((failed self.new ≡ true) × ((some : List OneChange) × (out.new.items ≡ out.old.items ++ some)
            × ((es : List Entry) → StandsFor (node self.old) (held self.old) es →
            let e : Entry = record { side = side; change = change } in
            IsFront some (gives 1 (node self.old) es e)))) };
}

/// An operator with stores, which are committed and restored by their changelogs.
pub trait StoredOperator: Operator {
    /// Commits, and returns the changes of the stores since the last commit: store 0 is the left table's, 1 the right
    /// table's, 2 that of groups or windows. After an error the operator is unchanged.
    fn changes(&mut self, alloc: Global) -> Result<Changelog, AllocError>
        ensures same_node { Self.node self.new ≡ Self.node self.old }
        ensures same_failed { Self.failed self.new ≡ Self.failed self.old }
        ensures replayed { IfOk result (λ log. (base : Maps) → IsBaseOf base (Self.held self.old) →
            replayed (Self.node self.old) base log ≡ maps_of (Self.held self.old)) }
        ensures loadable { IfOk result (IsLoadable (Self.node self.old)) }
        ensures own { IfOk result (IsOwnLog (Self.node self.old)) }
        ensures committed { OnOk result (Self.held self.new ≡ committed (maps_of (Self.held self.old))) }
        ensures kept { OnErr result (Self.held self.new ≡ Self.held self.old) };

    /// Replaces the stores by the replay of a log on empty stores. After an error the operator is unchanged.
    fn load(&mut self, alloc: Global, log: &[StoreEntry]) -> Result<(), AllocError>
        requires { IsLoadable (Self.node self.old) log.now }
        ensures same_node { Self.node self.new ≡ Self.node self.old }
        ensures same_failed { Self.failed self.new ≡ Self.failed self.old }
        ensures loaded { OnOk result (Self.held self.new ≡ committed (replayed (Self.node self.old) no_maps log.now)) }
        ensures kept { OnErr result (Self.held self.new ≡ Self.held self.old) };
}
