//! The law of the core. Its function does nothing.
ghost use Rattle.std.specs.Prelude.{List, ℕ};
ghost use Rattle.ksql_types.specs.declared.relation.StoreEntry.{StoreEntry as OneEntry};
ghost use Rattle.ksql_types.specs.declared.relation.TaskName.{TaskName as OneTask};
ghost use Rattle.ksql_place.specs.declared.change.Change.{Change as OneChange};
ghost use Rattle.core_state.specs.Law.{EventsKeepGood, NumbersDecide, RunsAreGood};
ghost use Rattle.core_state.specs.Meaning.{Meaning, Means};
ghost use Rattle.core_state.specs.Whole.{AreStores, Holding, HoldsWell, StepsWell, held_by};
ghost use Rattle.core_state.specs.Wired.{AreCounted, CutsAlike, IsStaged, IsWired, Wiring, mean_of};

/// Every event keeps a good state, so every state reachable from the opening state is good. The meaning of an order cut
/// at a feed is the meaning of the whole order, cut there. Two good states with the same numbers show the same.
pub fn events_keep_good()
    ensures each { (w : Wiring OneChange) (one : OneTask → List OneChange → OneChange → List OneChange) (topics : List ℕ) (hold : Holding OneChange (List OneEntry)) →
        StepsWell w one → IsWired w → IsStaged w topics → HoldsWell w (AreStores hold) hold.replay → EventsKeepGood (held_by w hold) AreCounted (mean_of w topics) }
    ensures runs { (w : Wiring OneChange) (one : OneTask → List OneChange → OneChange → List OneChange) (topics : List ℕ) (hold : Holding OneChange (List OneEntry)) →
        StepsWell w one → IsWired w → IsStaged w topics → HoldsWell w (AreStores hold) hold.replay → RunsAreGood (held_by w hold) AreCounted (mean_of w topics) }
    ensures cut { (w : Wiring OneChange) (one : OneTask → List OneChange → OneChange → List OneChange) (topics : List ℕ) →
        StepsWell w one → IsStaged w topics → CutsAlike w topics }
    ensures numbers { (w : Wiring OneChange) (hold : Holding OneChange (List OneEntry)) (d : Meaning OneChange) → Means (held_by w hold) d → NumbersDecide (held_by w hold) d }
{}
