//! Laws of the steps. These functions do nothing.
ghost use Rattle.std.specs.Prelude.{◌≡◌, ℕ, Bool, true, List, [], ◌∷◌, ◌++◌, filter, None};
ghost use Rattle.std.specs.List.{AllByRecursion};
ghost use Rattle.ksql_types.specs.declared.relation.Kind.TheVariants as kind;
ghost use Rattle.ksql_place.specs.Ascending.{PassesFirst};
ghost use Rattle.ksql_place.specs.declared.stamp.Stamp.{Stamp as OneStamp};
ghost use Rattle.ksql_expr.specs.declared.typed.Typed.{Typed as OneTyped};
ghost use Rattle.ksql_program.specs.declared.query.Agg.{Agg as OneAgg};
ghost use Rattle.ksql_nodes.specs.declared.node.Node.{Node as OneNode};
ghost use Rattle.ksql_nodes.specs.declared.node.Node.TheVariants as node;
ghost use Rattle.ksql_nodes.specs.Entries.{Entry as OneEntry, Step, results, through};
ghost use Rattle.ksql_nodes.specs.Nodes.{gives};
ghost use Rattle.ksql_nodes.specs.TableAggregates.{aggregate_of_table};
ghost use Rattle.ksql_nodes.specs.Steps.{as_one, only, Covers, IsHeld, IsTableFrom, KeepsStamp, Timeless};

/// The results of a step for one more entry come after those for the earlier entries. Every node keeps the stamps of
/// its entries, and its results depend only on the entry and the earlier entries that it looks at. So its results on a
/// part of the entries, such as one lane, are what those entries cause among all.
pub fn nodes_are_local()
    ensures more { (step : Step) (before es : List OneEntry) (e : OneEntry) →
        results step before (es ++ e ∷ []) ≡ results step before es ++ step (before ++ es) e }
    ensures stamps { (n : ℕ) (node : OneNode) → KeepsStamp (gives n node) }
    ensures local { (n : ℕ) (node : OneNode) (e : OneEntry) (p : OneEntry → Bool) → Covers n node e p →
        (before : List OneEntry) → gives n node (filter p before) e ≡ gives n node before e }
    ensures divided { (n : ℕ) (node : OneNode) (p : OneEntry → Bool) → ((e : OneEntry) → p e ≡ true → Covers n node e p) →
        (es : List OneEntry) → results (gives n node) [] (filter p es) ≡ results (only p (gives n node)) [] es }
{}

/// A chain of steps acts as one step.
pub fn chains_are_one()
    ensures { (steps : List Step) (es : List OneEntry) → through steps es ≡ results (as_one steps) [] es }
{}

/// Cutting the results is the same as cutting the entries.
pub fn chains_are_cut()
    ensures { (p : OneStamp → Bool) (steps : List Step) → AllByRecursion KeepsStamp steps → (es : List OneEntry) →
        PassesFirst (λ e. p e.change.place.stamp) es →
        filter (λ c. p c.place.stamp) (through steps es) ≡ through steps (filter (λ e. p e.change.place.stamp) es) }
{}

/// What entered a group of a table, less what left it, is what the table holds in the group.
pub fn tables_are_summed()
    ensures { (n : ℕ) (keys : List OneTyped) (aggs : List OneAgg) (es : List OneEntry) →
        AllByRecursion Timeless keys → AllByRecursion IsHeld aggs → IsTableFrom [] es →
        through (gives n (node.Group keys) ∷ gives n (node.Aggregate kind.Table aggs None) ∷ []) es
        ≡ through (aggregate_of_table keys aggs ∷ []) es }
{}
