//! Laws of nodes and partitions. These functions do nothing.
ghost use Rattle.std.specs.Prelude.{◌≡◌, ℕ, List, Option, filter, map};
ghost use Rattle.std.specs.List.{AllByRecursion};
ghost use Rattle.ksql_types.specs.declared.relation.Kind.{Kind as OneKind};
ghost use Rattle.ksql_types.specs.declared.relation.Window.{Window as OneWindow};
ghost use Rattle.ksql_expr.specs.declared.typed.Typed.{Typed as OneTyped};
ghost use Rattle.ksql_program.specs.declared.query.Agg.{Agg as OneAgg};
ghost use Rattle.ksql_program.specs.declared.query.JoinKind.{JoinKind as OneJoinKind};
ghost use Rattle.ksql_nodes.specs.declared.node.Node.{Node as OneNode};
ghost use Rattle.ksql_nodes.specs.declared.node.Node.TheVariants as node;
ghost use Rattle.ksql_nodes.specs.declared.node.Side.{Side as OneSide};
ghost use Rattle.ksql_nodes.specs.Entries.{Entry as OneEntry, through};
ghost use Rattle.ksql_nodes.specs.Nodes.{gives};
ghost use Rattle.ksql_place.specs.Routing.{is_to};
ghost use Rattle.lane_laws.specs.Lanes.{AreLaned, HasKey, IsInOwnGroup, IsJoinedByKey, IsLaned, in_part};

/// What a node gives for the entries of one partition, with one stream time, is that partition's part of what it gives
/// for all entries: always for conditions, for tables and aggregates if all entries have keys, for groups if they are
/// by the own key, and for joins by the own key.
pub fn nodes_are_laned()
    ensures conditions { (n : ℕ) (on : OneTyped) (es : List OneEntry) → IsLaned n (node.Filter on) es × IsLaned n (node.Having on) es }
    ensures tables { (n number : ℕ) (es : List OneEntry) → AllByRecursion HasKey es → IsLaned n (node.Table number) es }
    ensures aggregates { (n : ℕ) (over : OneKind) (aggs : List OneAgg) (w : Option OneWindow) (es : List OneEntry) →
        AllByRecursion HasKey es → IsLaned n (node.Aggregate over aggs w) es }
    ensures groups { (n : ℕ) (keys : List OneTyped) (es : List OneEntry) →
        AllByRecursion (λ e. IsInOwnGroup keys e.change) es → IsLaned n (node.Group keys) es }
    ensures stream_joins { (n : ℕ) (kind : OneJoinKind) (on : OneTyped) (l r : OneSide) (es : List OneEntry) →
        AllByRecursion (IsJoinedByKey on) es → IsLaned n (node.JoinStreamTable kind on l r) es }
    ensures table_joins { (n : ℕ) (kind : OneJoinKind) (l r : OneSide) (es : List OneEntry) →
        AllByRecursion HasKey es → IsLaned n (node.JoinTables kind l r) es }
    ensures in_a_row { (n : ℕ) (nodes : List OneNode) (es : List OneEntry) → AreLaned n nodes es → (part : ℕ) →
        through (map (gives 1) nodes) (filter (in_part n part) es) ≡ filter (is_to n part) (through (map (gives n) nodes) es) }
{}
