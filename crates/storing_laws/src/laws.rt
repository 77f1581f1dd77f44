//! Laws of stored values. These functions do nothing.
ghost use Rattle.std.specs.Prelude.{◌++◌, ℕ, All, List};
ghost use Rattle.ksql_types.specs.declared.value.Value.{Value as OneValue};
ghost use Rattle.ksql_place.specs.declared.change.SourceRecord.{SourceRecord as OneRecord};
ghost use Rattle.ksql_expr.specs.Value.{value_of};
ghost use Rattle.ksql_expr.specs.declared.typed.Typed.{Typed as OneTyped};
ghost use Rattle.ksql_nodes.specs.declared.node.Node.{Node as OneNode};
ghost use Rattle.ksql_nodes.specs.Entries.{Entry as OneEntry};
ghost use Rattle.ksql_program.specs.Sound.{IsSound};
ghost use Rattle.ksql_program.specs.declared.program.Item.{Item as OneItem};
ghost use Rattle.meaning_laws.specs.Bounds.{IsInTime};
ghost use Rattle.topology.specs.Topologies.{topology_of};
ghost use Rattle.short_laws.specs.Fed.{IsFed};
ghost use Rattle.op_chain.specs.Chain.{AreStorable};
ghost use Rattle.short_laws.specs.Short.{HoldTexts, HoldsProperTexts, IsProper, IsShortRecord, IsTextRecord, KeepsProper};
ghost use Rattle.storing_laws.specs.Stored.{CanBeStored, IsProperThroughout, IsShortThroughout, KeepProper, ResultsRise};

/// If the text literals of an expression and the values of a row are short and UTF-8, so is the expression's value on
/// the row.
pub fn values_stay_short()
    ensures { (row : List OneValue) (time : ℕ) (e : OneTyped) → All IsProper row → HoldsProperTexts e → IsProper (value_of row time e) }
{}

/// From changes with short UTF-8 values nodes give changes with short UTF-8 values, whose windows, if any, start before
/// they end.
pub fn nodes_keep_changes_short()
    ensures { (n : ℕ) (nodes : List OneNode) → All KeepsProper nodes → KeepProper n nodes }
{}

/// If the records have short UTF-8 values, so have all changes in all topics, repartition topics included, and their
/// windows, if any, start before they end.
pub fn topics_are_short()
    ensures proper { (items : List OneItem) (order : List OneRecord) → IsSound items → HoldTexts items →
        All IsShortRecord order → All IsTextRecord order → IsProperThroughout items (topology_of items) order }
    ensures short { (items : List OneItem) (order : List OneRecord) → IsSound items → HoldTexts items →
        All IsShortRecord order → All IsTextRecord order → IsShortThroughout items (topology_of items) order }
{}

/// The operator of a node can store whatever comes to the node in its sub-topology: what it keeps has a spelling.
pub fn changes_can_be_stored()
    ensures { (items : List OneItem) (order : List OneRecord) → IsSound items → IsFed items order → HoldTexts items →
        All IsInTime order → All IsShortRecord order → All IsTextRecord order → CanBeStored items (topology_of items) order }
{}

/// What nodes can store as a whole they can store in two parts: the first entries, then the others.
pub fn parts_can_be_stored()
    ensures { (nodes : List OneNode) (before now later : List OneEntry) → AreStorable nodes before (now ++ later) →
        AreStorable nodes before now × AreStorable nodes (before ++ now) later }
{}

/// The results of a task for all its entries rise strictly by place.
pub fn results_rise()
    ensures { (items : List OneItem) (order : List OneRecord) → IsSound items → IsFed items order →
        ResultsRise items (topology_of items) order }
{}
