//! Laws of the core of a program. These functions do nothing.
ghost use Rattle.std.specs.Prelude.{List};
ghost use Rattle.ksql_place.specs.declared.change.SourceRecord.{SourceRecord as OneRecord};
ghost use Rattle.ksql_program.specs.Sound.{IsSound};
ghost use Rattle.ksql_program.specs.declared.program.Item.{Item as OneItem};
ghost use Rattle.short_laws.specs.Fed.{IsFed};
ghost use Rattle.core_laws.specs.Core.{HasItsContents, HasItsQueries, KeepsGoodStates, ShowsItsQueries, StaysGood};

/// Each event keeps a good state of a sound program's core, so every state reachable from the opening state is good.
pub fn every_event_keeps_a_good_state()
    ensures each { (items : List OneItem) → IsSound items → KeepsGoodStates items }
    ensures runs { (items : List OneItem) → IsSound items → StaysGood items }
{}

/// The content of each partition in the core is what the topology has there, and so what the queries mean.
pub fn the_core_means_its_queries()
    ensures contents { (items : List OneItem) (order : List OneRecord) → IsSound items → IsFed items order → HasItsContents items order }
    ensures queries { (items : List OneItem) (order : List OneRecord) → IsSound items → IsFed items order → HasItsQueries items order }
{}

/// Whatever happens, the topics of the queries show what the queries mean on the records that were fed.
pub fn shown_changes_are_meant()
    ensures { (items : List OneItem) → IsSound items → ShowsItsQueries items }
{}
