//! Laws of the meaning of programs. These functions do nothing.
ghost use Rattle.std.specs.Prelude.{All, List};
ghost use Rattle.ksql_place.specs.Ascending.{Rises};
ghost use Rattle.ksql_place.specs.Order.{record_cmp};
ghost use Rattle.ksql_place.specs.declared.change.SourceRecord.{SourceRecord as OneRecord};
ghost use Rattle.ksql_program.specs.declared.program.Item.{Item as OneItem};
ghost use Rattle.ksql_program.specs.Sound.{IsSound};
ghost use Rattle.query_meaning.specs.Meaning.{meaning};
ghost use Rattle.meaning_laws.specs.Bounds.{HaveColumns, IsInTime, IsRecordOf, IsSmall};
ghost use Rattle.meaning_laws.specs.Places.{ArePlaced};
ghost use Rattle.meaning_laws.specs.Prefixes.{IsMeantByFeeds};
ghost use Rattle.meaning_laws.specs.Tables.{TablesTurn};

/// The meaning of the records up to a feed is the meaning of all records, cut at that feed.
pub fn prefixes_are_meant()
    ensures { (items : List OneItem) (order : List OneRecord) → Rises record_cmp order → IsMeantByFeeds items order }
{}

/// The places of each relation rise, and under one stamp no path of a relation is a prefix of another.
pub fn places_rise()
    ensures { (items : List OneItem) (order : List OneRecord) → IsSound items → Rises record_cmp order →
        All ArePlaced (meaning items order) }
{}

/// In the changes of each table, the old row of a change is the new row of the latest earlier change of its key, and
/// absent if there is none.
pub fn old_is_the_latest_new()
    ensures { (items : List OneItem) (order : List OneRecord) → IsSound items → TablesTurn items (meaning items order) }
{}

/// If the records have times of at most 2^53, so have all changes, and the paths have at most 512 numbers.
pub fn changes_are_small()
    ensures { (items : List OneItem) (order : List OneRecord) → IsSound items → All IsInTime order →
        All (λ changes. All IsSmall changes) (meaning items order) }
{}

/// If the records have keys and rows of their relations' columns, so have all changes.
pub fn changes_have_columns()
    ensures { (items : List OneItem) (order : List OneRecord) → IsSound items → All (IsRecordOf items) order →
        HaveColumns items (meaning items order) }
{}
