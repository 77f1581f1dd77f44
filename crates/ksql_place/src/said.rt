ghost use Rattle.std.specs.Prelude.{◌≡◌};
ghost use Rattle.std.specs.Option.{option_map};
ghost use Rattle.ksql_place.specs.Said.{is_skipped, row_in, said_by};

use crate::change::{Decoded, SourceRecord};
use ksql_types::{Key, Kind, Relation, Row};

/// What a record says to a relation of this kind: a row, or for a table also that its key has no row any more. `None`
/// if the record is skipped, as a table skips one without a key. Records say nothing to a windowed table.
pub fn said_by<'a>(kind: Kind, key: &Key, value: &'a Decoded) -> Option<Option<&'a Row>>
    ensures { option_map (λ said. option_map (λ row. row.now) said) result ≡ option_map row_in (said_by kind key.now value.now) }
{
    match (kind, value) {
        (Kind::Stream, Decoded::Good(row)) => Some(Some(row)),
        (Kind::Table, Decoded::Good(row)) if !key.items().is_empty() => Some(Some(row)),
        (Kind::Table, Decoded::Tombstone) if !key.items().is_empty() => Some(None),
        _ => None,
    }
}

/// Whether the record is in the relation's topic and is skipped there.
pub fn is_skipped(relation: &Relation, record: &SourceRecord) -> bool
    ensures { result ≡ is_skipped relation.now «record».now }
{
    record.stamp.topic == relation.number
        && said_by(relation.kind, &record.key, &record.value).is_none()
}
