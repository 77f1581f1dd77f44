//! The rows that a change brings and takes away.
ghost use Rattle.std.specs.Prelude.{◌≡◌, option_map};
ghost use Rattle.ksql_place.specs.Said.{row_in, row_out};

use ksql_place::Body;
use ksql_types::Row;

/// The row that a change brings: that of a stream, and the new one of a table.
pub fn row_in(body: &Body) -> Option<&Row>
    ensures { option_map (λ row. row.now) result ≡ row_in body.now }
{
    match body {
        Body::Said(row) => Some(row),
        Body::Turned { new, .. } => new.as_ref(),
    }
}

/// The row that a change brings, as `row_in` lends it, taken out of what the change says.
pub fn into_row(body: Body) -> Option<Row>
    ensures { result ≡ row_in body }
{
    match body {
        Body::Said(row) => Some(row),
        Body::Turned { new, .. } => new,
    }
}

/// The row that a change of a table takes away.
pub fn row_out(body: &Body) -> Option<&Row>
    ensures { option_map (λ row. row.now) result ≡ row_out body.now }
{
    match body {
        Body::Said(_) => None,
        Body::Turned { old, .. } => old.as_ref(),
    }
}
