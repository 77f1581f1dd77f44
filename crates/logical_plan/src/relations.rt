//! What a plan needs to know about the relations of a program.
ghost use Rattle.std.specs.Prelude.{◌≡◌};
ghost use Rattle.query_meaning.specs.Queries.{key_columns, kind_at};

use ksql_program::{Program, relation_of};
use ksql_types::Kind;

/// The kind of a relation.
pub fn kind_of(program: &Program, number: u32) -> Kind
    ensures { result ≡ kind_at program.now.items number }
{
    match program.items.items().get(number as usize) {
        Some(item) => relation_of(item).kind,
        None => Kind::Stream,
    }
}

/// The number of key columns of a relation.
pub fn key_columns(program: &Program, number: u32) -> usize
    ensures { result ≡ key_columns program.now.items number }
{
    match program.items.items().get(number as usize) {
        Some(item) => relation_of(item).schema.keys.items().len(),
        None => 0,
    }
}
