//! What the stages of a query need to know about the relations of a program.
ghost use Rattle.std.specs.Prelude.{◌≡◌, IfOk, length};
ghost use Rattle.ksql_types.specs.Columns.{columns};
ghost use Rattle.query_meaning.specs.Queries.{partitions_at, side_at};

use ksql_nodes::Side;
use ksql_program::{Program, relation_of};
use ksql_types::Relation;
use std::alloc::AllocError;

/// The partitions of a relation.
pub fn partitions_of(program: &Program, number: u32) -> u32
    ensures { result ≡ partitions_at program.now.items number }
{
    match program.items.items().get(number as usize) {
        Some(item) => relation_of(item).partitions,
        None => 1,
    }
}

/// A side of a join. Fails with out of memory for a relation with 2^32 or more columns, which no script makes.
pub fn side_of(program: &Program, number: u32) -> Result<Side, AllocError>
    ensures { IfOk result (λ side. side ≡ side_at program.now.items number) }
{
    let count = match program.items.items().get(number as usize) {
        Some(item) => columns_of(relation_of(item))?,
        None => 0,
    };
    Ok(Side {
        relation: number,
        columns: count,
    })
}

/// The number of columns of a relation. Fails with out of memory for 2^32 or more.
fn columns_of(relation: &Relation) -> Result<u32, AllocError>
    ensures { IfOk result (λ count. count ≡ length (columns relation.now)) }
{
    let (keys, values) = (relation.schema.keys.items(), relation.schema.values.items());
    let count = keys.len() as u128 + values.len() as u128;
    u32::try_from(count).map_err(|_| AllocError)
}
