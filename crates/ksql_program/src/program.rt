ghost use Rattle.std.specs.Prelude.{◌≡◌};
ghost use Rattle.ksql_program.specs.Program.{relation_of};

use crate::query::Query;
use ksql_types::{Items, Relation};

/// A script in the form in which it runs: its relations in the order of their statements. An item's index is its
/// relation's number.
#[derive(Debug, Drop)]
pub struct Program {
    pub items: ProgramItems,
}

/// The items of a program, in order.
pub type ProgramItems = Items<Item>;

/// A relation of a program: declared over a topic, or the result of a query.
#[derive(Debug, Drop)]
pub enum Item {
    Declared(Relation),
    Started(Query),
}

/// The relation of an item.
pub fn relation_of(item: &Item) -> &Relation
    ensures { result.now ≡ relation_of item.now }
{
    match item {
        Item::Declared(relation) => relation,
        Item::Started(query) => &query.out,
    }
}
