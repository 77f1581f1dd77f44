ghost use Rattle.std.specs.Prelude.{IfOk};
ghost use Rattle.node_tests.specs.Plain.{AreFiltered, IsPlain};

use crate::changes::column;
use ksql_nodes::Node;
use ksql_place::{Body, Change, Path, Place, Stamp};
use ksql_types::{Items, Key, SqlType, Value};
use op_chain::{Chain, Entry};
use std::alloc::{AllocError, Global};

/// A filter by the first column, and a select list of it.
fn filtered(alloc: Global) -> Result<Vec<Node>, AllocError>
    ensures { IfOk result (λ nodes. AreFiltered nodes.items) }
{
    let filter = Node::Filter {
        on: column(0, SqlType::Bool),
    };
    let select = Node::Select {
        keys: Items::of(Vec::new(alloc)),
        values: Items::of(vec![in alloc; column(0, SqlType::Bool)]?),
    };
    let nodes = vec![in alloc; filter, select]?;
    Ok(nodes)
}

/// A row of one column, of a stream.
fn entry(alloc: Global, passes: bool) -> Result<Entry, AllocError>
    ensures { IfOk result (λ entry. IsPlain entry.change) }
{
    let stamp = Stamp {
        feed: 1,
        high: 0,
        topic: 0,
        part: 0,
        offset: 0,
    };
    let change = Change {
        place: Place {
            stamp,
            path: Path::root(),
        },
        time: 0,
        key: Key::of(Vec::new(alloc)),
        span: None,
        body: Body::Said(Items::of(vec![in alloc; Value::Bool(passes)]?)),
    };
    Ok(Entry { side: 0, change })
}

/// How many of two rows, of which the first passes, come out of a filter.
pub fn passed(alloc: Global) -> Result<String, AllocError> {
    let nodes = filtered(alloc)?;
    let mut chain = Chain::new(alloc, nodes.as_slice())?;
    let entries = vec![in alloc; entry(alloc, true)?, entry(alloc, false)?]?;
    let mut out = Vec::new(alloc);
    chain.run(alloc, entries, &mut out)?;
    format!(in alloc; "{} passed", out.len())
}
