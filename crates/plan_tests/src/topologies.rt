use crate::texts::chars;
use ksql_expr::{Typed, TypedNode};
use ksql_nodes::{Node, Side};
use ksql_program::{From, Item, JoinKind, Program, Query, Shape};
use ksql_types::{Chars, Format, Items, Kind, Relation, Schema, SqlType, TopicSpec, Window};
use std::alloc::{AllocError, Global};
use std::str;
use topology::{Sub, SubInput, Topology, chain_of, tasks_of};
use topology_build::describe;

/// A query of this name over the first relation.
fn query(alloc: Global, name: &str) -> Result<Item, AllocError> {
    let out = Relation {
        number: 0,
        name: chars(alloc, name)?,
        kind: Kind::Table,
        schema: Schema {
            keys: Items::of(Vec::new(alloc)),
            values: Items::of(Vec::new(alloc)),
        },
        topic: Chars::of(String::new(alloc))?,
        partitions: 1,
        format: Format::Json,
        declared: false,
    };
    Ok(Item::Started(Query {
        from: From::One { relation: 0 },
        filter: None,
        shape: Shape::Plain {
            keys: Items::of(Vec::new(alloc)),
            values: Items::of(Vec::new(alloc)),
        },
        out,
    }))
}

/// A program of queries of the names of a text, with commas between them.
fn program(alloc: Global, names: &str) -> Result<Program, AllocError> {
    let mut items = Vec::new(alloc);
    for name in names.split(',') {
        items.push(query(alloc, name)?)?;
    }
    Ok(Program {
        items: Items::of(items),
    })
}

/// Topics of the names of a text, with commas between them.
fn topics(alloc: Global, names: &str) -> Result<Items<TopicSpec>, AllocError> {
    let mut topics = Vec::new(alloc);
    for name in names.split(',') {
        topics.push(TopicSpec {
            number: 0,
            name: chars(alloc, name)?,
            partitions: 1,
            writer: None,
        })?;
    }
    Ok(Items::of(topics))
}

fn column() -> Typed {
    Typed {
        ty: Some(SqlType::Int),
        node: TypedNode::Column(0),
    }
}

const SIDE: Side = Side {
    relation: 0,
    columns: 1,
};

const MINUTE: Window = Window {
    size: 60000,
    advance: 60000,
    grace: 0,
};

fn joined(word: &str) -> Node {
    match word {
        "join-tables" => Node::JoinTables {
            kind: JoinKind::Full,
            left: SIDE,
            right: SIDE,
        },
        _ => Node::JoinStreamTable {
            kind: JoinKind::Inner,
            on: column(),
            left: SIDE,
            right: SIDE,
        },
    }
}

fn aggregate(alloc: Global, window: Option<Window>) -> Node {
    Node::Aggregate {
        over: Kind::Stream,
        aggs: Items::of(Vec::new(alloc)),
        window,
    }
}

/// The node of a word; that of a number is of the table with this number.
fn node(alloc: Global, word: &str) -> Node {
    match word {
        "filter" => Node::Filter { on: column() },
        "rekey" => Node::Rekey { key: column() },
        "having" => Node::Having { on: column() },
        "group" => Node::Group {
            keys: Items::of(Vec::new(alloc)),
        },
        "aggregate" => aggregate(alloc, None),
        "window" => aggregate(alloc, Some(MINUTE)),
        "select" => Node::Select {
            keys: Items::of(Vec::new(alloc)),
            values: Items::of(Vec::new(alloc)),
        },
        _ => match word.parse::<u32>() {
            Ok(relation) => Node::Table { relation },
            Err(_) => joined(word),
        },
    }
}

fn nodes(alloc: Global, text: &str) -> Result<Vec<Node>, AllocError> {
    let mut nodes = Vec::new(alloc);
    for word in text.split_whitespace() {
        nodes.push(node(alloc, word))?;
    }
    Ok(nodes)
}

/// The numbers of a text with blanks between them.
fn numbers(alloc: Global, text: &str) -> Result<Vec<u32>, AllocError> {
    let mut numbers = Vec::new(alloc);
    for word in text.split_whitespace() {
        numbers.push(word.parse::<u32>().unwrap_or(0))?;
    }
    Ok(numbers)
}

fn inputs(alloc: Global, topics: &[u32]) -> Result<Vec<SubInput>, AllocError> {
    let mut inputs = Vec::new(alloc);
    for topic in topics {
        inputs.push(SubInput {
            topic: *topic,
            relation: 0,
            keys: 0,
        })?;
    }
    Ok(inputs)
}

/// The sub-topology of a text `NUMBER QUERY PARTITIONS OUTPUT INPUT ..: NODE ..`.
fn sub(alloc: Global, text: &str) -> Result<Sub, AllocError> {
    let (front, words) = text.split_once(':').unwrap_or((text, ""));
    let numbers = numbers(alloc, front)?;
    let [number, query, partitions, output, topics @ ..] = numbers.as_slice() else {
        return Err(AllocError);
    };
    Ok(Sub {
        number: *number,
        query: *query,
        partitions: *partitions,
        inputs: Items::of(inputs(alloc, topics)?),
        nodes: Items::of(nodes(alloc, words)?),
        output: *output,
    })
}

/// The sub-topologies of a text, with `;` between each two.
fn subs(alloc: Global, text: &str) -> Result<Vec<Sub>, AllocError> {
    let mut subs = Vec::new(alloc);
    for text in text.split(';') {
        subs.push(sub(alloc, text)?)?;
    }
    Ok(subs)
}

/// The length of the longest chain of some sub-topologies, and their tasks.
pub fn tasks(alloc: Global, text: &str) -> Result<String, AllocError> {
    let topology = Topology {
        topics: Items::of(Vec::new(alloc)),
        subs: Items::of(subs(alloc, text)?),
    };
    let mut tasks = format!(in alloc; "chain {}", chain_of(alloc, &topology)?)?;
    for task in tasks_of(alloc, &topology)?.as_slice() {
        write!(tasks, " {}_{}", task.sub, task.part)?;
    }
    Ok(tasks)
}

/// The text that explains a topology, from a text `QUERIES | TOPICS | SUBS`.
pub fn explained(alloc: Global, text: &str) -> Result<String, AllocError> {
    let (queries, rest) = text.split_once(" | ").unwrap_or((text, ""));
    let (names, text) = rest.split_once(" | ").unwrap_or((rest, ""));
    let program = program(alloc, queries)?;
    let topology = Topology {
        topics: topics(alloc, names)?,
        subs: Items::of(subs(alloc, text)?),
    };
    let bytes = describe(alloc, &program, &topology)?;
    String::from_str(alloc, str::from_utf8(bytes.items()).unwrap_or("no text"))
}
