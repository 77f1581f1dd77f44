//! The text that explains a topology.

ghost use Rattle.std.specs.Prelude.{◌≡◌, ◌++◌, IfOk, OnOk, flat_map, string_bytes};
ghost use Rattle.topology_build.specs.Text.{aggregate_kind, counts_line, join_lines, node_line, node_lines, query_name, read_line, stored_line, sub_line, sub_text, table_line, topic_name, topology_text, write_line};

use ksql_nodes::Node;
use ksql_program::{Item, Program, relation_of};
use ksql_types::{Bytes, Items, TopicSpec, Window};
use std::alloc::{AllocError, Global};
use topology::{Sub, SubInput, Topology, chain_of, tasks_of};

/// The text that explains a topology of a program: a line with its numbers, the lines of each sub-topology, and a last
/// line. A query or a topic that isn't there gets an empty name.
#[tactic(auto, unfolding(crate::specs::Text::topology_text))]
pub fn describe(alloc: Global, program: &Program, t: &Topology) -> Result<Bytes, AllocError>
    ensures { IfOk result (λ text. text ≡ topology_text program.now.items t.now) }
{
    let mut out = String::new(alloc);
    push_counts(&mut out, alloc, t)?;
    push_subs(
        &mut out,
        program.items.items(),
        t.topics.items(),
        t.subs.items(),
    )?;
    out.push_str("end\n")?;
    Ok(Items::of(out.into_bytes()))
}

/// Appends the line with a topology's numbers.
#[tactic(auto, unfolding(crate::specs::Text::counts_line))]
fn push_counts(out: &mut String, alloc: Global, t: &Topology) -> Result<(), AllocError>
    ensures { OnOk result (string_bytes out.new ≡ string_bytes out.old ++ counts_line t.now.subs) }
{
    let subs = t.subs.items().len();
    let tasks = tasks_of(alloc, t)?.len();
    let chain = chain_of(alloc, t)?;
    writeln!(out, "subs={subs} tasks={tasks} chain={chain}")
}

/// Appends the lines of each sub-topology.
fn push_subs(
    out: &mut String,
    items: &[Item],
    topics: &[TopicSpec],
    subs: &[Sub],
) -> Result<(), AllocError>
    ensures { OnOk result (string_bytes out.new
        ≡ string_bytes out.old ++ flat_map (sub_text items.now topics.now) subs.now) }
{
    for sub in subs {
        push_sub(out, items, topics, sub)?;
    }
    Ok(())
}

/// Appends the lines of a sub-topology.
#[tactic(auto, unfolding(crate::specs::Text::sub_text))]
fn push_sub(
    out: &mut String,
    items: &[Item],
    topics: &[TopicSpec],
    sub: &Sub,
) -> Result<(), AllocError>
    ensures { OnOk result (string_bytes out.new ≡ string_bytes out.old ++ sub_text items.now topics.now sub.now) }
{
    let query = query_name(items, sub.query);
    push_sub_line(out, query, sub)?;
    push_inputs(out, topics, sub.inputs.items())?;
    push_nodes(out, query, sub.nodes.items())?;
    push_output(out, topics, sub.output)
}

/// Appends the first line of a sub-topology of this query.
#[tactic(auto, unfolding(crate::specs::Text::sub_line))]
fn push_sub_line(out: &mut String, query: &str, sub: &Sub) -> Result<(), AllocError>
    ensures { OnOk result (string_bytes out.new ≡ string_bytes out.old ++ sub_line query.now sub.now) }
{
    writeln!(
        out,
        "sub {} {query} partitions={}",
        sub.number, sub.partitions
    )
}

/// Appends the lines of the topics that a sub-topology reads.
fn push_inputs(
    out: &mut String,
    topics: &[TopicSpec],
    inputs: &[SubInput],
) -> Result<(), AllocError>
    ensures { OnOk result (string_bytes out.new ≡ string_bytes out.old ++ flat_map (read_line topics.now) inputs.now) }
{
    for input in inputs {
        push_input(out, topics, *input)?;
    }
    Ok(())
}

/// Appends the line of a topic that a sub-topology reads.
#[tactic(auto, unfolding(crate::specs::Text::read_line))]
fn push_input(out: &mut String, topics: &[TopicSpec], input: SubInput) -> Result<(), AllocError>
    ensures { OnOk result (string_bytes out.new ≡ string_bytes out.old ++ read_line topics.now input) }
{
    let topic = topic_name(topics, input.topic);
    writeln!(out, "read {topic}")
}

/// Appends the line of the topic that a sub-topology writes.
#[tactic(auto, unfolding(crate::specs::Text::write_line))]
fn push_output(out: &mut String, topics: &[TopicSpec], output: u32) -> Result<(), AllocError>
    ensures { OnOk result (string_bytes out.new ≡ string_bytes out.old ++ write_line topics.now output) }
{
    let topic = topic_name(topics, output);
    writeln!(out, "write {topic}")
}

/// Appends the lines of nodes of this query.
fn push_nodes(out: &mut String, query: &str, nodes: &[Node]) -> Result<(), AllocError>
    ensures { OnOk result (string_bytes out.new ≡ string_bytes out.old ++ flat_map (node_lines query.now) nodes.now) }
{
    for node in nodes {
        push_node(out, query, node)?;
    }
    Ok(())
}

/// Appends the lines of a node of this query.
#[tactic(auto, unfolding(crate::specs::Text::node_lines))]
fn push_node(out: &mut String, query: &str, node: &Node) -> Result<(), AllocError>
    ensures { OnOk result (string_bytes out.new ≡ string_bytes out.old ++ node_lines query.now node.now) }
{
    match node {
        Node::Rekey { .. } => push_node_line(out, "rekey"),
        Node::Table { .. } => push_table(out, query, "left"),
        Node::JoinStreamTable { .. } => push_join(out, query, "join-stream-table"),
        Node::JoinTables { .. } => {
            push_table(out, query, "left")?;
            push_join(out, query, "join-table-table")
        }
        Node::Filter { .. } => push_node_line(out, "filter"),
        Node::Group { .. } => push_node_line(out, "group"),
        Node::Aggregate { window, .. } => push_stored(
            out,
            query,
            aggregate_kind(*window),
            "aggregate",
        ),
        Node::Having { .. } => push_node_line(out, "having"),
        Node::Select { .. } => push_node_line(out, "select"),
    }
}

/// Appends the lines of a join and of the table on its right side.
#[tactic(auto, unfolding(crate::specs::Text::join_lines))]
fn push_join(out: &mut String, query: &str, kind: &str) -> Result<(), AllocError>
    ensures { OnOk result (string_bytes out.new ≡ string_bytes out.old ++ join_lines query.now kind.now) }
{
    push_table(out, query, "right")?;
    push_node_line(out, kind)
}

/// The name of an aggregate, with a window and without.
fn aggregate_kind(window: Option<Window>) -> &'static str
    ensures { result.now ≡ aggregate_kind window }
{
    match window {
        Some(_) => "window-aggregate",
        None => "aggregate",
    }
}

/// Appends the line of a node without a store.
#[tactic(auto, unfolding(crate::specs::Text::node_line))]
fn push_node_line(out: &mut String, kind: &str) -> Result<(), AllocError>
    ensures { OnOk result (string_bytes out.new ≡ string_bytes out.old ++ node_line kind.now) }
{
    writeln!(out, "node {kind}")
}

/// Appends the line of a table that a query reads on a side.
fn push_table(out: &mut String, query: &str, side: &str) -> Result<(), AllocError>
    ensures { OnOk result (string_bytes out.new ≡ string_bytes out.old ++ table_line query.now side.now) }
{
    push_stored(out, query, "table", side)
}

/// Appends the line of a node with a store.
#[tactic(auto, unfolding(crate::specs::Text::stored_line, crate::specs::Text::changelog_name))]
fn push_stored(out: &mut String, query: &str, kind: &str, store: &str) -> Result<(), AllocError>
    ensures { OnOk result (string_bytes out.new ≡ string_bytes out.old ++ stored_line query.now kind.now store.now) }
{
    writeln!(out, "node {kind} ksql-{query}-{store}-changelog")
}

/// The name of the query of an item, or the empty text if there is none.
fn query_name(items: &[Item], number: u32) -> &str
    ensures { result.now ≡ query_name items.now number }
{
    match items.get(number as usize) {
        Some(item) => relation_of(item).name.items(),
        None => "",
    }
}

/// The name of the topic with this number, or the empty text if there is none.
fn topic_name(topics: &[TopicSpec], number: u32) -> &str
    ensures { result.now ≡ topic_name topics.now number }
{
    match topics.get(number as usize) {
        Some(topic) => topic.name.items(),
        None => "",
    }
}
