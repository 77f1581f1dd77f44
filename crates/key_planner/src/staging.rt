//! The stages of a query.
ghost use Rattle.std.specs.Prelude.{◌≡◌, Bool, IfOk};
ghost use Rattle.ksql_nodes.specs.declared.node.Node.{Node as OneNode};
ghost use Rattle.ksql_nodes.specs.declared.node.Node.TheVariants as node;
ghost use Rattle.ksql_program.specs.declared.query.Query.{Query as OneQuery};
ghost use Rattle.query_meaning.specs.Queries.{side_at};
ghost use Rattle.topology.specs.Stages.{stages_of};
ghost use Rattle.logical_plan.specs.Plans.{plan_of};
ghost use Rattle.key_planner.specs.Cuts.{as_side, both, closed, cut, grouped, has_steps, joined, opened, read, stages_from, with_node};
ghost use Rattle.key_planner.specs.declared.staging.Open.{Open as OneOpen};

use crate::keys::{is_own_key, leftmost};
use crate::made::Keyed;
use crate::relations::{partitions_of, side_of};
use ksql_expr::{Exprs, Typed};
use ksql_nodes::{Node, Nodes};
use ksql_program::{JoinKind, Program};
use ksql_types::{Boxed, Items, Kind};
use logical_plan::{Plan, kind_of};
use std::alloc::{AllocError, Global};
use topology::{CutName, Link, Links, Stage, Stages};

/// The stages so far: the closed ones, and the topics and nodes of the open one. `leftmost` is the leftmost relation
/// that is read.
#[derive(Debug, Drop)]
struct Open {
    stages: Stages,
    inputs: Links,
    nodes: Nodes,
    leftmost: u32,
}

/// A result, unless memory ran out.
type Made<T> = Result<T, AllocError>;

/// Cuts the plan of a query of the program into stages: after the rekeyed side of a join, and before an aggregate whose
/// groups aren't by the key of its input. A tree without a select list at its top has no stages.
pub fn keyed(alloc: Global, plan: Plan, program: &Program) -> Result<Keyed, AllocError>
    ensures cuts { IfOk result (λ k. (q : OneQuery) → plan ≡ plan_of program.now.items q → k.stages ≡ stages_of program.now.items q) }
{
    Ok(Keyed {
        stages: stages_from(alloc, program, plan)?,
    })
}

/// The stages of a plan.
#[tactic(auto, using(crate::proofs::Parts::stage_forms))]
fn stages_from(alloc: Global, program: &Program, plan: Plan) -> Made<Stages>
    ensures { IfOk result (λ stages. stages ≡ stages_from program.now.items plan) }
{
    match plan {
        Plan::Select {
            keys,
            values,
            out,
            arg,
        } => {
            let last = opened(alloc, program, arg.into_inner());
            let selected = with_node(last, Node::Select { keys, values })?;
            closed(program, selected, Link::Relation(out))
        }
        other => {
            drop(other);
            Ok(Items::of(Vec::new(alloc)))
        }
    }
}

/// Walks a plan and adds each step to the open stage.
#[cycle(opened)]
#[tactic(auto, using(crate::proofs::Parts::opened_forms))]
fn opened(alloc: Global, program: &Program, plan: Plan) -> Made<Open>
    ensures { IfOk result (λ o. o ≡ opened program.now.items plan) }
{
    match plan {
        Plan::Source { relation } => read(alloc, program, relation),
        Plan::Filter { on, arg } => with_node(below(alloc, program, arg), Node::Filter { on }),
        Plan::Rekey { key, arg } => with_node(below(alloc, program, arg), Node::Rekey { key }),
        Plan::JoinStreamTable {
            kind,
            on,
            left,
            right,
        } => {
            let (first, second) = (leftmost(left.get()), leftmost(right.get()));
            let node = stream_join(program, kind, on, first, second);
            let left = below(alloc, program, left);
            joined(alloc, program, node, left, below(alloc, program, right))
        }
        Plan::JoinTables { kind, left, right } => {
            let (first, second) = (leftmost(left.get()), leftmost(right.get()));
            let node = table_join(program, kind, first, second);
            let left = below(alloc, program, left);
            joined(alloc, program, node, left, below(alloc, program, right))
        }
        Plan::Group { keys, arg } => {
            let own = is_own_key(program, keys.items(), arg.get());
            grouped(alloc, program, own, keys, below(alloc, program, arg))
        }
        Plan::Aggregate {
            over,
            aggs,
            window,
            arg,
        } => with_node(
            below(alloc, program, arg),
            Node::Aggregate { over, aggs, window },
        ),
        Plan::Having { on, arg } => with_node(below(alloc, program, arg), Node::Having { on }),
        Plan::Select {
            keys,
            values,
            arg,
            ..
        } => with_node(below(alloc, program, arg), Node::Select { keys, values }),
    }
}

/// Walks a part of a plan.
#[cycle(opened)]
fn below(alloc: Global, program: &Program, plan: Boxed<Plan>) -> Made<Open>
    ensures { IfOk result (λ o. o ≡ opened program.now.items plan) }
{
    opened(alloc, program, plan.into_inner())
}

/// Reads a relation; a table's records become its changes first.
fn read(alloc: Global, program: &Program, relation: u32) -> Made<Open>
    ensures { IfOk result (λ o. o ≡ read program.now.items relation) }
{
    let mut nodes = Vec::new(alloc);
    if kind_of(program, relation) == Kind::Table {
        nodes.push(Node::Table { relation })?;
    }
    let inputs = vec![in alloc; Link::Relation(relation)]?;
    Ok(Open {
        stages: Items::of(Vec::new(alloc)),
        inputs: Items::of(inputs),
        nodes: Items::of(nodes),
        leftmost: relation,
    })
}

/// Appends a step to the open stage.
fn with_node(last: Made<Open>, node: Node) -> Made<Open>
    ensures { (o : OneOpen) → IfOk last (λ x. x ≡ o) → IfOk result (λ made. made ≡ with_node node o) }
{
    let Open {
        stages,
        inputs,
        nodes,
        leftmost,
    } = last?;
    let mut nodes = nodes.into_items();
    nodes.push(node)?;
    Ok(Open {
        stages,
        inputs,
        nodes: Items::of(nodes),
        leftmost,
    })
}

/// Closes the open stage, which writes this topic.
fn closed(program: &Program, last: Open, output: Link) -> Made<Stages>
    ensures { IfOk result (λ stages. stages ≡ closed program.now.items output last) }
{
    let partitions = partitions_of(program, last.leftmost);
    let mut stages = last.stages.into_items();
    stages.push(Stage {
        inputs: last.inputs,
        nodes: last.nodes,
        partitions,
        output,
    })?;
    Ok(Items::of(stages))
}

/// Closes the open stage, which writes the repartition topic with this name, and opens one that reads it.
fn cut(alloc: Global, program: &Program, name: CutName, last: Open) -> Made<Open>
    ensures { IfOk result (λ o. o ≡ cut program.now.items name last) }
{
    let leftmost = last.leftmost;
    let topic = Link::Cut {
        name,
        relation: leftmost,
    };
    let inputs = vec![in alloc; topic]?;
    Ok(Open {
        stages: closed(program, last, topic)?,
        inputs: Items::of(inputs),
        nodes: Items::of(Vec::new(alloc)),
        leftmost,
    })
}

/// Whether a stage has steps.
fn has_steps(nodes: &[Node]) -> bool
    ensures { result ≡ has_steps nodes.now }
{
    !matches!(nodes, [] | [Node::Table { .. }])
}

/// A side of a join: a relation's topic as it is, or the output of a stage of its own.
fn as_side(alloc: Global, program: &Program, name: CutName, last: Made<Open>) -> Made<Open>
    ensures { (o : OneOpen) → IfOk last (λ x. x ≡ o) → IfOk result (λ made. made ≡ as_side program.now.items name o) }
{
    let last = last?;
    if has_steps(last.nodes.items()) {
        return cut(alloc, program, name, last);
    }
    Ok(Open {
        stages: last.stages,
        inputs: last.inputs,
        nodes: Items::of(Vec::new(alloc)),
        leftmost: last.leftmost,
    })
}

/// Joins two sides into one stage, which has no steps yet.
fn both(left: Made<Open>, right: Made<Open>) -> Made<Open>
    ensures { (l r : OneOpen) → IfOk left (λ x. x ≡ l) → IfOk right (λ x. x ≡ r) → IfOk result (λ made. made ≡ both l r) }
{
    let left = left?;
    let right = right?;
    let mut stages = left.stages.into_items();
    stages.append(&mut right.stages.into_items())?;
    let mut inputs = left.inputs.into_items();
    inputs.append(&mut right.inputs.into_items())?;
    Ok(Open {
        stages: Items::of(stages),
        inputs: Items::of(inputs),
        nodes: left.nodes,
        leftmost: left.leftmost,
    })
}

/// A join of two sides.
fn joined(
    alloc: Global,
    program: &Program,
    node: Made<Node>,
    left: Made<Open>,
    right: Made<Open>,
) -> Made<Open>
    ensures { (x : OneNode) (l r : OneOpen) → IfOk node (λ y. y ≡ x) → IfOk left (λ y. y ≡ l) → IfOk right (λ y. y ≡ r)
        → IfOk result (λ made. made ≡ joined program.now.items x l r) }
{
    let left = as_side(alloc, program, CutName::Left, left);
    let right = as_side(alloc, program, CutName::Right, right);
    let sides = both(left, right);
    let node = node?;
    with_node(sides, node)
}

/// The join of a stream and a table.
fn stream_join(program: &Program, kind: JoinKind, on: Typed, left: u32, right: u32) -> Made<Node>
    ensures { IfOk result (λ x. x ≡ node.JoinStreamTable kind on (side_at program.now.items left) (side_at program.now.items right)) }
{
    let left = side_of(program, left)?;
    let right = side_of(program, right)?;
    Ok(Node::JoinStreamTable {
        kind,
        on,
        left,
        right,
    })
}

/// The join of two tables.
fn table_join(program: &Program, kind: JoinKind, left: u32, right: u32) -> Made<Node>
    ensures { IfOk result (λ x. x ≡ node.JoinTables kind (side_at program.now.items left) (side_at program.now.items right)) }
{
    let left = side_of(program, left)?;
    let right = side_of(program, right)?;
    Ok(Node::JoinTables { kind, left, right })
}

/// A grouping. A grouping by anything but its input's own key goes through a repartition topic.
fn grouped(
    alloc: Global,
    program: &Program,
    own: Made<bool>,
    keys: Exprs,
    last: Made<Open>,
) -> Made<Open>
    ensures { (is_own : Bool) (o : OneOpen) → IfOk own (λ x. x ≡ is_own) → IfOk last (λ x. x ≡ o)
        → IfOk result (λ made. made ≡ grouped program.now.items is_own keys o) }
{
    let own = own?;
    let last = with_node(last, Node::Group { keys })?;
    if own {
        return Ok(last);
    }
    cut(alloc, program, CutName::Group, last)
}
