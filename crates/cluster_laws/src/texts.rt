//! A walk over the expressions of a program that looks at each text, which establishes that all texts are UTF-8.
ghost use Rattle.std.specs.Prelude.{All, IfSome};
ghost use Rattle.short_laws.specs.Short.{HoldTexts, HoldsInFrom, HoldsInItem, HoldsInShape, HoldsTexts, IsText};
ghost use Rattle.cluster_laws.specs.Texts.{FormHoldsTexts, WhenHoldsTexts};

use ksql_expr::{Exprs, Typed, TypedNode, TypedWhen, TypedWhens};
use ksql_program::{Aggs, From, Item, Program, Shape};
use ksql_types::{Boxed, Value};

/// Visits all expressions of a program, which shows that their texts are UTF-8.
#[tactic(auto, using(crate::proofs::OtherTexts::item_lists))]
pub fn texts_are_utf8(program: &Program)
    ensures { HoldTexts program.now.items }
{
    all_items(program.items.items());
}

/// Visits all expressions of some items.
fn all_items(items: &[Item])
    ensures { All (HoldsInItem HoldsTexts) items.now }
{
    for item in items {
        item_texts(item);
    }
}

/// Visits all expressions of an item.
fn item_texts(item: &Item)
    ensures { HoldsInItem HoldsTexts item.now }
{
    match item {
        Item::Declared(_) => {}
        Item::Started(query) => {
            from_texts(&query.from);
            some_texts(&query.filter);
            shape_texts(&query.shape);
        }
    }
}

/// Visits the expression in what a query reads, if any.
fn from_texts(from: &From)
    ensures { HoldsInFrom HoldsTexts from.now }
{
    match from {
        From::One { relation: _ } => {}
        From::Join { on, .. } => tree_texts(on),
    }
}

/// Visits all expressions of a shape.
#[tactic(auto, using(crate::proofs::OtherTexts::shape_forms))]
fn shape_texts(shape: &Shape)
    ensures { HoldsInShape HoldsTexts shape.now }
{
    match shape {
        Shape::Plain { keys, values } => {
            each_texts(keys);
            each_texts(values);
        }
        Shape::Group {
            keys,
            window: _,
            aggs,
            having,
            values,
        } => {
            each_texts(keys);
            agg_texts(aggs);
            some_texts(having);
            each_texts(values);
        }
    }
}

/// Visits the arguments of aggregates.
fn agg_texts(aggs: &Aggs)
    ensures { All (λ a. IfSome a.arg HoldsTexts) aggs.now }
{
    for agg in aggs.items() {
        some_texts(&agg.arg);
    }
}

/// Visits an expression, if any.
fn some_texts(tree: &Option<Typed>)
    ensures { IfSome tree.now HoldsTexts }
{
    if let Some(tree) = tree {
        tree_texts(tree);
    }
}

/// Visits an expression.
#[cycle(texts)]
#[tactic(auto, using(crate::proofs::OtherTexts::texts_forms))]
fn tree_texts(tree: &Typed)
    ensures { HoldsTexts tree.now }
{
    form_texts(&tree.node);
}

/// Visits the parts of an expression.
#[cycle(texts)]
#[tactic(auto, using(crate::proofs::OtherTexts::texts_forms))]
fn form_texts(node: &TypedNode)
    ensures { FormHoldsTexts node.now }
{
    match node {
        TypedNode::Literal(value) => value_text(value),
        TypedNode::Column(_) => {}
        TypedNode::RowTime => {}
        TypedNode::Sign { minus: _, arg } => boxed_texts(arg),
        TypedNode::Binary { op: _, left, right } => {
            boxed_texts(left);
            boxed_texts(right);
        }
        TypedNode::Not(arg) => boxed_texts(arg),
        TypedNode::IsNull { negated: _, arg } => boxed_texts(arg),
        TypedNode::Between {
            negated: _,
            arg,
            low,
            high,
        } => {
            boxed_texts(arg);
            boxed_texts(low);
            boxed_texts(high);
        }
        TypedNode::OneOf {
            negated: _,
            arg,
            choices,
        } => {
            boxed_texts(arg);
            each_texts(choices);
        }
        TypedNode::Like {
            negated: _,
            arg,
            pattern: _,
        } => boxed_texts(arg),
        TypedNode::Cast { arg, to: _ } => boxed_texts(arg),
        TypedNode::Case {
            arg,
            whens,
            otherwise,
        } => {
            part_texts(arg);
            each_when_texts(whens);
            part_texts(otherwise);
        }
        TypedNode::Call { fun: _, args } => each_texts(args),
        TypedNode::Aggregate { fun: _, arg: _ } => {}
    }
}

/// Visits a part of an expression.
#[cycle(texts)]
fn boxed_texts(tree: &Boxed<Typed>)
    ensures { HoldsTexts tree.now }
{
    tree_texts(tree.get());
}

/// Visits a part of an expression, if any.
#[cycle(texts)]
fn part_texts(tree: &Option<Boxed<Typed>>)
    ensures { IfSome tree.now HoldsTexts }
{
    if let Some(tree) = tree {
        tree_texts(tree.get());
    }
}

/// Visits some expressions.
#[cycle(texts)]
fn each_texts(trees: &Exprs)
    ensures { All HoldsTexts trees.now }
{
    for tree in trees.items() {
        tree_texts(tree);
    }
}

/// Visits the WHENs of a CASE.
#[cycle(texts)]
fn each_when_texts(whens: &TypedWhens)
    ensures { All WhenHoldsTexts whens.now }
{
    for when in whens.items() {
        when_texts(when);
    }
}

/// Visits a WHEN.
#[cycle(texts)]
#[tactic(auto, using(crate::proofs::OtherTexts::texts_forms))]
fn when_texts(when: &TypedWhen)
    ensures { WhenHoldsTexts when.now }
{
    tree_texts(&when.cond);
    tree_texts(&when.result);
}

/// Looks at a value's text, if it is one.
fn value_text(value: &Value)
    ensures { IsText value.now }
{
    if let Value::Txt(text) = value {
        let _text = text.items();
    }
}
