use crate::programs::{copied, program};
use ksql_eval::{RowView, eval, holds};
use ksql_expr::{AggFun, Typed, TypedNode};
use ksql_program::{Item, Program, Shape};
use ksql_types::{Boxed, Items, SqlType, Value};
use std::alloc::{AllocError, Global};

/// What the last query of a script has as its WHERE, or else as its last value.
fn last_typed(program: &Program) -> Option<&Typed> {
    let Some(Item::Started(query)) = program.items.items().last() else {
        return None;
    };
    if let Some(filter) = &query.filter {
        return Some(filter);
    }
    match &query.shape {
        Shape::Plain { values, .. } => values.items().last(),
        Shape::Group { values, .. } => values.items().last(),
    }
}

fn shown(alloc: Global, value: Value) -> Result<String, AllocError> {
    match value {
        Value::Null => String::from_str(alloc, "NULL"),
        Value::Int(number) => format!(in alloc; "{number}"),
        Value::Big(number) => format!(in alloc; "{number}L"),
        Value::Txt(text) => String::from_str(alloc, text.items()),
        Value::Bool(truth) => format!(in alloc; "{truth}"),
    }
}

/// The value of an expression's copy on a row of a key, 5, and two cells, true and NULL, at the time 9.
fn worth(alloc: Global, typed: &Typed) -> Result<String, AllocError> {
    let (copied, same) = copied(alloc, typed)?;
    if !same {
        return String::from_str(alloc, "another copy");
    }
    let view = RowView {
        key: &[Value::Int(5)],
        row: &[Value::Bool(true), Value::Null],
        time: 9,
    };
    shown(alloc, eval(alloc, &copied, &view)?)
}

/// Whether a condition holds of such a row.
fn truth(alloc: Global, typed: &Typed) -> Result<String, AllocError> {
    let view = RowView {
        key: &[Value::Int(5)],
        row: &[Value::Bool(true), Value::Null],
        time: 9,
    };
    let holds = holds(alloc, typed, &view)?;
    format!(in alloc; "{holds}")
}

/// The value or the type of a script's last expression, or whether it holds as a condition.
pub fn of_script(alloc: Global, table: &str, text: &str) -> Result<String, AllocError> {
    let Some(program) = program(alloc, text) else {
        return String::from_str(alloc, "refused");
    };
    let Some(typed) = last_typed(&program) else {
        return String::from_str(alloc, "no expression");
    };
    match table {
        "values" => worth(alloc, typed),
        "types" => format!(in alloc; "{:?}", typed.ty),
        _ => truth(alloc, typed),
    }
}

fn literal(number: i32) -> Typed {
    Typed {
        ty: Some(SqlType::Int),
        node: TypedNode::Literal(Value::Int(number)),
    }
}

/// A node that no program has on a row: an aggregate, or a CASE without WHEN.
fn node(alloc: Global, text: &str) -> Result<TypedNode, AllocError> {
    match text {
        "COUNT(*)" => Ok(TypedNode::Aggregate {
            fun: AggFun::CountAll,
            arg: None,
        }),
        "SUM(9)" => Ok(TypedNode::Aggregate {
            fun: AggFun::Sum,
            arg: Some(Boxed::of(alloc, literal(9))?),
        }),
        _ => Ok(TypedNode::Case {
            arg: Some(Boxed::of(alloc, literal(5))?),
            whens: Items::of(Vec::new(alloc)),
            otherwise: None,
        }),
    }
}

/// The value of such a node.
pub fn value_of_node(alloc: Global, text: &str) -> Result<String, AllocError> {
    let ty = Some(SqlType::Big);
    let node = node(alloc, text)?;
    worth(alloc, &Typed { ty, node })
}
