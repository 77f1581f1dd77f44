//! Copies of programs.

use crate::program::{Item, Program};
use crate::query::{Agg, From, Query, Shape};
use ksql_types::CopyOf;
use std::alloc::{AllocError, Global};

impl CopyOf for Agg {
    fn copy(&self, alloc: Global) -> Result<Agg, AllocError> {
        Ok(Agg {
            fun: self.fun,
            arg: self.arg.copy(alloc)?,
        })
    }
}

impl CopyOf for From {
    fn copy(&self, alloc: Global) -> Result<From, AllocError> {
        match self {
            From::One { relation } => Ok(From::One {
                relation: *relation,
            }),
            From::Join {
                kind,
                left,
                right,
                on,
            } => Ok(From::Join {
                kind: *kind,
                left: *left,
                right: *right,
                on: on.copy(alloc)?,
            }),
        }
    }
}

impl CopyOf for Shape {
    fn copy(&self, alloc: Global) -> Result<Shape, AllocError> {
        match self {
            Shape::Plain { keys, values } => Ok(Shape::Plain {
                keys: keys.copy(alloc)?,
                values: values.copy(alloc)?,
            }),
            Shape::Group {
                keys,
                window,
                aggs,
                having,
                values,
            } => Ok(Shape::Group {
                keys: keys.copy(alloc)?,
                window: *window,
                aggs: aggs.copy(alloc)?,
                having: having.copy(alloc)?,
                values: values.copy(alloc)?,
            }),
        }
    }
}

impl CopyOf for Query {
    fn copy(&self, alloc: Global) -> Result<Query, AllocError> {
        Ok(Query {
            from: self.from.copy(alloc)?,
            filter: self.filter.copy(alloc)?,
            shape: self.shape.copy(alloc)?,
            out: self.out.copy(alloc)?,
        })
    }
}

impl CopyOf for Item {
    fn copy(&self, alloc: Global) -> Result<Item, AllocError> {
        match self {
            Item::Declared(relation) => Ok(Item::Declared(relation.copy(alloc)?)),
            Item::Started(query) => Ok(Item::Started(query.copy(alloc)?)),
        }
    }
}

impl CopyOf for Program {
    fn copy(&self, alloc: Global) -> Result<Program, AllocError> {
        Ok(Program {
            items: self.items.copy(alloc)?,
        })
    }
}
