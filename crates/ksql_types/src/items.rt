ghost use Rattle.std.specs.Prelude.{◌≡◌};

use crate::copying::CopyOf;
use std::alloc::{AllocError, Global};
use std::marker::Model;

/// A list of values: a `Vec` that contracts see as the list of its elements.
#[derive(Debug, Drop)]
pub struct Items<T> {
    inner: Vec<T>,
}

impl<T> Model for Items<T> {
    ghost use Rattle.std.specs.Prelude.{List};
    ghost use Rattle.std.specs.Coded.{coded_list};

    ghost Value = { List T };

    ghost coded = { coded_list T.code };

    ghost view = { λ r. r.inner.items };
}

impl<T> Items<T> {
    /// The list of the vector's elements. Takes no memory.
    pub fn of(inner: Vec<T>) -> Items<T>
        ensures { result ≡ inner.items }
    {
        Items { inner }
    }

    /// The elements, borrowed.
    pub fn items(&self) -> &[T]
        ensures { result.now ≡ self.now }
    {
        self.inner.as_slice()
    }

    /// The elements as a vector. Takes no memory.
    pub fn into_items(self) -> Vec<T>
        ensures { result.items ≡ self }
    {
        let Items { inner } = self;
        inner
    }
}

impl<T: CopyOf> CopyOf for Items<T> {
    fn copy(&self, alloc: Global) -> Result<Items<T>, AllocError> {
        let mut copied = Vec::with_capacity(alloc, self.items().len())?;
        for item in self.items() {
            copied.push(item.copy(alloc)?)?;
        }
        Ok(Items::of(copied))
    }
}
