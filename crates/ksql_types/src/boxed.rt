ghost use Rattle.std.specs.Prelude.{◌≡◌, IfOk};

use crate::copying::CopyOf;
use std::alloc::{AllocError, Global};
use std::marker::Model;

/// A value on the heap: a `Box` that contracts see as the value itself, so that a tree is plain data.
#[derive(Debug, Drop)]
pub struct Boxed<T> {
    inner: Box<T>,
}

impl<T> Model for Boxed<T> {
    ghost Value = { T };

    ghost coded = { T.code };

    ghost view = { λ b. b.inner.value };
}

impl<T> Boxed<T> {
    /// The value, borrowed.
    pub fn get(&self) -> &T
        ensures { result.now ≡ self.now }
    {
        &self.inner
    }

    /// Takes the value off the heap.
    pub fn into_inner(self) -> T
        ensures { result ≡ self }
    {
        let Boxed { inner } = self;
        Box::into_inner(inner)
    }
}

impl<T: Drop> Boxed<T> {
    /// Puts the value on the heap.
    pub fn of(alloc: Global, value: T) -> Result<Boxed<T>, AllocError>
        ensures { IfOk result (λ boxed. boxed ≡ value) }
    {
        Ok(Boxed {
            inner: Box::new(alloc, value)?,
        })
    }
}

impl<T: CopyOf> CopyOf for Boxed<T> {
    fn copy(&self, alloc: Global) -> Result<Boxed<T>, AllocError> {
        Boxed::of(alloc, self.get().copy(alloc)?)
    }
}
