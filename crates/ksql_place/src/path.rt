ghost use Rattle.std.specs.Prelude.{◌≡◌, ◌∷◌, ◌++◌, [], IfOk};
ghost use Rattle.ksql_place.specs.Path.{numbers_in};

use ksql_types::{Boxed, CopyOf, Items};
use std::alloc::{AllocError, Global};
use std::marker::Model;

/// The numbers of a path. Up to three, as in nearly all paths, are stored in the path itself.
#[derive(Debug, Drop)]
enum Numbers {
    Root,
    One([u32; 1]),
    Two([u32; 2]),
    Three([u32; 3]),
    Many(Boxed<Items<u32>>),
}

/// The numbers that tell apart the changes that one record causes.
#[derive(Debug, Drop)]
pub struct Path {
    numbers: Numbers,
}

impl Model for Path {
    ghost use Rattle.std.specs.Prelude.{List, ℕ};
    ghost use Rattle.std.specs.Coded.{coded_list, coded_ℕ};
    ghost use Rattle.ksql_place.specs.Path.{numbers_in};

    ghost Value = { List ℕ };

    ghost coded = { coded_list coded_ℕ };

    ghost view = { λ p. numbers_in p.numbers };
}

impl Path {
    /// The path of these numbers. Up to three take no memory.
    pub fn of(alloc: Global, numbers: &[u32]) -> Result<Path, AllocError>
        ensures { IfOk result (λ made. made ≡ numbers.now) }
    {
        let numbers = match numbers {
            [] => Numbers::Root,
            [a] => Numbers::One([*a]),
            [a, b] => Numbers::Two([*a, *b]),
            [a, b, c] => Numbers::Three([*a, *b, *c]),
            _ => Numbers::Many(Boxed::of(alloc, Items::of(Vec::from_slice(alloc, numbers)?))?),
        };
        Ok(Path { numbers })
    }

    /// The empty path. Takes no memory.
    pub fn root() -> Path
        ensures { result ≡ [] }
    {
        Path {
            numbers: Numbers::Root,
        }
    }

    /// The numbers, borrowed.
    pub fn items(&self) -> &[u32]
        ensures { result.now ≡ self.now }
    {
        match &self.numbers {
            Numbers::Root => &[],
            Numbers::One(numbers) => numbers.as_slice(),
            Numbers::Two(numbers) => numbers.as_slice(),
            Numbers::Three(numbers) => numbers.as_slice(),
            Numbers::Many(numbers) => numbers.get().items(),
        }
    }

    /// This path with a number appended. Up to three numbers take no memory.
    pub fn with_last(&self, alloc: Global, number: u32) -> Result<Path, AllocError>
        ensures { IfOk result (λ made. made ≡ self.now ++ number ∷ []) }
    {
        match self.items() {
            [] => Path::of(alloc, &[number]),
            [a] => Path::of(alloc, &[*a, number]),
            [a, b] => Path::of(alloc, &[*a, *b, number]),
            numbers => {
                let mut longer = Vec::with_capacity(alloc, numbers.len() + 1)?;
                longer.extend_from_slice(numbers)?;
                longer.push(number)?;
                Path::of(alloc, longer.as_slice())
            }
        }
    }

    /// This path with a number in front. Up to three numbers take no memory.
    pub fn with_first(&self, alloc: Global, number: u32) -> Result<Path, AllocError>
        ensures { IfOk result (λ made. made ≡ number ∷ self.now) }
    {
        match self.items() {
            [] => Path::of(alloc, &[number]),
            [a] => Path::of(alloc, &[number, *a]),
            [a, b] => Path::of(alloc, &[number, *a, *b]),
            numbers => {
                let mut longer = Vec::with_capacity(alloc, numbers.len() + 1)?;
                longer.push(number)?;
                longer.extend_from_slice(numbers)?;
                Path::of(alloc, longer.as_slice())
            }
        }
    }
}

impl CopyOf for Path {
    fn copy(&self, alloc: Global) -> Result<Path, AllocError> {
        Path::of(alloc, self.items())
    }
}
