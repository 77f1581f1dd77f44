ghost use Rattle.std.specs.Prelude.{◌≡◌, ◌↔◌, ◌++◌, ◌∷◌, [], false, Err, IfSome, Some, IsTrue, OnErr, OnOk, length, not, option_copied, slice_get, is_none};
ghost use Rattle.std.specs.List.{list_any};
ghost use Rattle.ksql_types.specs.Catalog.{find_named, has_name, is_taken, IsCatalog, IsTaken};

use crate::chars::Chars;
use crate::copying::CopyOf;
use crate::relation::Relation;
use indexmap::IndexMap;
use std::alloc::{AllocError, AllocFailed, Global};
use std::marker::Model;

/// Why a relation can't be added: another one has its name or its topic, or out of memory.
#[derive(Clone, Copy, Debug, PartialEq, Eq)]
pub enum AddRefusal {
    NameTaken,
    OutOfMemory,
}

/// The relations of a script, in the order in which they were added. A relation's number is its index, and no two
/// relations share a name or a topic.
#[derive(Drop)]
pub struct Catalog {
    by_name: IndexMap<Chars, Relation>,
}

impl Model for Catalog {
    ghost use Rattle.std.specs.Prelude.{List};
    ghost use Rattle.std.specs.HashMap.{values};
    ghost use Rattle.ksql_types.specs.declared.relation.Relation.{Relation as OneRelation};
    ghost use Rattle.ksql_types.specs.Catalog.{AreNamed, IsCatalog};

    ghost Value = { List OneRelation };

    ghost view = { λ c. values c.by_name };

    ghost invariant = { λ c. IsCatalog (values c.by_name) × AreNamed c.by_name.entries };
}

impl Catalog {
    /// An empty catalog. Takes no memory.
    pub fn new(alloc: Global) -> Catalog
        ensures { result ≡ [] }
    {
        Catalog {
            by_name: IndexMap::new(alloc),
        }
    }

    /// Appends a relation. After an error the catalog is unchanged.
    pub fn add(&mut self, alloc: Global, relation: Relation) -> Result<(), AddRefusal>
        requires { relation.number ≡ length self.old }
        ensures added { OnOk result (self.new ≡ self.old ++ relation ∷ []) }
        ensures free { OnOk result (is_taken relation.name relation.topic self.old ≡ false) }
        ensures taken { (result ≡ Err AddRefusal.NameTaken) ↔ IsTaken relation.name relation.topic self.old }
        ensures kept { OnErr result (self.new ≡ self.old) }
    {
        if self.is_taken(&relation.name, &relation.topic) {
            return Err(AddRefusal::NameTaken);
        }
        let name = relation.name.copy(alloc)?;
        self.by_name.insert(name, relation)?;
        Ok(())
    }

    /// The relation with this name.
    pub fn find(&self, name: &Chars) -> Option<&Relation>
        ensures value { option_copied result ≡ find_named name.now self.now }
        ensures none { is_none result ≡ not (list_any (has_name name.now) self.now) }
        ensures numbered { IfSome result (λ found. slice_get self.now found.now.number ≡ Some found.now) }
    {
        self.by_name.get(name)
    }

    /// The relation with this number.
    pub fn get(&self, number: u32) -> Option<&Relation>
        ensures { option_copied result ≡ slice_get self.now number }
    {
        self.items().get(number as usize)
    }

    /// All relations, in the order of their numbers.
    pub fn items(&self) -> &[Relation]
        ensures value { result.now ≡ self.now }
        ensures catalog { IsCatalog self.now }
    {
        self.by_name.values().as_slice()
    }

    /// Whether a relation has this name or this topic.
    fn is_taken(&self, name: &Chars, topic: &Chars) -> bool
        ensures { result ≡ is_taken name.now topic.now self.now }
    {
        self.items().iter().any(|relation| *name == relation.name || *topic == relation.topic)
    }
}

impl From<AllocError> for AddRefusal {
    ghost use Rattle.std.specs.Prelude.{◌≡◌};
    ghost use Rattle.ksql_types.specs.declared.catalog.AddRefusal.TheVariants.{OutOfMemory};

    ghost from_gives = { λ _ refusal. refusal ≡ OutOfMemory };

    fn from(_: AllocError) -> AddRefusal {
        AddRefusal::OutOfMemory
    }
}

impl<T: Drop> From<AllocFailed<T>> for AddRefusal {
    ghost use Rattle.std.specs.Prelude.{◌≡◌};
    ghost use Rattle.ksql_types.specs.declared.catalog.AddRefusal.TheVariants.{OutOfMemory};

    ghost from_gives = { λ _ refusal. refusal ≡ OutOfMemory };

    fn from(_: AllocFailed<T>) -> AddRefusal {
        AddRefusal::OutOfMemory
    }
}
