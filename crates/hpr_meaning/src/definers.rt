//! Which items last defined the names.
ghost use Rattle.std.specs.Prelude.{◌≡◌, OnOk};
ghost use Rattle.std.specs.FinMap as map;
ghost use Rattle.hpr_meaning.specs.Notes.{origin_at};

use crate::traced::Origin;
use hpr_syntax::{Name, NoMemory};
use std::alloc::Global;
use std::collections::BTreeMap;
use std::marker::Model;

/// Names with the numbers of the items that last defined them.
///
/// A contract sees a finite map from names to numbers.
#[derive(Drop)]
pub(crate) struct Definers {
    numbers: BTreeMap<Name, usize>,
}

impl Model for Definers {
    ghost use Rattle.hpr_meaning.specs.Numbers.{Numbers, numbers_coded};
    ghost use Rattle.std.specs.FinMap.{from_entries};

    ghost Value = { Numbers };

    ghost coded = { numbers_coded };

    ghost view = { λ d. from_entries d.numbers.entries };
}

impl Definers {
    /// No name was defined.
    pub(crate) fn new(alloc: Global) -> Definers
        ensures { result ≡ map.empty }
    {
        Definers {
            numbers: BTreeMap::new(alloc),
        }
    }

    /// The number of the item that last defined the name, if one did.
    pub(crate) fn number(&self, name: &Name) -> Option<usize>
        ensures { result ≡ map.get self.now name.now }
    {
        self.numbers.get(name).copied()
    }

    /// Where the value of the name comes from.
    pub(crate) fn origin(&self, name: &Name) -> Origin
        ensures { result ≡ origin_at self.now name.now }
    {
        match self.number(name) {
            Some(number) => Origin::Instance(number),
            None => Origin::Initial,
        }
    }

    /// The item with this number is now the last one that defined the name.
    pub(crate) fn set(&mut self, alloc: Global, name: &Name, number: usize) -> Result<(), NoMemory>
        ensures { OnOk result (self.new ≡ map.insert self.old name.now number) }
    {
        if let Some(place) = self.numbers.get_mut(name) {
            *place = number;
            return Ok(());
        }
        self.put(name.copy(alloc)?, number)
    }

    // The same, with a name of its own.
    fn put(&mut self, name: Name, number: usize) -> Result<(), NoMemory>
        ensures { OnOk result (self.new ≡ map.insert self.old name number) }
    {
        self.numbers.insert(name, number)?;
        Ok(())
    }
}
