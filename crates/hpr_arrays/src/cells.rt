//! The cells of an array.
ghost use Rattle.std.specs.Prelude.{◌≡◌, IfOk, OnOk, OnErr};
ghost use Rattle.std.specs.FinMap as map;
ghost use Rattle.hpr_arrays.specs.Elements.{element, with_element};
ghost use Rattle.hpr_arrays.specs.Pages.{rows_of, elements_of, IsLaidOut};

use crate::memory::NoMemory;
use crate::pages::{PAGE, copy_of, number_at, push_listed, put};
use std::alloc::Global;
use std::marker::Model;

/// The elements 0 to 65,535 of an array, all 0 at the start. Each is read and changed in constant time.
///
/// They stand in 256 pages of 256 numbers, of which each is made when one of its elements first becomes another
/// number than 0. A contract sees the finite map of the elements that aren't 0.
#[derive(Drop)]
pub struct Cells {
    pages: Vec<Vec<i64>>,
    count: usize,
    alloc: Global,
}

impl Model for Cells {
    ghost use Rattle.std.specs.Prelude.{◌≡◌};
    ghost use Rattle.std.specs.Coded.{coded_ℕ, coded_ℤ};
    ghost use Rattle.std.specs.FinMap.{code, len as map_len};
    ghost use Rattle.hpr_arrays.specs.Elements.{Elements};
    ghost use Rattle.hpr_arrays.specs.Pages.{rows_of, elements_of, IsLaidOut};

    ghost Value = { Elements };

    ghost coded = { code coded_ℕ coded_ℤ };

    ghost view = { λ c. elements_of (rows_of c.pages.items) };

    ghost invariant = { λ c. IsLaidOut (rows_of c.pages.items) × (c.count ≡ map_len (elements_of (rows_of c.pages.items))) };
}

impl Cells {
    /// All elements are 0.
    pub fn new(alloc: Global) -> Cells
        ensures { result ≡ map.empty }
    {
        Cells {
            pages: Vec::new(alloc),
            count: 0,
            alloc,
        }
    }

    /// The element with this index.
    pub fn get(&self, at: u16) -> i64
        ensures { result ≡ element self.now at }
    {
        number_at(&self.pages, at)
    }

    /// How many elements aren't 0.
    pub fn count(&self) -> usize
        ensures { result ≡ map.len self.now }
    {
        self.count
    }

    /// Changes this element alone. After want of memory all are as they were.
    pub fn set(&mut self, at: u16, number: i64) -> Result<(), NoMemory>
        ensures ok { OnOk result (self.new ≡ with_element self.old at number) }
        ensures err { OnErr result (self.new ≡ self.old) }
    {
        let before = self.get(at);
        if before == number {
            return Ok(());
        }
        put(self.alloc, &mut self.pages, at, number)?;
        if before == 0 {
            self.count += 1;
        } else if number == 0 {
            self.count -= 1;
        }
        Ok(())
    }

    /// A copy.
    pub fn copy(&self) -> Result<Cells, NoMemory>
        ensures { IfOk result (λ copy. copy ≡ self.now) }
    {
        Ok(Cells {
            pages: copy_of(self.alloc, &self.pages)?,
            count: self.count,
            alloc: self.alloc,
        })
    }

    /// The elements that aren't 0 with their indices, ascending.
    pub fn entries(&self) -> Result<Vec<(u16, i64)>, NoMemory>
        ensures { IfOk result (λ listed. listed.items ≡ map.entries self.now) }
    {
        let mut entries = Vec::with_capacity(self.alloc, self.count)?;
        for (page, numbers) in self.pages.iter().enumerate() {
            push_listed(&mut entries, page * PAGE, numbers)?;
        }
        Ok(entries)
    }
}
