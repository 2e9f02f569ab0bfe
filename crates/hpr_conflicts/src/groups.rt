//! Conflicts in groups: those of one variant that one edge explains.
ghost use Rattle.std.specs.Prelude.{◌≡◌, ◌<◌, IfOk, OnOk, ℕ, Contains, length, replicate, []};
ghost use Rattle.hpr_search.specs.Rows.{numbers_of, with_number};
ghost use Rattle.hpr_conflicts.specs.Groups.{AreNumbers, AreRows};
ghost use Rattle.hpr_conflicts.specs.Private.Placed.{IsPlaced};

use crate::key::{Key, key_of};
use hpr_graph::{ManyConflict, NoMemory};
use indexmap::IndexSet;
use std::alloc::Global;

/// The groups of some conflicts, by their numbers.
#[derive(Drop)]
pub struct GroupNumbers {
    /// For each conflict the number of its group.
    pub of: Vec<usize>,
    /// How many groups there are.
    pub count: usize,
}

/// The numbers of the conflicts' groups, from 0 in the order of their first conflicts: conflicts of one variant that
/// one edge explains are in one group (Horwitz, Prins and Reps 1989 name no edge for a conflict). Looks each edge up once
/// by hash. It fails only for want of memory.
pub fn group_numbers(alloc: Global, conflicts: &[ManyConflict]) -> Result<GroupNumbers, NoMemory>
    ensures { IfOk result (λ n. AreNumbers conflicts.now n.of.items n.count) }
{
    let mut keys = IndexSet::new(alloc);
    let mut numbers = Vec::with_capacity(alloc, conflicts.len())?;
    for conflict in conflicts {
        let key = key_of(alloc, conflict)?;
        let number = place_of(&mut keys, key)?;
        numbers.push(number)?;
    }
    Ok(GroupNumbers {
        of: numbers,
        count: keys.len(),
    })
}

/// For each of so many groups the places of its conflicts, in ascending order, by the numbers of
/// the conflicts' groups. It fails only for want of memory.
pub fn group_rows(
    alloc: Global,
    numbers: &[usize],
    count: usize,
) -> Result<Vec<Vec<usize>>, NoMemory>
    requires { (n : ℕ) → Contains numbers.now n → n < count }
    ensures { IfOk result (λ rows. AreRows numbers.now count (numbers_of rows.items)) }
{
    let mut rows = blank_rows(alloc, count)?;
    for (at, number) in numbers.iter().enumerate() {
        push_at(&mut rows, *number, at)?;
    }
    Ok(rows)
}

/// So many empty rows.
fn blank_rows(alloc: Global, count: usize) -> Result<Vec<Vec<usize>>, NoMemory>
    ensures { IfOk result (λ rows. numbers_of rows.items ≡ replicate count []) }
{
    let mut rows = Vec::with_capacity(alloc, count)?;
    for _ in 0..count {
        rows.push(Vec::new(alloc))?;
    }
    Ok(rows)
}

/// Puts the number at the end of a row.
fn push_at(rows: &mut Vec<Vec<usize>>, at: usize, number: usize) -> Result<(), NoMemory>
    requires { at < length rows.old.items }
    ensures { OnOk result (numbers_of rows.new.items ≡ with_number (numbers_of rows.old.items) at number) }
{
    let row = &mut rows[at];
    row.push(number)?;
    Ok(())
}

/// The place of the key in the set, which gets it where it isn't there.
fn place_of(keys: &mut IndexSet<Key>, key: Key) -> Result<usize, NoMemory>
    ensures { IfOk result (λ n. IsPlaced keys.old.keys key keys.new.keys n) }
{
    let (place, _) = keys.insert_full(key)?;
    Ok(place)
}
