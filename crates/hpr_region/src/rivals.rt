//! Which items define one variable in one block, and from which items flow edges come.
ghost use Rattle.std.specs.Prelude.{◌≡◌, ℕ, ◌+◌, ◌<◌, All, cond, eqb, length, slice_get, vec_len, IfOk, OnOk};
ghost use Rattle.hpr_forest.specs.Blocks.{row_at};
ghost use Rattle.hpr_forest.specs.Marks.{is_in};
ghost use Rattle.hpr_search.specs.Rows.{numbers_at, numbers_of};
ghost use Rattle.hpr_region.specs.Flows.{readers_of};
ghost use Rattle.hpr_region.specs.Private.Needs.{AreRivals, group_of, occurrences, sources_of};
ghost use Rattle.hpr_region.specs.Private.Rivals.{AreDefiners, AreGroupsBy, AreTurned, first_in, group_by};

use crate::clashing::has;
use crate::flows::Flows;
use crate::tables::{blank_rows, push_at};
use hpr_graph::NoMemory;
use std::alloc::Global;

/// Which items are rivals, since they define one variable in one block: those of one group, which has the number of
/// one of them. And for each item those from which an independent flow edge goes into it.
pub struct Rivals {
    pub groups: Vec<Option<usize>>,
    pub sources: Vec<Vec<usize>>,
}

/// Both are dropped in one call.
impl Drop for Rivals {
    fn drop(self) {
        let Rivals {
            groups: _,
            sources: _,
        } = self;
    }
}

impl Rivals {
    /// The rivals by these tables.
    pub fn start(alloc: Global, flows: &Flows) -> Result<Rivals, NoMemory>
        ensures { IfOk result (λ r. AreRivals flows.now r) }
    {
        let definers = definers_of(alloc, flows)?;
        let groups = groups_of(alloc, flows, &definers)?;
        let sources = sources_of(alloc, flows)?;
        Ok(Rivals { groups, sources })
    }

    /// The number of the item's group; `None` where it defines nothing.
    pub fn group(&self, item: usize) -> Option<usize>
        requires { item < vec_len self.now.groups }
        ensures { result ≡ group_of self.now item }
    {
        self.groups[item]
    }

    /// The items from which an independent flow edge goes into the item.
    pub fn sources_of(&self, item: usize) -> &[usize]
        requires { item < vec_len self.now.sources }
        ensures { result.now ≡ sources_of self.now item }
    {
        &self.sources[item]
    }

    /// Whether an independent flow edge goes from the source into the item.
    pub fn leads(&self, flows: &Flows, source: usize, item: usize) -> bool
        requires rivals { AreRivals flows.now self.now }
        requires item { item < vec_len flows.now.slots }
        ensures { result ≡ is_in (readers_of flows.now source) item }
    {
        has(self.sources_of(item), source)
    }
}

/// For each variable the items that define it.
fn definers_of(alloc: Global, flows: &Flows) -> Result<Vec<Vec<usize>>, NoMemory>
    ensures { IfOk result (λ rows. AreDefiners flows.now rows.items) }
{
    let mut rows = blank_rows(alloc, flows.names)?;
    for item in 0..flows.size() {
        let Some(variable) = flows.variable(item) else {
            continue;
        };
        push_at(&mut rows, variable, item)?;
    }
    Ok(rows)
}

/// The first of these items that stands in the block of the item.
fn first_in(flows: &Flows, definers: &[usize], item: usize) -> Option<usize>
    requires definers { All (λ k. k < vec_len flows.now.slots) definers.now }
    requires item { item < vec_len flows.now.slots }
    ensures { result ≡ first_in flows.now definers.now item }
{
    for definer in definers {
        if flows.in_one_block(*definer, item) {
            return Some(*definer);
        }
    }
    None
}

/// The first item that defines the variable of the item in its block.
fn group_by(flows: &Flows, definers: &[Vec<usize>], item: usize) -> Option<usize>
    requires definers { AreDefiners flows.now definers.now }
    requires item { item < vec_len flows.now.slots }
    ensures { result ≡ group_by flows.now definers.now item }
{
    let variable = flows.variable(item)?;
    first_in(flows, &definers[variable], item)
}

/// The group of each item.
fn groups_of(
    alloc: Global,
    flows: &Flows,
    definers: &[Vec<usize>],
) -> Result<Vec<Option<usize>>, NoMemory>
    requires { AreDefiners flows.now definers.now }
    ensures count { IfOk result (λ groups. vec_len groups ≡ vec_len flows.now.slots) }
    ensures groups { IfOk result (λ groups. AreGroupsBy flows.now definers.now groups.items) }
{
    let mut groups = Vec::new(alloc);
    for item in 0..flows.size() {
        groups.push(group_by(flows, definers, item))?;
    }
    Ok(groups)
}

/// The readers of each item turned round.
fn sources_of(alloc: Global, flows: &Flows) -> Result<Vec<Vec<usize>>, NoMemory>
    ensures count { IfOk result (λ rows. length rows.items ≡ vec_len flows.now.slots) }
    ensures turned { IfOk result (λ rows. (d u : ℕ)
        → occurrences (row_at (slice_get rows.items u)) d ≡ occurrences (row_at (slice_get flows.now.readers.items d)) u) }
{
    let mut rows = blank_rows(alloc, flows.size())?;
    for item in 0..flows.size() {
        push_to_each(&mut rows, flows.readers_of(item), item)?;
    }
    Ok(rows)
}

/// Puts the number at the end of each of these rows.
fn push_to_each(rows: &mut Vec<Vec<usize>>, each: &[usize], number: usize) -> Result<(), NoMemory>
    requires { All (λ k. k < length rows.old.items) each.now }
    ensures count { length rows.new.items ≡ length rows.old.items }
    ensures rows { OnOk result ((d u : ℕ) → occurrences (numbers_at (numbers_of rows.new.items) u) d
        ≡ occurrences (numbers_at (numbers_of rows.old.items) u) d + cond (eqb number d) (occurrences each.now u) 0) }
{
    for at in each {
        push_at(rows, *at, number)?;
    }
    Ok(())
}
