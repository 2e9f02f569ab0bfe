//! How often what is placed is still needed, as items are placed and taken back.
ghost use Rattle.std.specs.Prelude.{◌≡◌, ℕ, ◌+◌, ◌<◌, ◌≤◌, ◌^◌, ◌++◌, [], ◌∷◌, false, All, get_or, length, replicate, vec_len, IfOk};
ghost use Rattle.hpr_forest.specs.Forest.{IsDistinct};
ghost use Rattle.hpr_forest.specs.Marks.{IsMarksOf, is_in};
ghost use Rattle.hpr_region.specs.Private.Needs.{AreNeeds, AreReleased, AreRestored, AreRivals, left_over, sources_of, tie, tied};

use crate::clashing::is_same_variable;
use crate::flows::Flows;
use crate::plan::Plan;
use crate::rivals::Rivals;
use std::alloc::{AllocError, Global};

impl Flows {
    /// How many of these readers stand in the child's block and are neither the child nor placed.
    fn left_over(&self, marks: &[bool], placed: &[usize], child: usize, readers: &[usize]) -> usize
        requires row { length marks.now ≡ vec_len self.now.slots }
        requires marks { IsMarksOf marks.now placed.now }
        requires child { child < vec_len self.now.slots }
        requires readers { All (λ k. k < vec_len self.now.slots) readers.now }
        ensures { result ≡ left_over self.now placed.now child readers.now }
    {
        let mut count = 0;
        for reader in readers {
            if self.is_left(marks, placed, child, *reader) {
                count += 1;
            }
        }
        count
    }
}

impl Rivals {
    /// The group of the source, where that is placed in the child's block.
    fn tie(
        &self,
        flows: &Flows,
        marks: &[bool],
        placed: &[usize],
        child: usize,
        source: usize,
    ) -> Option<usize>
        requires rivals { AreRivals flows.now self.now }
        requires row { length marks.now ≡ vec_len flows.now.slots }
        requires marks { IsMarksOf marks.now placed.now }
        requires child { child < vec_len flows.now.slots }
        requires source { source < vec_len flows.now.slots }
        ensures { result ≡ tie flows.now self.now placed.now child source }
    {
        if !marks[source] {
            return None;
        }
        if !flows.in_one_block(source, child) {
            return None;
        }
        self.group(source)
    }

    /// How many of these sources have the group so.
    fn tied(
        &self,
        flows: &Flows,
        marks: &[bool],
        placed: &[usize],
        child: usize,
        group: usize,
        sources: &[usize],
    ) -> usize
        requires rivals { AreRivals flows.now self.now }
        requires row { length marks.now ≡ vec_len flows.now.slots }
        requires marks { IsMarksOf marks.now placed.now }
        requires child { child < vec_len flows.now.slots }
        requires sources { All (λ k. k < vec_len flows.now.slots) sources.now }
        ensures { result ≡ tied flows.now self.now placed.now child group sources.now }
    {
        let mut count = 0;
        for source in sources {
            if is_same_variable(self.tie(flows, marks, placed, child, *source), Some(group)) {
                count += 1;
            }
        }
        count
    }

    /// How many of the sources of the child have the group so.
    pub fn own(
        &self,
        flows: &Flows,
        marks: &[bool],
        placed: &[usize],
        child: usize,
        group: usize,
    ) -> usize
        requires rivals { AreRivals flows.now self.now }
        requires row { length marks.now ≡ vec_len flows.now.slots }
        requires marks { IsMarksOf marks.now placed.now }
        requires child { child < vec_len flows.now.slots }
        ensures { result ≡ tied flows.now self.now placed.now child group (sources_of self.now child) }
    {
        self.tied(flows, marks, placed, child, group, self.sources_of(child))
    }
}

/// The counts where nothing is placed.
pub fn no_needs(alloc: Global, items: usize) -> Result<Vec<u128>, AllocError>
    ensures none { IfOk result (λ needs. needs.items ≡ replicate items 0) }
    ensures len { IfOk result (λ needs. vec_len needs ≡ items) }
{
    vec![in alloc; 0u128; items]
}

/// Takes one from the count of a group for each of these sources that has the group so.
fn release(
    needs: &mut Vec<u128>,
    flows: &Flows,
    rivals: &Rivals,
    marks: &[bool],
    placed: &[usize],
    child: usize,
    sources: &[usize],
)
    requires rivals { AreRivals flows.now rivals.now }
    requires row { length marks.now ≡ vec_len flows.now.slots }
    requires marks { IsMarksOf marks.now placed.now }
    requires child { child < vec_len flows.now.slots }
    requires sources { All (λ k. k < vec_len flows.now.slots) sources.now }
    requires count { length needs.old.items ≡ vec_len flows.now.slots }
    requires enough { (g : ℕ) → g < vec_len flows.now.slots
        → tied flows.now rivals.now placed.now child g sources.now ≤ get_or needs.old.items g 0 }
    ensures count { length needs.new.items ≡ vec_len flows.now.slots }
    ensures each { AreReleased flows.now rivals.now placed.now child sources.now needs.old.items needs.new.items }
{
    for source in sources {
        let Some(group) = rivals.tie(flows, marks, placed, child, *source) else {
            continue;
        };
        needs[group] -= 1;
    }
}

/// Adds one to the count of a group for each of these sources that has the group so.
fn restore(
    needs: &mut Vec<u128>,
    flows: &Flows,
    rivals: &Rivals,
    marks: &[bool],
    placed: &[usize],
    child: usize,
    sources: &[usize],
)
    requires rivals { AreRivals flows.now rivals.now }
    requires row { length marks.now ≡ vec_len flows.now.slots }
    requires marks { IsMarksOf marks.now placed.now }
    requires child { child < vec_len flows.now.slots }
    requires sources { All (λ k. k < vec_len flows.now.slots) sources.now }
    requires count { length needs.old.items ≡ vec_len flows.now.slots }
    requires room { (g : ℕ) → g < vec_len flows.now.slots
        → get_or needs.old.items g 0 + tied flows.now rivals.now placed.now child g sources.now < 2 ^ 128 }
    ensures count { length needs.new.items ≡ vec_len flows.now.slots }
    ensures each { AreRestored flows.now rivals.now placed.now child sources.now needs.old.items needs.new.items }
{
    for source in sources {
        let Some(group) = rivals.tie(flows, marks, placed, child, *source) else {
            continue;
        };
        needs[group] += 1;
    }
}

/// The counts when an item is placed behind the placed ones, which have the marks.
pub fn add_needs(
    needs: &mut Vec<u128>,
    plan: &Plan,
    rivals: &Rivals,
    marks: &[bool],
    placed: &[usize],
    item: usize,
)
    requires rivals { AreRivals plan.now.flows rivals.now }
    requires row { length marks.now ≡ vec_len plan.now.flows.slots }
    requires marks { IsMarksOf marks.now placed.now }
    requires item { item < vec_len plan.now.flows.slots }
    requires once { IsDistinct placed.now }
    requires fresh { is_in placed.now item ≡ false }
    requires room { length placed.now < vec_len plan.now.flows.slots }
    requires needs { AreNeeds plan.now.flows rivals.now placed.now needs.old.items }
    ensures { AreNeeds plan.now.flows rivals.now (placed.now ++ item ∷ []) needs.new.items }
{
    let flows = &plan.flows;
    let sources = rivals.sources_of(item);
    release(needs, flows, rivals, marks, placed, item, sources);
    let Some(group) = rivals.group(item) else {
        return;
    };
    let left = flows.left_over(marks, placed, item, flows.readers_of(item));
    needs[group] += left as u128;
}

/// The counts when the item, which was placed last, is taken back, and the others, which have the marks, stay.
pub fn take_needs(
    needs: &mut Vec<u128>,
    plan: &Plan,
    rivals: &Rivals,
    marks: &[bool],
    placed: &[usize],
    item: usize,
)
    requires rivals { AreRivals plan.now.flows rivals.now }
    requires row { length marks.now ≡ vec_len plan.now.flows.slots }
    requires marks { IsMarksOf marks.now placed.now }
    requires item { item < vec_len plan.now.flows.slots }
    requires once { IsDistinct placed.now }
    requires fresh { is_in placed.now item ≡ false }
    requires room { length placed.now < vec_len plan.now.flows.slots }
    requires needs { AreNeeds plan.now.flows rivals.now (placed.now ++ item ∷ []) needs.old.items }
    ensures { AreNeeds plan.now.flows rivals.now placed.now needs.new.items }
{
    let flows = &plan.flows;
    let sources = rivals.sources_of(item);
    restore(needs, flows, rivals, marks, placed, item, sources);
    let Some(group) = rivals.group(item) else {
        return;
    };
    let left = flows.left_over(marks, placed, item, flows.readers_of(item));
    needs[group] -= left as u128;
}
