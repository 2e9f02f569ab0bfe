//! Which item clashes with those placed before it.
ghost use Rattle.std.specs.Prelude.{◌≡◌, ℕ, ◌<◌, Some, None, false, List, IfSome, length, get_or, vec_len};
ghost use Rattle.hpr_forest.specs.Forest.{IsDistinct};
ghost use Rattle.hpr_forest.specs.Marks.{IsMarksOf, is_in};
ghost use Rattle.hpr_forest.specs.Trees.{same_slot};
ghost use Rattle.hpr_region.specs.Flows.{same_variable, slot_of, variable_of, uses_of, readers_of, same_block, reached_wrongly, is_left, kills_one, clash};
ghost use Rattle.hpr_region.specs.Private.Needs.{AreNeeds, AreRivals};
ghost use Rattle.hpr_region.specs.Private.Summaries.{IsSummary, is_reached_by, some_reach};

use crate::flows::Flows;
use crate::rivals::Rivals;
use crate::summary::Summary;
use hpr_graph::links::number_at;

fn is_same_slot(a: Option<(usize, bool)>, b: Option<(usize, bool)>) -> bool
    ensures { result ≡ same_slot a b }
{
    match (a, b) {
        (None, None) => true,
        (Some((a, true)), Some((b, true))) => a == b,
        (Some((a, false)), Some((b, false))) => a == b,
        _ => false,
    }
}

pub(crate) fn is_same_variable(a: Option<usize>, b: Option<usize>) -> bool
    ensures { result ≡ same_variable a b }
{
    match (a, b) {
        (Some(a), Some(b)) => a == b,
        _ => false,
    }
}

/// Whether the number is one of these.
pub(crate) fn has(numbers: &[usize], number: usize) -> bool
    ensures { result ≡ is_in numbers.now number }
{
    for one in numbers {
        if *one == number {
            return true;
        }
    }
    false
}

impl Flows {
    /// How many items there are.
    pub fn size(&self) -> usize
        ensures { result ≡ vec_len self.now.slots }
    {
        self.slots.len()
    }

    fn slot(&self, item: usize) -> Option<(usize, bool)>
        requires { item < vec_len self.now.slots }
        ensures { result ≡ slot_of self.now item }
    {
        self.slots[item]
    }

    pub(crate) fn variable(&self, item: usize) -> Option<usize>
        requires { item < vec_len self.now.slots }
        ensures { result ≡ variable_of self.now item }
    {
        self.variables[item]
    }

    fn uses_of(&self, item: usize) -> &[usize]
        requires { item < vec_len self.now.slots }
        ensures { result.now ≡ uses_of self.now item }
    {
        &self.uses[item]
    }

    pub(crate) fn readers_of(&self, item: usize) -> &[usize]
        requires { item < vec_len self.now.slots }
        ensures { result.now ≡ readers_of self.now item }
    {
        &self.readers[item]
    }

    /// Whether both items stand in one block.
    pub(crate) fn in_one_block(&self, a: usize, b: usize) -> bool
        requires first { a < vec_len self.now.slots }
        requires second { b < vec_len self.now.slots }
        ensures { result ≡ same_block self.now a b }
    {
        is_same_slot(self.slot(a), self.slot(b))
    }

    /// Whether the child, placed next, is reached without an independent flow edge by `last`, the last placed item
    /// that defines a variable which it uses.
    fn is_reached_by(&self, rivals: &Rivals, last: Option<usize>, child: usize) -> bool
        requires rivals { AreRivals self.now rivals.now }
        requires last { IfSome last (λ d. d < vec_len self.now.slots) }
        requires child { child < vec_len self.now.slots }
        ensures { result ≡ is_reached_by self.now last child }
    {
        let Some(source) = last else {
            return false;
        };
        if !self.in_one_block(source, child) {
            return false;
        }
        !rivals.leads(self, source, child)
    }

    /// Whether the child is so reached by the last definition of one of these variables.
    fn is_one_reaching(
        &self,
        rivals: &Rivals,
        last: &[Option<usize>],
        child: usize,
        variables: &[usize],
    ) -> bool
        requires rivals { AreRivals self.now rivals.now }
        requires last { (v d : ℕ) → get_or last.now v None ≡ Some d → d < vec_len self.now.slots }
        requires child { child < vec_len self.now.slots }
        ensures { result ≡ some_reach self.now last.now child variables.now }
    {
        for variable in variables {
            if self.is_reached_by(rivals, number_at(last, *variable), child) {
                return true;
            }
        }
        false
    }

    /// Whether the child, placed next, is reached wrongly by one of the placed items.
    fn is_reached_wrongly(&self, summary: &Summary, rivals: &Rivals, child: usize) -> bool
        requires rivals { AreRivals self.now rivals.now }
        requires last { (v d : ℕ) → get_or summary.now.last.items v None ≡ Some d → d < vec_len self.now.slots }
        requires child { child < vec_len self.now.slots }
        ensures { (placed : List ℕ) → IsSummary self.now placed summary.now
            → result ≡ reached_wrongly self.now placed child }
    {
        self.is_one_reaching(rivals, &summary.last, child, self.uses_of(child))
    }

    /// Whether the reader is another item of the child's block that is not yet placed.
    pub(crate) fn is_left(
        &self,
        marks: &[bool],
        placed: &[usize],
        child: usize,
        reader: usize,
    ) -> bool
        requires row { length marks.now ≡ vec_len self.now.slots }
        requires marks { IsMarksOf marks.now placed.now }
        requires child { child < vec_len self.now.slots }
        requires reader { reader < vec_len self.now.slots }
        ensures { result ≡ is_left self.now placed.now child reader }
    {
        if reader == child {
            return false;
        }
        if marks[reader] {
            return false;
        }
        self.in_one_block(child, reader)
    }

    /// Whether the child, placed next, kills what one of the placed items defines: more is needed of the items of its
    /// group than what the child itself is given.
    fn kills(
        &self,
        rivals: &Rivals,
        needs: &[u128],
        marks: &[bool],
        placed: &[usize],
        child: usize,
    ) -> bool
        requires rivals { AreRivals self.now rivals.now }
        requires needs { AreNeeds self.now rivals.now placed.now needs.now }
        requires row { length marks.now ≡ vec_len self.now.slots }
        requires marks { IsMarksOf marks.now placed.now }
        requires child { child < vec_len self.now.slots }
        requires once { IsDistinct placed.now }
        requires fresh { is_in placed.now child ≡ false }
        ensures { result ≡ kills_one self.now placed.now placed.now child }
    {
        let Some(group) = rivals.group(child) else {
            return false;
        };
        needs[group] != rivals.own(self, marks, placed, child, group) as u128
    }

    /// Whether the child clashes with the placed items, which have marks, a summary and counts.
    pub(crate) fn clashes(
        &self,
        summary: &Summary,
        rivals: &Rivals,
        needs: &[u128],
        marks: &[bool],
        placed: &[usize],
        child: usize,
    ) -> bool
        requires summary { IsSummary self.now placed.now summary.now }
        requires rivals { AreRivals self.now rivals.now }
        requires needs { AreNeeds self.now rivals.now placed.now needs.now }
        requires row { length marks.now ≡ vec_len self.now.slots }
        requires marks { IsMarksOf marks.now placed.now }
        requires child { child < vec_len self.now.slots }
        requires once { IsDistinct placed.now }
        requires fresh { is_in placed.now child ≡ false }
        ensures { result ≡ clash self.now placed.now child }
    {
        if self.is_reached_wrongly(summary, rivals, child) {
            return true;
        }
        self.kills(rivals, needs, marks, placed, child)
    }
}
