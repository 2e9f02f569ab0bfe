//! The search for the merged program, with what is told of it.
ghost use Rattle.std.specs.Prelude.{◌≡◌, ◌≤◌, IfOk};
ghost use Rattle.hpr_graph.specs.Numbered.{graph_in};
ghost use Rattle.hpr_order.specs.Arranging.{AreIssued, IsRanking};
ghost use Rattle.hpr_outcome.specs.Outcomes.{IfInterference, IfMerged, IfNoProgram, IfSpent, IsClashTold};
ghost use Rattle.hpr_outcome.specs.Outcomes.{IsMergedBy, IsNoneBy, IsSoughtFrom, IsSpentBy};

use crate::outcome::{Outcome, Sought};
use hpr_engine::Searched;
use hpr_graph::NoMemory;
use hpr_rebuild::{FirstClash, Rebuilt, first_clash, rebuild_counted};
use std::alloc::Global;

/// What is told of a search with so many tries.
fn sought(searched: Searched, tries: u64) -> Sought
    ensures from { IsSoughtFrom searched result }
    ensures tries { result.tries ≡ tries }
{
    Sought {
        graph: searched.graph,
        renamed: searched.renamed,
        tries,
    }
}

/// The first clash of the search, where there is one.
fn clash_in(alloc: Global, searched: &Searched) -> Result<Option<FirstClash>, NoMemory>
    requires ranking { IsRanking (graph_in searched.now.graph) searched.now.rank.items }
    requires issued { AreIssued (graph_in searched.now.graph) searched.now.issued }
    ensures { IfOk result (IsClashTold searched.now.graph searched.now.rank.items searched.now.issued) }
{
    first_clash(alloc, &searched.graph, &searched.rank, &searched.issued)
}

/// What comes of the search with at most so many tries.
pub(crate) fn search(alloc: Global, searched: Searched, tries: u64) -> Result<Outcome, NoMemory>
    requires ranking { IsRanking (graph_in searched.graph) searched.rank.items }
    requires issued { AreIssued (graph_in searched.graph) searched.issued }
    requires tries { 1 ≤ tries }
    ensures merged { IfOk result (λ o. IfMerged o (λ p s. IsSoughtFrom searched s
        × IsMergedBy searched.rank.items searched.issued tries p s)) }
    ensures no_program { IfOk result (λ o. IfNoProgram o (λ s c. IsSoughtFrom searched s
        × IsNoneBy searched.rank.items searched.issued tries s c)) }
    ensures spent { IfOk result (λ o. IfSpent o (λ s c. IsSoughtFrom searched s
        × IsSpentBy searched.rank.items searched.issued tries s c)) }
    ensures judged { IfOk result (λ o. IfInterference o (λ cs. ⊥)) }
{
    match rebuild_counted(
        alloc,
        &searched.graph,
        &searched.rank,
        &searched.issued,
        tries,
    )? {
        Rebuilt::Found(program, leaf) => Ok(Outcome::Merged(program, sought(searched, leaf))),
        Rebuilt::NoProgram(leaves) => {
            let clash = clash_in(alloc, &searched)?;
            Ok(Outcome::NoProgram(sought(searched, leaves), clash))
        }
        Rebuilt::Spent => {
            let clash = clash_in(alloc, &searched)?;
            Ok(Outcome::Spent(sought(searched, tries), clash))
        }
    }
}
