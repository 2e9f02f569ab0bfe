//! The first clash of a search.
ghost use Rattle.std.specs.Prelude.{◌≡◌, List, [], IfNone, IfOk, IfSome};
ghost use Rattle.hpr_graph.specs.declared.vertex.Vertex.{Vertex};
ghost use Rattle.hpr_graph.specs.Numbered.{graph_in};
ghost use Rattle.hpr_order.specs.Arranging.{AreIssued, IsRanking};
ghost use Rattle.hpr_region.specs.Plans.{IsPlanOf};
ghost use Rattle.hpr_rebuild.specs.Candidates.{AreCandidates};
ghost use Rattle.hpr_rebuild.specs.FirstClash.{HasNoFirstClash, IsClashOf};

use crate::candidates::Candidates;
use crate::search::regions_of;
use hpr_forest::first_clash as clash_of;
use hpr_graph::{Graph, Vertex};
use hpr_region::Search;
use hpr_syntax::Issued;
use hpr_syntax::proper::read_issued;
use hpr_terms::NoMemory;
use std::alloc::Global;

/// The first leaf of a graph's arrangements, whose last part clashes with those before it.
#[derive(Drop)]
pub struct FirstClash {
    /// The numbers of the parts before it, in their order.
    pub front: Vec<usize>,
    /// The number of the part that clashes with them.
    pub part: usize,
}

/// The first leaf and its clash, among the candidates.
fn first_among(mut candidates: Candidates) -> Result<Option<FirstClash>, NoMemory>
    requires sound { AreCandidates candidates.graph.now candidates.regions.now candidates.issued.now
        candidates.search.plan }
    requires first { candidates.search.placed ≡ [] }
    ensures clash { IfOk result (λ o. IfSome o (λ f. (rank : List Vertex)
        → IsPlanOf candidates.entry.graph.now rank candidates.entry.search.plan
        → IsClashOf candidates.entry.graph.now rank candidates.entry.issued.now f)) }
    ensures none { IfOk result (λ o. IfNone o ((rank : List Vertex)
        → IsPlanOf candidates.entry.graph.now rank candidates.entry.search.plan
        → HasNoFirstClash (graph_in candidates.entry.graph.now) rank candidates.entry.issued.now)) }
{
    let Some(item) = clash_of(&mut candidates) else {
        return Ok(None);
    };
    let part = candidates.search.number_at(item);
    let front = Vec::from_slice(candidates.alloc, candidates.search.placed())?;
    Ok(Some(FirstClash { front, part }))
}

/// Why the first leaf of the arrangements fits no program: its last part, which clashes with those before it. None where no part of the
/// first leaf clashes, or no arrangement is there. An error is want of memory. The rank and the issued numbers are
/// as for [`crate::rebuild`]. Horwitz, Prins and Reps 1989 have no such search.
pub fn first_clash(
    alloc: Global,
    graph: &Graph,
    rank: &[Vertex],
    issued: &Issued,
) -> Result<Option<FirstClash>, NoMemory>
    requires rank { IsRanking (graph_in graph.now) rank.now }
    requires issued { AreIssued (graph_in graph.now) issued.now }
    ensures clash { IfOk result (λ o. IfSome o (IsClashOf graph.now rank.now issued.now)) }
    ensures none { IfOk result (λ o. IfNone o (HasNoFirstClash (graph_in graph.now) rank.now issued.now)) }
{
    read_issued(issued);
    let Some(tree) = regions_of(alloc, graph)? else {
        return Ok(None);
    };
    let search = Search::start(alloc, graph, &tree, rank)?;
    let candidates = Candidates {
        search,
        graph,
        regions: &tree,
        issued,
        alloc,
    };
    first_among(candidates)
}
