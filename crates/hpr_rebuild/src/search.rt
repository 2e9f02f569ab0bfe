//! The first arrangement that has the graph.
ghost use Rattle.std.specs.Prelude.{◌≡◌, ◌≢◌, ◌-◌, ◌≤◌, false, List, [], IfNone, IfOk, IfSome, IsErrOf};
ghost use Rattle.hpr_syntax.specs.Issued.{Issued};
ghost use Rattle.hpr_syntax.specs.Tree.{Tree};
ghost use Rattle.hpr_graph.specs.Numbered.{graph_in};
ghost use Rattle.hpr_graph.specs.declared.conflict.Conflict.{Conflict};
ghost use Rattle.hpr_graph.specs.declared.vertex.Vertex.{Vertex};
ghost use Rattle.hpr_graph.specs.Answer.{printed, spent, HasNoProgram, IsFound};
ghost use Rattle.hpr_graph.specs.Arrangements.{IsArrangement};
ghost use Rattle.hpr_graph.specs.Leaves.{AreLeavesSpent};
ghost use Rattle.hpr_order.specs.Regions.{AreRegionsOf};
ghost use Rattle.hpr_order.specs.Arranging.{IsRanking, AreIssued};
ghost use Rattle.hpr_region.specs.Plans.{IsPlanOf};
ghost use Rattle.hpr_rebuild.specs.Candidates.{AreCandidates};
ghost use Rattle.hpr_rebuild.specs.Rebuilding.{IfFound, IfNoProgram, IfSpent};
ghost use Rattle.hpr_rebuild.specs.Tries.{AreAllWithin, AreSoMany, IsFoundWithin};

use crate::candidates::Candidates;
use crate::error::RebuildError;
use hpr_forest::{Found, first_fitting};
use hpr_graph::{Graph, Vertex};
use hpr_order::{OrderError, RegionTree, regions};
use hpr_region::Search;
use hpr_syntax::proper::read_issued;
use hpr_syntax::{Issued, Program};
use hpr_terms::NoMemory;
use std::alloc::Global;

/// What comes of a search for a program that has a graph, and how many tries were made.
#[derive(Drop)]
pub enum Rebuilt {
    /// The first arrangement that has the graph, and the number of its leaf, from 1.
    Found(Program, u64),
    /// No program has the graph; and how many leaves there are.
    NoProgram(u64),
    /// There are more leaves than tries, and none of those tried has the graph.
    Spent,
}

fn is_memory(error: &OrderError) -> bool
    ensures { result ≡ false → error.now ≢ OrderError.Memory }
{
    matches!(error, OrderError::Memory)
}

/// Where the vertices stand; none where no program has the graph.
pub(crate) fn regions_of(alloc: Global, graph: &Graph) -> Result<Option<RegionTree>, NoMemory>
    ensures some { IfOk result (λ o. IfSome o (λ rs. AreRegionsOf graph.now rs)) }
    ensures no_program { IfOk result (λ o. IfNone o (HasNoProgram (graph_in graph.now))) }
    ensures no_arrangement { IfOk result (λ o. IfNone o ((issued : Issued) (p : Tree)
        → ¬ IsArrangement (graph_in graph.now) issued p)) }
{
    match regions(alloc, graph) {
        Ok(tree) => Ok(Some(tree)),
        Err(error) => {
            if is_memory(&error) {
                return Err(NoMemory);
            }
            Ok(None)
        }
    }
}

/// The first of the candidates that has the graph, with at most so many tries.
fn first_candidate(mut candidates: Candidates, tries: u64) -> Result<Rebuilt, NoMemory>
    requires sound { AreCandidates candidates.graph.now candidates.regions.now candidates.issued.now
        candidates.search.plan }
    requires first { candidates.search.placed ≡ [] }
    ensures found { IfOk result (λ r. IfFound r (λ p n. (rank : List Vertex)
        → IsPlanOf candidates.entry.graph.now rank candidates.entry.search.plan
        → IsFound {X = Conflict} (graph_in candidates.entry.graph.now) rank candidates.entry.issued.now tries
        (printed p))) }
    ensures found_within { IfOk result (λ r. IfFound r (λ p n. (rank : List Vertex)
        → IsPlanOf candidates.entry.graph.now rank candidates.entry.search.plan
        → IsFoundWithin (graph_in candidates.entry.graph.now) rank candidates.entry.issued.now n p)) }
    ensures found_least { IfOk result (λ r. IfFound r (λ p n. (rank : List Vertex)
        → IsPlanOf candidates.entry.graph.now rank candidates.entry.search.plan
        → AreLeavesSpent (graph_in candidates.entry.graph.now) rank candidates.entry.issued.now (n - 1))) }
    ensures found_tries { IfOk result (λ r. IfFound r (λ p n. n ≤ tries)) }
    ensures no_program { IfOk result (λ r. IfNoProgram r (λ n. HasNoProgram (graph_in candidates.entry.graph.now))) }
    ensures all { IfOk result (λ r. IfNoProgram r (λ n. (rank : List Vertex)
        → IsPlanOf candidates.entry.graph.now rank candidates.entry.search.plan
        → AreSoMany (graph_in candidates.entry.graph.now) rank candidates.entry.issued.now n)) }
    ensures all_tries { IfOk result (λ r. IfNoProgram r (λ n. n ≤ tries)) }
    ensures spent { IfOk result (λ r. IfSpent r ((rank : List Vertex)
        → IsPlanOf candidates.entry.graph.now rank candidates.entry.search.plan
        → IsFound {X = Conflict} (graph_in candidates.entry.graph.now) rank candidates.entry.issued.now tries spent)) }
    ensures leaves { IfOk result (λ r. IfSpent r ((rank : List Vertex)
        → IsPlanOf candidates.entry.graph.now rank candidates.entry.search.plan
        → AreLeavesSpent (graph_in candidates.entry.graph.now) rank candidates.entry.issued.now tries)) }
{
    match first_fitting(&mut candidates, tries) {
        Ok(Found::First(leaf)) => Ok(Rebuilt::Found(candidates.program()?, leaf)),
        Ok(Found::NoneFits(leaves)) => Ok(Rebuilt::NoProgram(leaves)),
        Ok(Found::Spent) => Ok(Rebuilt::Spent),
        Err(_) => Err(NoMemory),
    }
}

/// What [`rebuild`] answers, with how many tries were made; an error is want of memory.
///
/// A program that is found is a whole preorder, which is the leaf of the number that is told: with one try fewer
/// the tries would be spent. Where no program has the graph, there are as many leaves as is told: none where the
/// control edges alone show it.
pub fn rebuild_counted(
    alloc: Global,
    graph: &Graph,
    rank: &[Vertex],
    issued: &Issued,
    tries: u64,
) -> Result<Rebuilt, NoMemory>
    requires rank { IsRanking (graph_in graph.now) rank.now }
    requires issued { AreIssued (graph_in graph.now) issued.now }
    requires tries { 1 ≤ tries }
    ensures found { IfOk result (λ r. IfFound r (λ p n.
        IsFound {X = Conflict} (graph_in graph.now) rank.now issued.now tries (printed p))) }
    ensures found_within { IfOk result (λ r. IfFound r (λ p n.
        IsFoundWithin (graph_in graph.now) rank.now issued.now n p)) }
    ensures found_least { IfOk result (λ r. IfFound r (λ p n.
        AreLeavesSpent (graph_in graph.now) rank.now issued.now (n - 1))) }
    ensures found_tries { IfOk result (λ r. IfFound r (λ p n. n ≤ tries)) }
    ensures no_program { IfOk result (λ r. IfNoProgram r (λ n. HasNoProgram (graph_in graph.now))) }
    ensures all { IfOk result (λ r. IfNoProgram r (λ n. AreSoMany (graph_in graph.now) rank.now issued.now n)) }
    ensures all_tries { IfOk result (λ r. IfNoProgram r (λ n. n ≤ tries)) }
    ensures spent { IfOk result (λ r. IfSpent r
        (IsFound {X = Conflict} (graph_in graph.now) rank.now issued.now tries spent)) }
    ensures leaves { IfOk result (λ r. IfSpent r
        (AreLeavesSpent (graph_in graph.now) rank.now issued.now tries)) }
{
    read_issued(issued);
    let Some(tree) = regions_of(alloc, graph)? else {
        return Ok(Rebuilt::NoProgram(0));
    };
    let search = Search::start(alloc, graph, &tree, rank)?;
    let candidates = Candidates {
        search,
        graph,
        regions: &tree,
        issued,
        alloc,
    };
    first_candidate(candidates, tries)
}

/// The first arrangement whose graph is this one (Horwitz, Prins and Reps 1989), with these issued
/// numbers. Arrangements are the programs that the graph's parts and control edges allow, in the order
/// of the ranks of their parts. They are searched part by part. A try, of which at least one is allowed, is
/// an arrangement that was made and judged, or a front of parts behind which none has the graph, so that
/// all that begin with it are given up.
///
/// The rank has every part of the graph and nothing twice. Each part's serial is at least 1 and at most
/// its author's issued number.
///
/// `NoProgram` says that no program has the graph. `Spent` comes only where there are more
/// arrangements than tries, and none of the first that many has the graph: with exactly as many
/// arrangements as tries, all are judged, and the answer is `NoProgram`. So it is of leaves, too: a leaf is
/// a preorder cut behind its first part that clashes with those before it, and many arrangements may
/// share one. `Memory` is want of memory.
///
/// No more than `tries` leaves are looked at: a program that is found is one of the first that many, and where
/// no program has the graph there are no more.
///
/// A try takes the graph of one program, which isn't kept. So memory doesn't grow with the tries.
pub fn rebuild(
    alloc: Global,
    graph: &Graph,
    rank: &[Vertex],
    issued: &Issued,
    tries: u64,
) -> Result<Program, RebuildError>
    requires rank { IsRanking (graph_in graph.now) rank.now }
    requires issued { AreIssued (graph_in graph.now) issued.now }
    requires tries { 1 ≤ tries }
    ensures found { IfOk result (λ p. IsFound {X = Conflict} (graph_in graph.now) rank.now issued.now tries (printed p)) }
    ensures found_within { IfOk result (IsFoundWithin (graph_in graph.now) rank.now issued.now tries) }
    ensures no_program { IsErrOf result RebuildError.NoProgram → HasNoProgram (graph_in graph.now) }
    ensures all_within { IsErrOf result RebuildError.NoProgram
        → AreAllWithin (graph_in graph.now) rank.now issued.now tries }
    ensures spent { IsErrOf result RebuildError.Spent
        → IsFound {X = Conflict} (graph_in graph.now) rank.now issued.now tries spent }
    ensures leaves { IsErrOf result RebuildError.Spent → AreLeavesSpent (graph_in graph.now) rank.now issued.now tries }
{
    match rebuild_counted(alloc, graph, rank, issued, tries)? {
        Rebuilt::Found(program, _) => Ok(program),
        Rebuilt::NoProgram(_) => Err(RebuildError::NoProgram),
        Rebuilt::Spent => Err(RebuildError::Spent),
    }
}
