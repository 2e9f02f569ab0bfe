//! The arrangements of a graph, as what a search places part by part.
ghost use Rattle.std.specs.Prelude.{◌≡◌, ◌↔◌, IfOk, IsTrue};
ghost use Rattle.hpr_syntax.specs.Tree.{Tree};
ghost use Rattle.hpr_graph.specs.Numbered.{graph_in};
ghost use Rattle.hpr_graph.specs.Answer.{Fits};
ghost use Rattle.hpr_graph.specs.Arrangements.{IsArrangement};
ghost use Rattle.hpr_graph.specs.Rank.{parts_of};
ghost use Rattle.hpr_forest.specs.Choices.{IsWhole};
ghost use Rattle.hpr_region.specs.Plans.{clash_in, may_follow, size_of, vertices_at};
ghost use Rattle.std.proofs.Common.{refl, sym, ap, ◌∙◌};
ghost use Rattle.hpr_rebuild.specs.Candidates.{AreCandidates, FitsInOrder, fits_too, sound_too};

use hpr_build::{BuildError, graph_of};
use hpr_forest::Backtracking;
use hpr_graph::Graph;
use hpr_order::{RegionTree, arrange};
use hpr_region::Search;
use hpr_syntax::{Issued, Program};
use hpr_terms::NoMemory;
use std::alloc::{AllocError, Global};

/// The arrangements of a graph with these issued numbers, as orders of its parts: a search places the parts
/// one by one, and judges whole arrangements by their graphs.
pub(crate) struct Candidates<'a> {
    pub search: Search,
    pub graph: &'a Graph,
    pub regions: &'a RegionTree,
    pub issued: &'a Issued,
    pub alloc: Global,
}

// By hand, so that each way out of a function that holds candidates is one call.
impl Drop for Candidates<'_> {
    fn drop(self) {
        let Candidates {
            search: _,
            graph: _,
            regions: _,
            issued: _,
            alloc: _,
        } = self;
    }
}

/// Whether the graph of the program is this one. The program's graph may have as many edges as this
/// one and no more: a graph with more is another, whatever the limit for the graphs of files is.
fn fits(alloc: Global, graph: &Graph, program: &Program) -> Result<bool, NoMemory>
    ensures { IfOk result (λ yes_. IsTrue yes_ ↔ Fits (graph_in graph.now) program.now) }
{
    match graph_of(alloc, program, graph.edge_count()) {
        Ok(own) => Ok(own.same(graph)),
        Err(BuildError::TooManyEdges) => Ok(false),
        Err(BuildError::Memory) => Err(NoMemory),
    }
}

impl Candidates<'_> {
    /// The arrangement whose parts in preorder are the placed ones. There is one, and there is no other.
    pub fn program(&self) -> Result<Program, NoMemory>
        requires sound { AreCandidates self.now.graph.now self.now.regions.now self.now.issued.now self.now.search.plan }
        requires whole { IsWhole (may_follow self.now.search.plan) (size_of self.now.search.plan) self.now.search.placed }
        ensures arrangement { IfOk result (λ m. IsArrangement (graph_in self.now.graph.now) self.now.issued.now m) }
        ensures parts { IfOk result (λ m. parts_of m ≡ vertices_at self.now.graph.now self.now.search.plan self.now.search.placed) }
        ensures only { IfOk result (λ m. (p : Tree) → IsArrangement (graph_in self.now.graph.now) self.now.issued.now p
            → parts_of p ≡ vertices_at self.now.graph.now self.now.search.plan self.now.search.placed → p ≡ m) }
    {
        arrange(
            self.alloc,
            self.graph,
            self.regions,
            self.search.placed(),
            self.issued,
        )
    }

    /// Whether the arrangement of the placed parts has the graph.
    fn has_graph(&self) -> Result<bool, NoMemory>
        requires sound { AreCandidates self.now.graph.now self.now.regions.now self.now.issued.now self.now.search.plan }
        requires whole { IsWhole (may_follow self.now.search.plan) (size_of self.now.search.plan) self.now.search.placed }
        ensures { IfOk result (λ yes_. IsTrue yes_
            ↔ FitsInOrder self.now.graph.now self.now.issued.now self.now.search.plan self.now.search.placed) }
    {
        let program = self.program()?;
        fits(self.alloc, self.graph, &program)
    }
}

impl Backtracking for Candidates<'_> {
    ghost size = { λ s. size_of s.search.plan };

    ghost can = { λ s. may_follow s.search.plan };

    ghost clash = { λ s. clash_in s.search.plan };

    ghost fits = { λ s. FitsInOrder s.graph.now s.issued.now s.search.plan };

    ghost placed = { λ s. s.search.placed };

    ghost is_sound = { λ s. AreCandidates s.graph.now s.regions.now s.issued.now s.search.plan };

    ghost is_same = { λ s t. (s.graph.now ≡ t.graph.now) × (s.regions.now ≡ t.regions.now)
        × (s.issued.now ≡ t.issued.now) × (s.search.plan ≡ t.search.plan) };

    fn size(&self) -> usize {
        self.search.size()
    }

    fn count(&self) -> usize {
        self.search.count()
    }

    fn next_ready(&self, from: usize) -> Option<usize> {
        self.search.next_ready(from)
    }

    fn admissible(&self, child: usize) -> bool {
        self.search.admits(child)
    }

    fn place(&mut self, child: usize) {
        self.search.push(child);
    }

    fn take_back(&mut self) -> Option<usize> {
        self.search.pop()
    }

    fn judge(&self) -> Result<bool, AllocError> {
        self.has_graph().map_err(|_| AllocError)
    }

    ghost same_self = { λ s. (refl, refl, refl, refl) };

    ghost same_then = { λ s t u a b. (a.0 ∙ b.0, a.1 ∙ b.1, a.2 ∙ b.2, a.3 ∙ b.3) };

    ghost same_size = { λ s t a. ap size_of a.3 };

    ghost same_can = { λ s t a. ap may_follow a.3 };

    ghost same_clash = { λ s t a. ap clash_in a.3 };

    ghost same_fits = { λ s t a l f. fits_too a.0 a.2 a.3 l f };

    ghost same_sound = { λ s t a f. sound_too a.0 a.1 a.2 a.3 f };

    ghost same_turned = { λ s t a. (sym a.0, sym a.1, sym a.2, sym a.3) };
}
