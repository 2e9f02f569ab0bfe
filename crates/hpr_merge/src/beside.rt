//! The merged graph with a variant's graph beside it.
ghost use Rattle.std.specs.Prelude.{◌≡◌, ◌↔◌, ◌⊎◌, ◌<◌, ◌≤◌, All, IfOk, length};
ghost use Rattle.std.specs.Ordering.{nat_cmp};
ghost use Rattle.hpr_graph.specs.declared.vertex.Vertex.{Vertex};
ghost use Rattle.hpr_graph.specs.declared.edge.Edge.{Edge};
ghost use Rattle.hpr_graph.specs.Graphs.{IsOnce};
ghost use Rattle.hpr_graph.specs.Numbered.{HasEdge, HasVertex, IsEdgeAt, IsLink};
ghost use Rattle.hpr_graph.specs.Order.{vertex_cmp};
ghost use Rattle.hpr_graph.specs.InOrder.{Ascends, RowsAscend};
ghost use Rattle.hpr_merge.specs.Beside.{AreBeside, AreLeastLinks};
ghost use Rattle.hpr_merge.specs.Candidates.{KeepsSteps};
ghost use Rattle.hpr_merge.specs.Known.{AreKnownLinks, IsNear};

use crate::added::first_added;
use crate::candidates::{candidates, keeps_steps, new_sources};
use crate::firsts::{firsts_from, rows_of};
use crate::known::{known_links, unknown_numbers};
use crate::words::reach_words;
use hpr_graph::{Edge, Graph, Link, NoMemory};
use hpr_slice::{Sources, steps_of};
use std::alloc::Global;
use std::marker::Model;

/// So many slices are looked at together, as a word has bits.
const TOGETHER: usize = 64;

/// The merged graph with a variant's graph beside it, both with the same vertices by the same numbers, to
/// compare their slices at many of them.
///
/// A contract sees the two graphs.
pub(crate) struct Beside<'a> {
    merged: &'a Graph,
    variant: &'a Graph,
    wide: Vec<(usize, usize)>,
    narrow: Vec<(usize, usize)>,
    alloc: Global,
}

/// What was looked up is dropped in one call.
impl Drop for Beside<'_> {
    fn drop(self) {
        let Beside {
            merged: _,
            variant: _,
            wide: _,
            narrow: _,
            alloc: _,
        } = self;
    }
}

impl<'a> Model for Beside<'a> {
    ghost use Rattle.std.specs.Coded.{codes};
    ghost use Rattle.hpr_graph.specs.contracts.graph.Graph as graphs;
    ghost use Rattle.hpr_merge.specs.Beside.{Pair, IsBeside};

    ghost Value = { Pair };

    ghost coded = { Prim.hlevel (codes, graphs.the_row.coded) };

    ghost view = { λ b. record { merged = b.merged.now; own = b.variant.now } };

    ghost invariant = { λ b. IsBeside ⟦<Link as Ord>⟧.cmp b.merged.now b.variant.now b.wide.items b.narrow.items };
}

impl<'a> Beside<'a> {
    /// The two graphs. Looks once at each edge.
    pub(crate) fn of(
        alloc: Global,
        merged: &'a Graph,
        variant: &'a Graph,
    ) -> Result<Beside<'a>, NoMemory>
        requires { AreBeside ⟦<Link as Ord>⟧.cmp merged.now variant.now }
        ensures merged { IfOk result (λ b. b.merged ≡ merged.now) }
        ensures own { IfOk result (λ b. b.own ≡ variant.now) }
    {
        let _vertices = merged.vertices();
        let _others = variant.vertices();
        Ok(Beside {
            merged,
            variant,
            wide: steps_of(alloc, merged)?,
            narrow: steps_of(alloc, variant)?,
            alloc,
        })
    }

    /// At each of the vertices with these numbers, which ascend, the link of the least edge that the merged
    /// graph adds to the variant's slice and that ends in a vertex of that slice, with its target's number,
    /// or none where there is none.
    ///
    /// Where the merged graph has the variant's slices there, looks at each edge a fixed number of times, and
    /// then, only for those vertices whose least edge may be an order edge, a few times for every 64 of them;
    /// else so for all of them.
    pub(crate) fn least_links(
        &self,
        numbers: &[usize],
    ) -> Result<Vec<Option<(usize, Link)>>, NoMemory>
        requires within { All (λ n. n < length self.now.merged.vertices) numbers.now }
        requires ascend { Ascends nat_cmp numbers.now }
        ensures { IfOk result (λ links. AreLeastLinks self.now numbers.now links.items) }
    {
        let near = Sources::of(self.alloc, self.variant).reaching(numbers)?;
        if !keeps_steps(self.merged, self.variant, &near) {
            return self.links_by_words(numbers);
        }
        let firsts = self.firsts(numbers, &near)?;
        self.links_by_firsts(numbers, &firsts)
    }

    /// At each vertex the first link that may be added to its slice, with its target's number. The marked
    /// vertices are those from which control and flow edges lead in the variant to those with these numbers.
    fn firsts(
        &self,
        numbers: &[usize],
        near: &[bool],
    ) -> Result<Vec<Option<(usize, Link)>>, NoMemory>
        requires near { IsNear self.now.own numbers.now near.now }
        requires keeps { KeepsSteps self.now.merged self.now.own near.now }
        ensures { IfOk result (λ firsts. AreKnownLinks self.now numbers.now firsts.items) }
    {
        let count = self.merged.vertices().len();
        let _others = self.variant.vertices();
        let sources = new_sources(self.alloc, self.merged, self.variant, near)?;
        let far = Sources::of(self.alloc, self.merged).reaching(&sources)?;
        let links = candidates(self.alloc, self.merged, self.variant, near, &far)?;
        let rows = rows_of(self.alloc, &self.narrow, count)?;
        let firsts = firsts_from(self.alloc, &rows, &links)?;
        Ok(firsts)
    }

    /// The least links, by the first link that may be added at each vertex. Looks at each edge a few times
    /// for every 64 of the vertices at which that isn't known to be the least one.
    fn links_by_firsts(
        &self,
        numbers: &[usize],
        firsts: &[Option<(usize, Link)>],
    ) -> Result<Vec<Option<(usize, Link)>>, NoMemory>
        requires within { All (λ n. n < length self.now.merged.vertices) numbers.now }
        requires ascend { Ascends nat_cmp numbers.now }
        requires firsts { AreKnownLinks self.now numbers.now firsts.now }
        ensures { IfOk result (λ links. AreLeastLinks self.now numbers.now links.items) }
    {
        let unknown = unknown_numbers(self.alloc, numbers, firsts)?;
        let some = self.links_by_words(&unknown)?;
        let links = known_links(self.alloc, numbers, firsts, &unknown, &some)?;
        Ok(links)
    }

    /// The least links, found for 64 vertices at a time. Looks at each edge a few times for every 64 of them.
    fn links_by_words(&self, numbers: &[usize]) -> Result<Vec<Option<(usize, Link)>>, NoMemory>
        requires { All (λ n. n < length self.now.merged.vertices) numbers.now }
        ensures { IfOk result (λ links. AreLeastLinks self.now numbers.now links.items) }
    {
        let mut links = Vec::with_capacity(self.alloc, numbers.len())?;
        let mut start = 0;
        while start < numbers.len() {
            let end = numbers.len().min(start + TOGETHER);
            let mut some = self.links_together(&numbers[start..end])?;
            links.append(&mut some)?;
            start = end;
        }
        Ok(links)
    }

    /// The same of no more than 64 vertices.
    fn links_together(&self, numbers: &[usize]) -> Result<Vec<Option<(usize, Link)>>, NoMemory>
        requires few { length numbers.now ≤ 64 }
        requires within { All (λ n. n < length self.now.merged.vertices) numbers.now }
        ensures { IfOk result (λ links. AreLeastLinks self.now numbers.now links.items) }
    {
        let count = self.merged.vertices().len();
        let _others = self.variant.vertices();
        let grown = reach_words(self.alloc, &self.wide, count, numbers)?;
        let own = reach_words(self.alloc, &self.narrow, count, numbers)?;
        let some = numbers.len();
        let links = first_added(self.alloc, self.merged, self.variant, &grown, &own, some)?;
        Ok(links)
    }

    /// The edge that is this link into the vertex `to` of the merged graph.
    pub(crate) fn edge(&self, to: usize, link: Link) -> Result<Edge, NoMemory>
        requires { IsLink self.now.merged to link }
        ensures { IfOk result (λ e. IsEdgeAt self.now.merged.vertices to link e) }
    {
        self.merged.edge(to, link)
    }
}

/// The graph with the vertices of the other too, in order. Looks each vertex of the other up once.
pub(crate) fn widened(alloc: Global, graph: &Graph, other: &Graph) -> Result<Graph, NoMemory>
    ensures vertices { IfOk result (λ g. (v : Vertex) → HasVertex g v
        ↔ (HasVertex graph.now v ⊎ HasVertex other.now v)) }
    ensures edges { IfOk result (λ g. (e : Edge) → HasEdge g e ↔ HasEdge graph.now e) }
    ensures order { IfOk result (λ g. Ascends vertex_cmp g.vertices) }
    ensures rows { IfOk result (λ g. RowsAscend ⟦<Link as Ord>⟧.cmp g) }
    ensures other { IfOk result (λ g. IsOnce other.now.vertices) }
{
    let bare = Graph::of_vertices(alloc, other.vertices())?;
    graph.union(&bare)?.in_order()
}
