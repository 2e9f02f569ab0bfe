//! Graphs with dense numbers.
ghost use Rattle.std.specs.Prelude.{◌≡◌, ◌↔◌, ℕ, ◌<◌, [], length, map, Contains, slice_get, Some, IsNone, IsTrue, IfOk, IfSome};
ghost use Rattle.std.specs.List.Sorted.{IsSorted};
ghost use Rattle.hpr_graph.specs.declared.link.Link.{Link};
ghost use Rattle.hpr_graph.specs.Graphs.{HasEdges, IsOnce, Same, name_of, union_of, restrict_to};
ghost use Rattle.hpr_graph.specs.Numbered.{HasVertex, HasLink, IsEdgeAt, IsLink, IsNumbered, IsMarkedVertex, graph_in, link_count};
ghost use Rattle.hpr_graph.specs.InOrder.{AreVerticesOf, RowsAscend};

use crate::ordered::{edge_at, ordered};
use crate::same::{have_same_counts, is_within};
use crate::sets::{restricted, united};
use crate::{Draft, Edge, Link, Vertex};
use hpr_syntax::NoMemory;
use std::alloc::Global;
use std::marker::Model;

/// A dependence graph: a finite set of vertices and a finite set of edges, all of whose vertices are
/// vertices of the graph. It is filled as a `Draft`.
///
/// The vertices have the numbers 0, 1, .. in the order of adding. An edge is a link in the row of its
/// target, and the links of a row ascend. A contract sees the vertices by number with their rows of links,
/// and by these the two sets.
pub struct Graph {
    draft: Draft,
}

impl Model for Graph {
    ghost use Rattle.std.specs.Coded.{codes};
    ghost use Rattle.hpr_graph.specs.contracts.vertex.Vertex as vertex;
    ghost use Rattle.hpr_graph.specs.Numbered.{Numbered};
    ghost use Rattle.hpr_graph.specs.InOrder.{RowsAscend};

    ghost Value = { Numbered };

    ghost coded = { Prim.hlevel (codes, vertex.the_row.coded) };

    ghost view = { λ g. g.draft };

    ghost invariant = { λ g. RowsAscend ⟦<Link as Ord>⟧.cmp g.draft };
}

/// A graph is dropped in one call.
impl Drop for Graph {
    fn drop(self) {
        let Graph { draft: _ } = self;
    }
}

impl Graph {
    /// The graph with no vertex, whose memory comes from this allocator.
    pub fn empty(alloc: Global) -> Graph
        ensures vertices { result.vertices ≡ [] }
        ensures links { result.links ≡ [] }
    {
        Graph {
            draft: Draft::empty(alloc),
        }
    }

    /// The graph with these vertices in this order, each once, and no edge.
    pub fn of_vertices(alloc: Global, vertices: &[Vertex]) -> Result<Graph, NoMemory>
        requires { IsOnce vertices.now }
        ensures vertices { IfOk result (λ g. g.vertices ≡ vertices.now) }
        ensures none { IfOk result (λ g. (to : ℕ) (l : Link) → ¬ HasLink g to l) }
    {
        let draft = Draft::of_vertices(alloc, vertices)?;
        Ok(draft.finish())
    }

    /// The graph of a draft whose rows ascend.
    pub(crate) fn of_sorted(draft: Draft) -> Graph
        requires { RowsAscend ⟦<Link as Ord>⟧.cmp draft }
        ensures { result ≡ draft }
    {
        Graph { draft }
    }

    /// How many vertices there are.
    pub fn vertex_count(&self) -> usize
        ensures { result ≡ length self.now.vertices }
    {
        self.draft.vertex_count()
    }

    /// How many edges there are.
    pub fn edge_count(&self) -> usize
        ensures count { result ≡ link_count self.now }
        ensures edges { HasEdges (graph_in self.now) result }
        ensures numbered { IsNumbered self.now }
        ensures rows { RowsAscend ⟦<Link as Ord>⟧.cmp self.now }
    {
        self.draft.edge_count()
    }

    /// The vertex with this number, which is below `vertex_count`.
    pub fn vertex(&self, at: usize) -> &Vertex
        requires { at < length self.now.vertices }
        ensures { slice_get self.now.vertices at ≡ Some result.now }
    {
        &self.vertices()[at]
    }

    /// The vertices in the order of their numbers.
    pub fn vertices(&self) -> &[Vertex]
        ensures vertices { result.now ≡ self.now.vertices }
        ensures numbered { IsNumbered self.now }
        ensures rows { RowsAscend ⟦<Link as Ord>⟧.cmp self.now }
    {
        self.draft.vertices()
    }

    /// The number of the vertex, or none where the graph lacks it. Takes one look-up by hash.
    pub fn number_of(&self, vertex: &Vertex) -> Option<usize>
        ensures found { IfSome result (λ n. slice_get self.now.vertices n ≡ Some vertex.now) }
        ensures stranger { IsNone result ↔ (¬ HasVertex self.now vertex.now) }
    {
        self.draft.number_of(vertex)
    }

    /// Whether the link into the vertex with the number `to` is an edge: all its numbers are vertices, and
    /// the source of a flow edge defines a name.
    pub fn is_link(&self, to: usize, link: Link) -> bool
        ensures { IsTrue result ↔ IsLink self.now to link }
    {
        self.draft.is_link(to, link)
    }

    /// The edges into the vertex with this number, which is below `vertex_count`. Their links ascend.
    pub fn edges_into(&self, at: usize) -> &[Link]
        requires { at < length self.now.vertices }
        ensures row { slice_get self.now.links at ≡ Some result.now }
        ensures links { (l : Link) → Contains result.now l → IsLink self.now at l }
        ensures numbered { IsNumbered self.now }
        ensures ascend { IsSorted ⟦<Link as Ord>⟧.cmp result.now }
    {
        self.draft.edges_into(at)
    }

    /// A draft with the same vertices and edges under the same numbers, to which more can be added.
    pub(crate) fn draft(&self) -> Result<Draft, NoMemory>
        ensures { IfOk result (λ d. d ≡ self.now) }
    {
        self.draft.copy()
    }

    /// The graph with the same edges by numbers, and with these vertices under the numbers, each once: as many
    /// as this one has, each of which defines the name that the one with its number defines here.
    pub fn with_vertices(&self, vertices: Vec<Vertex>) -> Result<Graph, NoMemory>
        requires once { IsOnce vertices.items }
        requires names { map name_of vertices.items ≡ map name_of self.now.vertices }
        ensures { IfOk result (λ g. g ≡ record { vertices = vertices.items; links = self.now.links }) }
    {
        let draft = self.draft.with_vertices(vertices)?;
        Ok(Graph { draft })
    }

    /// The vertices and the edges of both graphs. Looks each vertex of the other graph up by hash, and each edge
    /// of it by halving the row of its target here; then sorts each row once.
    pub fn union(&self, other: &Graph) -> Result<Graph, NoMemory>
        ensures { IfOk result (λ g. Same (graph_in g) (union_of (graph_in self.now) (graph_in other.now))) }
    {
        united(self.draft.alloc(), self, other)
    }

    /// The marked vertices, and the edges all of whose vertices are marked: both ends, the loop of a
    /// carried edge, the shared use of an order edge. There are as many marks as vertices. Takes a step for
    /// each vertex and each edge of this graph, and sorts each row of the new one.
    pub fn restrict(&self, keep: &[bool]) -> Result<Graph, NoMemory>
        requires { length keep.now ≡ length self.now.vertices }
        ensures { IfOk result (λ g. Same (graph_in g) (restrict_to (graph_in self.now)
            (IsMarkedVertex self.now keep.now))) }
    {
        restricted(self.draft.alloc(), self, keep)
    }

    /// The same graph with its vertices numbered in their order, and the edges into each in the order of
    /// their links, which is that of the edges. Sorts the vertices, looks each one up among them by halving,
    /// and sorts each row.
    pub fn in_order(&self) -> Result<Graph, NoMemory>
        ensures same { IfOk result (λ g. Same (graph_in g) (graph_in self.now)) }
        ensures vertices { IfOk result (λ g. AreVerticesOf (graph_in self.now) g.vertices) }
        ensures rows { IfOk result (λ g. RowsAscend ⟦<Link as Ord>⟧.cmp g) }
    {
        ordered(self.draft.alloc(), self)
    }

    /// The edge that a link into the vertex with the number `to` is; `is_link` says which links are edges.
    pub fn edge(&self, to: usize, link: Link) -> Result<Edge, NoMemory>
        requires { IsLink self.now to link }
        ensures { IfOk result (λ e. IsEdgeAt self.now.vertices to link e) }
    {
        edge_at(self.draft.alloc(), self.vertices(), to, link)
    }

    /// Whether the graphs have the same vertices and the same edges, whatever their numbers. Takes no
    /// memory. Graphs with as many vertices and as many edges are the same where one is within the other:
    /// looks each vertex of this one up in the other by hash, and for each edge its source and its loop or
    /// shared use; then the edge by halving the row of its target.
    pub fn same(&self, other: &Graph) -> bool
        ensures { IsTrue result ↔ Same (graph_in self.now) (graph_in other.now) }
    {
        have_same_counts(self, other) && is_within(self, other)
    }
}
