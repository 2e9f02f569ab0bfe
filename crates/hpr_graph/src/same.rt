//! Graphs compared by their sets.
ghost use Rattle.std.specs.Prelude.{◌≡◌, ◌↔◌, ◌<◌, ℕ, IsTrue, Contains, Some, length, slice_get};
ghost use Rattle.std.specs.List.Sorted.{IsSorted};
ghost use Rattle.hpr_graph.specs.declared.link.Link.{Link};
ghost use Rattle.hpr_graph.specs.declared.link.LinkKind.{LinkKind};
ghost use Rattle.hpr_graph.specs.Graphs.{IsOnce, IsWithin};
ghost use Rattle.hpr_graph.specs.Numbered.{IsNumbered, graph_in, link_count};
ghost use Rattle.hpr_graph.specs.Twins.{IsSomeKind, IsSomeLink, SameKind, SameLink, HasTwin, HasTwins};

use crate::links::has_sorted;
use crate::{Graph, Link, LinkKind, Vertex};

/// Whether the graphs have as many vertices as each other, and as many edges.
pub(crate) fn have_same_counts(a: &Graph, b: &Graph) -> bool
    ensures counts { IsTrue result ↔ ((length a.now.vertices ≡ length b.now.vertices)
        × (link_count a.now ≡ link_count b.now)) }
    ensures numbered { IsNumbered a.now × IsNumbered b.now }
{
    a.vertices().len() == b.vertices().len() && a.edge_count() == b.edge_count()
}

/// Whether the other graph has all vertices and all edges of this one.
pub(crate) fn is_within(graph: &Graph, other: &Graph) -> bool
    ensures { IsTrue result ↔ IsWithin (graph_in graph.now) (graph_in other.now) }
{
    let vertices = graph.vertices();
    for at in 0..vertices.len() {
        let Some(there) = other.number_of(&vertices[at]) else {
            return false;
        };
        if !is_row_within(
            vertices,
            graph.edges_into(at),
            other,
            other.edges_into(there),
        ) {
            return false;
        }
    }
    true
}

/// Whether each edge of a row is the same as one of a row of the other graph, which ascends.
fn is_row_within(vertices: &[Vertex], row: &[Link], other: &Graph, other_row: &[Link]) -> bool
    requires row { (l : Link) → Contains row.now l → IsSomeLink vertices.now l }
    requires once { IsOnce other.now.vertices }
    requires sorted { IsSorted ⟦<Link as Ord>⟧.cmp other_row.now }
    ensures { IsTrue result ↔ HasTwins vertices.now row.now other.now.vertices other_row.now }
{
    let mut next = 0;
    for link in row {
        if !has_twin(vertices, *link, other, other_row, &mut next) {
            return false;
        }
    }
    true
}

/// Whether the edge is the same as one of the row, which ascends: looks the link by the numbers there up.
fn has_twin(vertices: &[Vertex], link: Link, other: &Graph, row: &[Link], next: &mut usize) -> bool
    requires link { IsSomeLink vertices.now link }
    requires once { IsOnce other.now.vertices }
    requires sorted { IsSorted ⟦<Link as Ord>⟧.cmp row.now }
    ensures { IsTrue result ↔ HasTwin vertices.now link other.now.vertices row.now }
{
    match link_there(vertices, link, other) {
        Some(there) => has_sorted(row, there, next),
        None => false,
    }
}

/// The link by the numbers of the other graph, or none where that lacks one of its vertices.
fn link_there(vertices: &[Vertex], link: Link, other: &Graph) -> Option<Link>
    requires link { IsSomeLink vertices.now link }
    requires once { IsOnce other.now.vertices }
    ensures { (l : Link) → SameLink vertices.now link other.now.vertices l ↔ (result ≡ Some l) }
{
    let from = number_there(vertices, link.from, other)?;
    let kind = kind_there(vertices, link.kind, other)?;
    Some(Link { from, kind })
}

fn kind_there(vertices: &[Vertex], kind: LinkKind, other: &Graph) -> Option<LinkKind>
    requires kind { IsSomeKind vertices.now kind }
    requires once { IsOnce other.now.vertices }
    ensures { (k : LinkKind) → SameKind vertices.now kind other.now.vertices k ↔ (result ≡ Some k) }
{
    match kind {
        LinkKind::Control(label) => Some(LinkKind::Control(label)),
        LinkKind::Independent => Some(LinkKind::Independent),
        LinkKind::Carried(w) => Some(LinkKind::Carried(number_there(vertices, w, other)?)),
        LinkKind::Order(u) => Some(LinkKind::Order(number_there(vertices, u, other)?)),
    }
}

/// The number that a vertex has in the other graph.
fn number_there(vertices: &[Vertex], at: usize, other: &Graph) -> Option<usize>
    requires at { at < length vertices.now }
    requires once { IsOnce other.now.vertices }
    ensures { (i : ℕ) → (slice_get other.now.vertices i ≡ slice_get vertices.now at) ↔ (result ≡ Some i) }
{
    other.number_of(&vertices[at])
}
