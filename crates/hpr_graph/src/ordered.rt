//! A graph put in its order, and a link as its edge.
ghost use Rattle.std.specs.Prelude.{◌≡◌, ◌↔◌, ℕ, ◌<◌, length, Contains, slice_get, Some, IsSome, IfOk, IfSome};
ghost use Rattle.hpr_graph.specs.declared.vertex.Vertex.{Vertex};
ghost use Rattle.hpr_graph.specs.declared.edge.Kind.{Kind};
ghost use Rattle.hpr_graph.specs.declared.edge.Edge.{Edge};
ghost use Rattle.hpr_graph.specs.Graphs.{IsOnce, Same, name_of};
ghost use Rattle.hpr_graph.specs.Numbered.{IsKindAt, IsEdgeAt, IsNumbered, graph_in};
ghost use Rattle.hpr_graph.specs.Moves.{HasNumber, ArePlaced};
ghost use Rattle.hpr_graph.specs.Order.{vertex_cmp};
ghost use Rattle.hpr_graph.specs.InOrder.{Ascends, AreVerticesOf, RowsAscend};

use crate::sets::add_edges;
use crate::vertex::copies;
use crate::{Draft, Edge, Graph, Kind, Link, LinkKind, Vertex};
use hpr_syntax::{Name, NoMemory};
use std::alloc::Global;

/// The same graph with its vertices numbered in their order, and the edges into each in theirs.
pub(crate) fn ordered(alloc: Global, graph: &Graph) -> Result<Graph, NoMemory>
    requires { IsNumbered graph.now }
    ensures same { IfOk result (λ g. Same (graph_in g) (graph_in graph.now)) }
    ensures vertices { IfOk result (λ g. AreVerticesOf (graph_in graph.now) g.vertices) }
    ensures rows { IfOk result (λ g. RowsAscend ⟦<Link as Ord>⟧.cmp g) }
{
    let vertices = sorted_vertices(alloc, graph.vertices())?;
    let numbers = numbers_among(alloc, graph.vertices(), &vertices)?;
    let mut draft = Draft::from_vertices(alloc, vertices)?;
    add_edges(&mut draft, &Graph::empty(alloc), graph, &numbers)?;
    Ok(draft.finish())
}

/// Copies of the vertices, in ascending order.
fn sorted_vertices(alloc: Global, vertices: &[Vertex]) -> Result<Vec<Vertex>, NoMemory>
    requires { IsOnce vertices.now }
    ensures ascend { IfOk result (λ v. Ascends vertex_cmp v.items) }
    ensures same { IfOk result (λ v. (x : Vertex) → Contains v.items x ↔ Contains vertices.now x) }
{
    let mut copies = copies(alloc, vertices)?;
    copies.sort_unstable();
    Ok(copies)
}

/// The number of each vertex among those that ascend.
fn numbers_among(
    alloc: Global,
    vertices: &[Vertex],
    ascending: &[Vertex],
) -> Result<Vec<Option<usize>>, NoMemory>
    requires ascend { Ascends vertex_cmp ascending.now }
    requires all { (x : Vertex) → Contains vertices.now x → Contains ascending.now x }
    ensures placed { IfOk result (λ ns. ArePlaced vertices.now ns.items ascending.now) }
    ensures all { IfOk result (λ ns. (i : ℕ) → i < length vertices.now → HasNumber ns.items i) }
{
    let mut numbers = Vec::new(alloc);
    for vertex in vertices {
        numbers.push(number_among(vertex, ascending))?;
    }
    Ok(numbers)
}

/// The place of a vertex among those that ascend, if it is there. Halves the list.
pub fn number_among(vertex: &Vertex, ascending: &[Vertex]) -> Option<usize>
    requires { Ascends vertex_cmp ascending.now }
    ensures found { IfSome result (λ n. slice_get ascending.now n ≡ Some vertex.now) }
    ensures there { Contains ascending.now vertex.now → IsSome result }
{
    ascending.binary_search(vertex).ok()
}

/// The edge that a link into the vertex with the number `to` is.
pub(crate) fn edge_at(
    alloc: Global,
    vertices: &[Vertex],
    to: usize,
    link: Link,
) -> Result<Edge, NoMemory>
    requires { (e : Edge) × IsEdgeAt vertices.now to link e }
    ensures { IfOk result (λ e. IsEdgeAt vertices.now to link e) }
{
    let from = copy_at(alloc, vertices, link.from)?;
    let kind = kind_at(alloc, vertices, &from, link.kind)?;
    let to = copy_at(alloc, vertices, to)?;
    Ok(Edge { to, from, kind })
}

/// A copy of the vertex with this number.
fn copy_at(alloc: Global, vertices: &[Vertex], at: usize) -> Result<Vertex, NoMemory>
    requires { at < length vertices.now }
    ensures { IfOk result (λ v. slice_get vertices.now at ≡ Some v) }
{
    vertices[at].copy(alloc)
}

/// The kind of an edge from this vertex.
fn kind_at(
    alloc: Global,
    vertices: &[Vertex],
    from: &Vertex,
    kind: LinkKind,
) -> Result<Kind, NoMemory>
    requires { (k : Kind) × IsKindAt vertices.now kind from.now k }
    ensures { IfOk result (λ k. IsKindAt vertices.now kind from.now k) }
{
    match kind {
        LinkKind::Control(label) => Ok(Kind::Control(label)),
        LinkKind::Independent => Ok(Kind::Independent(name_from(alloc, from)?)),
        LinkKind::Carried(w) => {
            let around = copy_at(alloc, vertices, w)?;
            Ok(Kind::Carried(name_from(alloc, from)?, around))
        }
        LinkKind::Order(u) => Ok(Kind::Order(copy_at(alloc, vertices, u)?)),
    }
}

/// A copy of the name that the vertex defines.
fn name_from(alloc: Global, vertex: &Vertex) -> Result<Name, NoMemory>
    requires { IsSome (name_of vertex.now) }
    ensures { IfOk result (λ x. name_of vertex.now ≡ Some x) }
{
    match vertex.defines() {
        Some(name) => name.copy(alloc),
        None => unreachable!(),
    }
}
