//! Unions and restrictions: one graph's vertices and edges put into another.
ghost use Rattle.std.specs.Prelude.{◌≡◌, ◌↔◌, ◌⊎◌, ℕ, ◌<◌, [], ◌∷◌, ◌++◌, length, Contains, slice_get, Some, IsSome, IsTrue, OnOk, IfOk, IfSome};
ghost use Rattle.std.specs.List.Sorted.{IsSorted};
ghost use Rattle.hpr_search.specs.Marks.{IsMarked};
ghost use Rattle.hpr_graph.specs.declared.vertex.Vertex.{Vertex};
ghost use Rattle.hpr_graph.specs.declared.edge.Edge.{Edge};
ghost use Rattle.hpr_graph.specs.declared.link.Link.{Link};
ghost use Rattle.hpr_graph.specs.Graphs.{Same, union_of, restrict_to};
ghost use Rattle.hpr_graph.specs.Numbered.{HasVertex, HasLink, HasEdge, IsLink, IsNumbered, IsGrown, IsMarkedVertex, graph_in, row_of};
ghost use Rattle.hpr_graph.specs.Moves.{HasNumber, ArePlaced, MovesLink, MovesEdge, MovesEdgeIn, IsKeptElsewhere, moved, number_at};

use crate::links::{has_sorted, moved, number_at};
use crate::{Draft, Graph, Link, Vertex};
use hpr_syntax::NoMemory;
use std::alloc::Global;

/// The vertices and the edges of both graphs.
pub(crate) fn united(alloc: Global, a: &Graph, b: &Graph) -> Result<Graph, NoMemory>
    ensures { IfOk result (λ g. Same (graph_in g) (union_of (graph_in a.now) (graph_in b.now))) }
{
    let mut draft = a.draft()?;
    let numbers = add_vertices(alloc, &mut draft, b)?;
    add_edges(&mut draft, a, b, &numbers)?;
    Ok(draft.finish())
}

/// The marked vertices, and the edges all of whose vertices are marked.
pub(crate) fn restricted(alloc: Global, graph: &Graph, keep: &[bool]) -> Result<Graph, NoMemory>
    requires numbered { IsNumbered graph.now }
    requires marks { length keep.now ≡ length graph.now.vertices }
    ensures { IfOk result (λ g. Same (graph_in g) (restrict_to (graph_in graph.now)
        (IsMarkedVertex graph.now keep.now))) }
{
    let mut kept = Draft::empty(alloc);
    let numbers = push_marked(alloc, &mut kept, graph, keep)?;
    add_edges(&mut kept, &Graph::empty(alloc), graph, &numbers)?;
    Ok(kept.finish())
}

/// Adds all vertices of a graph, and answers the number here of each. Looks each up by hash.
fn add_vertices(
    alloc: Global,
    target: &mut Draft,
    source: &Graph,
) -> Result<Vec<Option<usize>>, NoMemory>
    ensures placed { IfOk result (λ ns. ArePlaced source.now.vertices ns.items target.new.vertices) }
    ensures all { IfOk result (λ ns. (i : ℕ) → i < length source.now.vertices → HasNumber ns.items i) }
    ensures grown { OnOk result (IsGrown target.old target.new) }
    ensures edges { OnOk result ((e : Edge) → HasEdge target.new e ↔ HasEdge target.old e) }
    ensures only { OnOk result ((v : Vertex) → HasVertex target.new v → HasVertex target.old v
        ⊎ HasVertex source.now v) }
{
    let mut numbers = Vec::new(alloc);
    for vertex in source.vertices() {
        numbers.push(Some(target.add_vertex(vertex.copy(alloc)?)?))?;
    }
    Ok(numbers)
}

/// Adds the marked vertices of a graph to one that has no vertex, and answers the number there of each
/// that is marked.
fn push_marked(
    alloc: Global,
    target: &mut Draft,
    source: &Graph,
    keep: &[bool],
) -> Result<Vec<Option<usize>>, NoMemory>
    requires none { target.old.vertices ≡ [] }
    requires marks { length keep.now ≡ length source.now.vertices }
    ensures placed { IfOk result (λ ns. ArePlaced source.now.vertices ns.items target.new.vertices) }
    ensures marked { IfOk result (λ ns. (i : ℕ) → HasNumber ns.items i ↔ IsMarked keep.now i) }
    ensures grown { OnOk result (IsGrown target.old target.new) }
    ensures only { OnOk result ((v : Vertex) → HasVertex target.new v → IsMarkedVertex source.now keep.now v) }
{
    let mut numbers = Vec::new(alloc);
    for (at, vertex) in source.vertices().iter().enumerate() {
        numbers.push(push_if(alloc, target, vertex, keep[at])?)?;
    }
    Ok(numbers)
}

/// Adds a vertex that isn't there, if it is to be kept, and answers its number.
fn push_if(
    alloc: Global,
    target: &mut Draft,
    vertex: &Vertex,
    keep: bool,
) -> Result<Option<usize>, NoMemory>
    requires { ¬ HasVertex target.old vertex.now }
    ensures number { IfOk result (λ n. IsSome n ↔ IsTrue keep) }
    ensures there { IfOk result (λ n. IfSome n (λ j. slice_get target.new.vertices j ≡ Some vertex.now)) }
    ensures grown { OnOk result (IsGrown target.old target.new) }
    ensures only { OnOk result ((v : Vertex) → HasVertex target.new v → HasVertex target.old v
        ⊎ (IsTrue keep × (v ≡ vertex.now))) }
{
    if !keep {
        return Ok(None);
    }
    Ok(Some(push_copy(alloc, target, vertex)?))
}

/// Adds a copy of a vertex that isn't there, and answers its number.
fn push_copy(alloc: Global, target: &mut Draft, vertex: &Vertex) -> Result<usize, NoMemory>
    requires { ¬ HasVertex target.old vertex.now }
    ensures next { IfOk result (λ n. n ≡ length target.old.vertices) }
    ensures vertices { OnOk result (target.new.vertices ≡ target.old.vertices ++ vertex.now ∷ []) }
    ensures grown { OnOk result (IsGrown target.old target.new) }
{
    let copy = vertex.copy(alloc)?;
    target.push_new_vertex(copy)
}

/// Adds the edges of the source all of whose vertices have numbers here. The links that are here are those
/// of the graph `known`, in whose rows each other one is looked up by halving.
pub(crate) fn add_edges(
    target: &mut Draft,
    known: &Graph,
    source: &Graph,
    numbers: &[Option<usize>],
) -> Result<(), NoMemory>
    requires placed { ArePlaced source.now.vertices numbers.now target.old.vertices }
    requires known { (at : ℕ) (l : Link) → HasLink known.now at l ↔ HasLink target.old at l }
    ensures vertices { OnOk result (target.new.vertices ≡ target.old.vertices) }
    ensures edges { OnOk result ((e : Edge) → HasEdge target.new e
        ↔ (HasEdge target.old e ⊎ MovesEdge source.now numbers.now e)) }
{
    for at in 0..source.vertices().len() {
        if let Some(to) = number_at(numbers, at) {
            add_row(target, row_at(known, to), source, numbers, at, to)?;
        }
    }
    Ok(())
}

/// The edges into the vertex with this number, none where the graph lacks it. Their links ascend.
fn row_at(graph: &Graph, at: usize) -> &[Link]
    ensures row { result.now ≡ row_of graph.now at }
    ensures ascend { IsSorted ⟦<Link as Ord>⟧.cmp result.now }
{
    if at < graph.vertices().len() {
        graph.edges_into(at)
    } else {
        &[]
    }
}

/// Adds the edges into the vertex `at` of the source, which is `to` here, all of whose vertices have
/// numbers here. The links into `to` that are here are those known, which ascend.
fn add_row(
    target: &mut Draft,
    known: &[Link],
    source: &Graph,
    numbers: &[Option<usize>],
    at: usize,
    to: usize,
) -> Result<(), NoMemory>
    requires placed { ArePlaced source.now.vertices numbers.now target.old.vertices }
    requires number { number_at numbers.now at ≡ Some to }
    requires sorted { IsSorted ⟦<Link as Ord>⟧.cmp known.now }
    requires known { (l : Link) → Contains known.now l ↔ HasLink target.old to l }
    ensures vertices { OnOk result (target.new.vertices ≡ target.old.vertices) }
    ensures edges { OnOk result ((e : Edge) → HasEdge target.new e
        ↔ (HasEdge target.old e ⊎ MovesEdgeIn source.now numbers.now at (row_of source.now at) e)) }
    ensures elsewhere { OnOk result (IsKeptElsewhere target.old target.new to) }
{
    let _vertices = target.vertices();
    let mut next = 0;
    for link in source.edges_into(at) {
        add_moved(target, known, source, numbers, at, to, *link, &mut next)?;
    }
    Ok(())
}

/// Adds one of these edges. The links into the vertex `to` that are known ascend, and the link by its numbers
/// here is among them exactly where it is there.
fn add_moved(
    target: &mut Draft,
    known: &[Link],
    source: &Graph,
    numbers: &[Option<usize>],
    at: usize,
    to: usize,
    link: Link,
    next: &mut usize,
) -> Result<(), NoMemory>
    requires placed { ArePlaced source.now.vertices numbers.now target.old.vertices }
    requires number { number_at numbers.now at ≡ Some to }
    requires link { IsLink source.now at link }
    requires sorted { IsSorted ⟦<Link as Ord>⟧.cmp known.now }
    requires known { (m : Link) → moved numbers.now link ≡ Some m → Contains known.now m ↔ HasLink target.old to m }
    ensures vertices { target.new.vertices ≡ target.old.vertices }
    ensures edges { OnOk result ((e : Edge) → HasEdge target.new e
        ↔ (HasEdge target.old e ⊎ MovesLink source.now numbers.now at link e)) }
    ensures elsewhere { OnOk result (IsKeptElsewhere target.old target.new to) }
{
    let Some(moved) = moved(link, numbers) else {
        return Ok(());
    };
    if has_sorted(known, moved, next) {
        return Ok(());
    }
    target.push_new_link(to, moved)
}
