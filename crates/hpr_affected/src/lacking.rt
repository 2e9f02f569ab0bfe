//! What of a graph another has: the numbers there of its vertices, and whether a link is there.
ghost use Rattle.std.specs.Prelude.{◌≡◌, ◌↔◌, Some, IfOk, IfSome, IsNone, IsTrue, slice_get};
ghost use Rattle.std.specs.List.Sorted.{IsSorted};
ghost use Rattle.hpr_graph.specs.Numbered.{HasVertex};
ghost use Rattle.hpr_affected.specs.Lacking.{AreNumbersIn, IsKnown};

use hpr_graph::links::{has_sorted, moved, number_at};
use hpr_graph::{Graph, Link, NoMemory, Vertex, same_vertex};
use std::alloc::Global;

/// The number of each vertex of the graph in the other, where it is there. Each is looked for first behind the one that
/// was found last, so vertices that stand in the same order take a look each.
pub(crate) fn numbers_in(
    alloc: Global,
    graph: &Graph,
    other: &Graph,
) -> Result<Vec<Option<usize>>, NoMemory>
    ensures { IfOk result (λ ns. AreNumbersIn graph.now other.now ns.items) }
{
    let mut numbers = Vec::with_capacity(alloc, graph.vertex_count())?;
    let mut next = 0;
    for vertex in graph.vertices() {
        let number = number_near(vertex, other, next);
        next = behind(number, next);
        numbers.push(number)?;
    }
    Ok(numbers)
}

/// The place behind this number, or the place given where there is none.
fn behind(number: Option<usize>, next: usize) -> usize {
    match number {
        Some(at) => at.saturating_add(1),
        None => next,
    }
}

/// The number of the vertex in the graph, if it is there. It is looked for first at the place `next`, and else by hash.
fn number_near(vertex: &Vertex, graph: &Graph, next: usize) -> Option<usize>
    ensures found { IfSome result (λ n. slice_get graph.now.vertices n ≡ Some vertex.now) }
    ensures stranger { IsNone result ↔ (¬ HasVertex graph.now vertex.now) }
{
    if is_at(graph.vertices(), next, vertex) {
        Some(next)
    } else {
        graph.number_of(vertex)
    }
}

/// Whether the vertex stands at this place.
fn is_at(vertices: &[Vertex], at: usize, vertex: &Vertex) -> bool
    ensures { IsTrue result ↔ (slice_get vertices.now at ≡ Some vertex.now) }
{
    match vertices.get(at) {
        Some(there) => same_vertex(there, vertex),
        None => false,
    }
}

/// Whether the link by its numbers there is among the known ones, which are sorted. It is looked for first at
/// the place `next`, which then is the place behind it.
pub(crate) fn is_known(
    link: Link,
    numbers: &[Option<usize>],
    known: &[Link],
    next: &mut usize,
) -> bool
    requires { IsSorted ⟦<Link as Ord>⟧.cmp known.now }
    ensures { IsTrue result ↔ IsKnown numbers.now known.now link }
{
    match moved(link, numbers) {
        Some(moved) => has_sorted(known, moved, next),
        None => false,
    }
}
