//! The conflicts of one variant.
ghost use Rattle.std.specs.Prelude.{◌≡◌, ◌↔◌, ◌<◌, ◌∷◌, ◌++◌, [], if◌then◌else◌, Contains, Some, length, slice_get};
ghost use Rattle.std.specs.Prelude.{All, IfOk, IsSome, IsTrue, OnOk, ℕ};
ghost use Rattle.std.specs.Ordering.{nat_cmp};
ghost use Rattle.hpr_graph.specs.declared.vertex.Vertex.{Vertex};
ghost use Rattle.hpr_graph.specs.Graphs.{IsOnce};
ghost use Rattle.hpr_graph.specs.Numbered.{HasVertex, graph_in};
ghost use Rattle.hpr_graph.specs.Order.{vertex_cmp};
ghost use Rattle.hpr_graph.specs.InOrder.{Ascends};
ghost use Rattle.hpr_graph.specs.Points.{IsAffected};
ghost use Rattle.hpr_graph.specs.Whole.{HasLoops, IsWhole};
ghost use Rattle.hpr_slice.specs.Vertices.{IsOneOf};
ghost use Rattle.hpr_affected.specs.Comparison.{MarksAffected};
ghost use Rattle.hpr_affected.specs.Numbers.{AreNumbersOf};
ghost use Rattle.hpr_merge.specs.Beside.{AreLeastLinks};
ghost use Rattle.hpr_merge.specs.PointConflicts.{ArePointConflicts, IsEdgeOfPoint, with_edge};

use crate::beside::{Beside, widened};
use crate::known::link_at;
use hpr_affected::Comparison;
use hpr_graph::{Edge, Graph, Link, NoMemory, Vertex};
use hpr_search::is_marked;
use std::alloc::Global;

/// The conflicts of a variant at some of its points, by their numbers in it, which ascend: those to whose
/// slice the merged graph adds an edge that ends in a vertex of the slice, each with the least such edge.
/// Each is told by its point and this edge; they are in the order of their points. Both graphs are whole.
/// Refuses for want of memory alone.
///
/// Where the points are the affected ones, these are the variant's conflicts (Horwitz, Prins and Reps 1989,
/// who name no edge). Goes forward once in the merged graph, to find the points in conflict. Only where
/// there is one, puts both graphs in order, and looks at each of their edges a fixed number of times, and then
/// a few times for every 64 points whose least edge may be an order edge.
pub fn conflicts_of(
    alloc: Global,
    variant: &Graph,
    points: &[usize],
    merged: &Graph,
) -> Result<Vec<(Vertex, Edge)>, NoMemory>
    requires points { Ascends nat_cmp points.now }
    requires variant { IsWhole (graph_in variant.now) }
    requires merged { IsWhole (graph_in merged.now) }
    ensures { IfOk result (λ ps. ArePointConflicts (graph_in merged.now) (graph_in variant.now)
        (IsOneOf variant.now points.now) ps.items) }
{
    let kept = conflicting(alloc, variant, points, merged)?;
    if kept.is_empty() {
        return Ok(Vec::new(alloc));
    }
    conflicts_at(alloc, variant, &kept, merged)
}

/// Those of the points of a variant, by their numbers, which ascend, that the merged graph has with
/// another slice: they are reached in it from what is directly affected beside the variant. Where there is no point, as
/// in a variant that is the base, no graph is looked at.
fn conflicting(
    alloc: Global,
    variant: &Graph,
    points: &[usize],
    merged: &Graph,
) -> Result<Vec<usize>, NoMemory>
    requires points { Ascends nat_cmp points.now }
    requires variant { IsWhole (graph_in variant.now) }
    requires merged { IsWhole (graph_in merged.now) }
    ensures { IfOk result (λ kept. AreNumbersOf variant.now (λ v. IsOneOf variant.now points.now v
        × IsAffected (graph_in merged.now) (graph_in variant.now) v) kept.items) }
{
    if points.is_empty() {
        return Ok(Vec::new(alloc));
    }
    let comparison = Comparison::of(alloc, merged, variant)?;
    let reached = comparison.affected_marks()?;
    let mut kept = Vec::new(alloc);
    for at in 0..variant.vertices().len() {
        let test = is_conflicting(&comparison, points, &reached, at);
        push_if(test, at, &mut kept)?;
    }
    Ok(kept)
}

/// Whether the vertex of the variant with this number is one of the points, which ascend, and is marked in
/// the merged graph that stands beside it.
fn is_conflicting(comparison: &Comparison, points: &[usize], reached: &[bool], at: usize) -> bool
    requires at { at < length comparison.now.other.vertices }
    requires points { Ascends nat_cmp points.now }
    requires reached { MarksAffected comparison.now.graph comparison.now.other reached.now }
    ensures { (v : Vertex) → slice_get comparison.now.other.vertices at ≡ Some v → IsTrue result
        ↔ (Contains points.now at × IsAffected (graph_in comparison.now.graph) (graph_in comparison.now.other) v) }
{
    if !has_number(points, at) {
        return false;
    }
    match comparison.number_here(at) {
        Some(to) => is_marked(reached, to),
        None => false,
    }
}

/// Puts the number behind the others where the test holds.
fn push_if(test: bool, number: usize, into: &mut Vec<usize>) -> Result<(), NoMemory>
    ensures { OnOk result (into.new.items
        ≡ (if test then into.old.items ++ number ∷ [] else into.old.items)) }
{
    if test {
        into.push(number)?;
    }
    Ok(())
}

/// The conflicts of a variant at some of its points, by their numbers in it, which ascend.
fn conflicts_at(
    alloc: Global,
    variant: &Graph,
    points: &[usize],
    merged: &Graph,
) -> Result<Vec<(Vertex, Edge)>, NoMemory>
    requires points { Ascends nat_cmp points.now }
    requires variant { HasLoops (graph_in variant.now) }
    requires merged { HasLoops (graph_in merged.now) }
    ensures { IfOk result (λ ps. ArePointConflicts (graph_in merged.now) (graph_in variant.now)
        (IsOneOf variant.now points.now) ps.items) }
{
    let _points = variant.vertices();
    let wide = widened(alloc, merged, variant)?;
    let narrow = widened(alloc, variant, merged)?;
    let beside = Beside::of(alloc, &wide, &narrow)?;
    let numbers = numbers_there(alloc, variant, points, &wide)?;
    conflicts_in(alloc, &numbers, &wide, &beside)
}

/// The numbers that the vertices with these numbers, which ascend, have in the other graph, ascending.
fn numbers_there(
    alloc: Global,
    graph: &Graph,
    numbers: &[usize],
    other: &Graph,
) -> Result<Vec<usize>, NoMemory>
    requires once { IsOnce graph.now.vertices }
    requires numbers { Ascends nat_cmp numbers.now }
    ensures { IfOk result (λ ns. AreNumbersOf other.now (IsOneOf graph.now numbers.now) ns.items) }
{
    let mut there = Vec::new(alloc);
    for at in 0..other.vertex_count() {
        let test = is_one_of(graph, numbers, other.vertex(at));
        push_if(test, at, &mut there)?;
    }
    Ok(there)
}

/// The conflicts at the vertices of this graph with these numbers, in their order.
fn conflicts_in(
    alloc: Global,
    numbers: &[usize],
    wide: &Graph,
    beside: &Beside,
) -> Result<Vec<(Vertex, Edge)>, NoMemory>
    requires numbers { Ascends nat_cmp numbers.now }
    requires within { All (λ n. n < length wide.now.vertices) numbers.now }
    requires order { Ascends vertex_cmp wide.now.vertices }
    requires wide { beside.now.merged ≡ wide.now }
    ensures { IfOk result (λ ps. ArePointConflicts (graph_in wide.now) (graph_in beside.now.own) (λ v.
        IsOneOf wide.now numbers.now v × HasVertex wide.now v) ps.items) }
{
    let _vertices = wide.vertices();
    let links = beside.least_links(numbers)?;
    let mut conflicts = Vec::new(alloc);
    for at in 0..wide.vertex_count() {
        let vertex = wide.vertex(at);
        let edge = edge_at(beside, numbers, &links, at)?;
        push_conflict(alloc, vertex, edge, &mut conflicts)?;
    }
    Ok(conflicts)
}

/// The least edge that is added at the vertex with the number `at`, if it is one of those with these numbers,
/// which ascend, by the links of these edges.
fn edge_at(
    beside: &Beside,
    numbers: &[usize],
    links: &[Option<(usize, Link)>],
    at: usize,
) -> Result<Option<Edge>, NoMemory>
    requires at { at < length beside.now.merged.vertices }
    requires once { IsOnce beside.now.merged.vertices }
    requires numbers { Ascends nat_cmp numbers.now }
    requires links { AreLeastLinks beside.now numbers.now links.now }
    ensures { IfOk result (λ edge. (v : Vertex) → slice_get beside.now.merged.vertices at ≡ Some v → IsEdgeOfPoint
        (graph_in beside.now.merged) (graph_in beside.now.own) (IsOneOf beside.now.merged numbers.now) v edge) }
{
    match link_at(numbers, links, at) {
        Some((to, link)) => Ok(Some(beside.edge(to, link)?)),
        None => Ok(None),
    }
}

/// Whether the vertex is one of the graph with these numbers, which ascend.
fn is_one_of(graph: &Graph, numbers: &[usize], vertex: &Vertex) -> bool
    requires once { IsOnce graph.now.vertices }
    requires numbers { Ascends nat_cmp numbers.now }
    ensures { IsTrue result ↔ IsOneOf graph.now numbers.now vertex.now }
{
    match graph.number_of(vertex) {
        Some(at) => has_number(numbers, at),
        None => false,
    }
}

fn has_number(numbers: &[usize], number: usize) -> bool
    requires { Ascends nat_cmp numbers.now }
    ensures { IsTrue result ↔ Contains numbers.now number }
{
    numbers.binary_search(&number).is_ok()
}

/// Puts the vertex with the edge that shows its conflict behind the others, if there is one.
fn push_conflict(
    alloc: Global,
    vertex: &Vertex,
    edge: Option<Edge>,
    into: &mut Vec<(Vertex, Edge)>,
) -> Result<(), NoMemory>
    ensures { OnOk result (into.new.items ≡ with_edge vertex.now edge into.old.items) }
{
    match edge {
        Some(edge) => {
            into.push((vertex.copy(alloc)?, edge))?;
            Ok(())
        }
        None => Ok(()),
    }
}
