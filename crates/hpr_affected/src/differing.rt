//! At which vertices a graph has edges that another lacks.
ghost use Rattle.std.specs.Prelude.{◌≡◌, ◌↔◌, ◌⊎◌, ◌<◌, ℕ, false, IfOk, IsTrue, length, replicate};
ghost use Rattle.std.specs.List.Sorted.{IsSorted};
ghost use Rattle.hpr_search.specs.Marks.{IsMarked};
ghost use Rattle.hpr_graph.specs.Numbered.{graph_in, row_of};
ghost use Rattle.hpr_graph.specs.Direct.{IsDirectlyAffected};
ghost use Rattle.hpr_affected.specs.Numbers.{AreNumbersOf};
ghost use Rattle.hpr_affected.specs.Differing.{AreDiffering, CountsWithout, IsDiffering, IsDirectBy};
ghost use Rattle.hpr_affected.specs.Lacking.{AreNumbersIn, IsKnown, IsThere};

use crate::lacking::{is_known, numbers_in};
use crate::lists::push_if;
use hpr_closure::counts_at;
use hpr_graph::links::number_at;
use hpr_graph::{Graph, Link, NoMemory};
use hpr_search::is_marked;
use std::alloc::Global;

/// The vertices of a graph by their numbers in another, and marks of those at which an edge counts that
/// the other lacks.
#[derive(Drop)]
pub(crate) struct Differences {
    pub(crate) numbers: Vec<Option<usize>>,
    pub(crate) marks: Vec<bool>,
}

/// Where the graph has edges that the other lacks. Looks each vertex up once in the other, and each edge
/// once among those into its target there.
pub(crate) fn differing(
    alloc: Global,
    graph: &Graph,
    other: &Graph,
) -> Result<Differences, NoMemory>
    ensures { IfOk result (λ d. IsDiffering graph.now other.now d.numbers.items d.marks.items) }
{
    let _vertices = graph.vertices();
    let _others = other.vertices();
    let numbers = numbers_in(alloc, graph, other)?;
    let marks = differing_marks(alloc, graph, other, &numbers)?;
    Ok(Differences { numbers, marks })
}

/// Marks where the links of the graph count that the other lacks, in which its vertices have these numbers.
fn differing_marks(
    alloc: Global,
    graph: &Graph,
    other: &Graph,
    numbers: &[Option<usize>],
) -> Result<Vec<bool>, NoMemory>
    requires { AreNumbersIn graph.now other.now numbers.now }
    ensures { IfOk result (λ marks. AreDiffering graph.now other.now numbers.now marks.items) }
{
    let count = graph.vertices().len();
    let mut marks = blank_row(alloc, count)?;
    for at in 0..count {
        mark_lacking(graph, other, numbers, at, &mut marks);
    }
    Ok(marks)
}

/// So many vertices, none of which is marked.
pub(crate) fn blank_row(alloc: Global, count: usize) -> Result<Vec<bool>, NoMemory>
    ensures { IfOk result (λ marks. marks.items ≡ replicate count false) }
{
    Ok(vec![in alloc; false; count]?)
}

/// Marks where the links into the vertex `at` of the graph count that the other lacks.
fn mark_lacking(
    graph: &Graph,
    other: &Graph,
    numbers: &[Option<usize>],
    at: usize,
    marks: &mut Vec<bool>,
)
    requires numbers { AreNumbersIn graph.now other.now numbers.now }
    requires at { at < length graph.now.vertices }
    ensures count { length marks.new.items ≡ length marks.old.items }
    ensures exact { (n : ℕ) → n < length marks.old.items → IsMarked marks.new.items n ↔ (IsMarked marks.old.items n
        ⊎ CountsWithout (IsThere other.now numbers.now at) (row_of graph.now at) at n) }
{
    let links = graph.edges_into(at);
    match number_at(numbers, at) {
        Some(to) => mark_unknown(links, numbers, other.edges_into(to), at, marks),
        None => mark_unknown(links, numbers, &[], at, marks),
    }
}

/// Marks where those of the links into the vertex `to` count that aren't among the known ones, which are
/// sorted, by their numbers there.
fn mark_unknown(
    links: &[Link],
    numbers: &[Option<usize>],
    known: &[Link],
    to: usize,
    marks: &mut Vec<bool>,
)
    requires { IsSorted ⟦<Link as Ord>⟧.cmp known.now }
    ensures count { length marks.new.items ≡ length marks.old.items }
    ensures exact { (n : ℕ) → n < length marks.old.items → IsMarked marks.new.items n
        ↔ (IsMarked marks.old.items n ⊎ CountsWithout (IsKnown numbers.now known.now) links.now to n) }
{
    let mut next = 0;
    for link in links {
        let is_there = is_known(*link, numbers, known, &mut next);
        mark_unless(is_there, marks, counts_at(link.kind, to));
    }
}

/// Marks the vertex with this number, if there is one, where the test doesn't hold.
fn mark_unless(test: bool, marks: &mut Vec<bool>, at: usize)
    ensures count { length marks.new.items ≡ length marks.old.items }
    ensures exact { (n : ℕ) → n < length marks.old.items → IsMarked marks.new.items n
        ↔ (IsMarked marks.old.items n ⊎ ((test ≡ false) × (at ≡ n))) }
{
    if !test {
        mark(marks, at);
    }
}

/// Marks the vertex with this number, if there is one.
pub(crate) fn mark(marks: &mut Vec<bool>, at: usize)
    ensures count { length marks.new.items ≡ length marks.old.items }
    ensures exact { (n : ℕ) → n < length marks.old.items → IsMarked marks.new.items n
        ↔ (IsMarked marks.old.items n ⊎ (at ≡ n)) }
{
    if at < marks.len() {
        marks[at] = true;
    }
}

/// The directly affected points of the graph beside the other, by their numbers in it, ascending, from
/// where each has edges that the other of the two lacks.
pub(crate) fn direct_points(
    alloc: Global,
    graph: &Graph,
    other: &Graph,
    there: &Differences,
    back: &Differences,
) -> Result<Vec<usize>, NoMemory>
    requires there { IsDiffering graph.now other.now there.now.numbers.items there.now.marks.items }
    requires back { IsDiffering other.now graph.now back.now.numbers.items back.now.marks.items }
    ensures { IfOk result (λ points. AreNumbersOf graph.now
        (IsDirectlyAffected (graph_in graph.now) (graph_in other.now)) points.items) }
{
    let _others = other.vertices();
    let mut points = Vec::new(alloc);
    for at in 0..graph.vertices().len() {
        let test = is_direct(&there.numbers, &there.marks, &back.marks, at);
        push_if(test, at, &mut points)?;
    }
    Ok(points)
}

/// Whether the vertex has no number in the other graph, or an edge counts at it that one of the two
/// graphs lacks.
fn is_direct(numbers: &[Option<usize>], differ: &[bool], others: &[bool], at: usize) -> bool
    ensures { IsTrue result ↔ IsDirectBy numbers.now differ.now others.now at }
{
    match number_at(numbers, at) {
        Some(to) => is_marked(differ, at) || is_marked(others, to),
        None => true,
    }
}
