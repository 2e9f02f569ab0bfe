//! Directly affected, affected and preserved points.
ghost use Rattle.std.specs.Prelude.{◌≡◌, ◌↔◌, ◌⊎◌, ◌∷◌, ◌++◌, [], ◌<◌, ℕ, List, IfOk, IsTrue, OnOk, length};
ghost use Rattle.hpr_search.specs.Marks.{IsMarked};
ghost use Rattle.hpr_graph.specs.Direct.{IsDirectlyAffected};
ghost use Rattle.hpr_graph.specs.Numbered.{Numbered, graph_in, graphs_in};
ghost use Rattle.hpr_graph.specs.Points.{IsAffected, IsInit, IsPreserved, IsPreservedBy};
ghost use Rattle.hpr_graph.specs.Whole.{AreAll, IsWhole};
ghost use Rattle.hpr_affected.specs.Numbers.{AreNumbersOf};
ghost use Rattle.hpr_affected.specs.Shared.{AreOfBase, MarksUnshared, others_of};

use crate::comparison::Comparison;
use crate::differing::{blank_row, mark};
use crate::lists::push_if;
use hpr_graph::{Graph, NoMemory, Vertex};
use hpr_search::is_marked;
use std::alloc::Global;

/// The directly affected points of a variant, by their numbers in it, ascending: the vertices that the
/// base lacks, or into which it has other control or flow edges, or for which, as their shared use, it has
/// other order edges. Refuses for want of memory alone.
///
/// Looks each vertex up once in the other graph, and each edge once among those into its target there.
pub fn direct(alloc: Global, variant: &Graph, base: &Graph) -> Result<Vec<usize>, NoMemory>
    ensures { IfOk result (λ points. AreNumbersOf variant.now
        (IsDirectlyAffected (graph_in variant.now) (graph_in base.now)) points.items) }
{
    Comparison::of(alloc, variant, base)?.direct()
}

/// The affected points of a variant, by their numbers in it, ascending: the vertices that the base lacks
/// or has with another slice (Horwitz, Prins and Reps 1989). Both graphs are whole, as those of programs
/// and merged graphs are. Refuses for want of memory alone.
///
/// Goes forward from the directly affected points: beside what `direct` takes, looks at each edge a fixed
/// number of times.
pub fn affected(alloc: Global, variant: &Graph, base: &Graph) -> Result<Vec<usize>, NoMemory>
    requires variant { IsWhole (graph_in variant.now) }
    requires base { IsWhole (graph_in base.now) }
    ensures { IfOk result (λ points. AreNumbersOf variant.now
        (IsAffected (graph_in variant.now) (graph_in base.now)) points.items) }
{
    Comparison::of(alloc, variant, base)?.affected()
}

/// The preserved points, by their numbers in the base, ascending: the vertices that all three graphs have
/// with the same slice (Horwitz, Prins and Reps 1989). An Init vertex is none here, so that one
/// stands in a merged graph only where a use of it does. The graphs are whole, as those of programs are.
/// Refuses for want of memory alone.
///
/// Goes forward in the base from what is directly affected there beside each variant.
pub fn preserved(alloc: Global, base: &Graph, a: &Graph, b: &Graph) -> Result<Vec<usize>, NoMemory>
    requires base { IsWhole (graph_in base.now) }
    requires a { IsWhole (graph_in a.now) }
    requires b { IsWhole (graph_in b.now) }
    ensures { IfOk result (λ points. AreNumbersOf base.now (IsPreserved (graph_in base.now) (graph_in a.now)
        (graph_in b.now)) points.items) }
{
    let with_a = Comparison::of(alloc, base, a)?;
    let with_b = Comparison::of(alloc, base, b)?;
    preserved_beside(alloc, base, &with_a, &with_b)
}

/// The preserved points of a base that stands beside each of the variants, as [`preserved`] tells them.
pub fn preserved_beside(
    alloc: Global,
    base: &Graph,
    with_a: &Comparison,
    with_b: &Comparison,
) -> Result<Vec<usize>, NoMemory>
    requires a { with_a.now.graph ≡ base.now }
    requires b { with_b.now.graph ≡ base.now }
    requires whole { IsWhole (graph_in base.now) }
    requires whole_a { IsWhole (graph_in with_a.now.other) }
    requires whole_b { IsWhole (graph_in with_b.now.other) }
    ensures { IfOk result (λ points. AreNumbersOf base.now (IsPreserved (graph_in base.now)
        (graph_in with_a.now.other) (graph_in with_b.now.other)) points.items) }
{
    let mut unshared = with_a.affected_marks()?;
    mark_affected(base, with_b, &mut unshared)?;
    shared_points(alloc, base, &unshared)
}

/// The preserved points of a base that stands beside each of any number of variants, by their numbers in
/// the base, ascending: the vertices that all these graphs have with the same slice, but no Init vertex
/// (Horwitz, Prins and Reps 1989, of two variants). The graphs are whole. Refuses for want of memory alone.
///
/// Goes forward in the base once for each variant, from what is directly affected there beside it.
pub fn preserved_by(
    alloc: Global,
    base: &Graph,
    comparisons: &[Comparison],
) -> Result<Vec<usize>, NoMemory>
    requires base { AreOfBase base.now comparisons.now }
    requires whole { IsWhole (graph_in base.now) }
    requires others { AreAll IsWhole (graphs_in (others_of comparisons.now)) }
    ensures { IfOk result (λ points. AreNumbersOf base.now (IsPreservedBy (graph_in base.now)
        (graphs_in (others_of comparisons.now))) points.items) }
{
    let mut unshared = blank_row(alloc, base.vertex_count())?;
    for comparison in comparisons {
        mark_affected(base, comparison, &mut unshared)?;
    }
    shared_points(alloc, base, &unshared)
}

/// Marks also the affected points of the base beside one variant more.
fn mark_affected(
    base: &Graph,
    comparison: &Comparison,
    unshared: &mut Vec<bool>,
) -> Result<(), NoMemory>
    requires base { comparison.now.graph ≡ base.now }
    requires whole { IsWhole (graph_in base.now) }
    requires other { IsWhole (graph_in comparison.now.other) }
    ensures { OnOk result ((gs : List Numbered) → MarksUnshared base.now gs unshared.old.items
        → MarksUnshared base.now (gs ++ comparison.now.other ∷ []) unshared.new.items) }
{
    let affected = comparison.affected_marks()?;
    mark_also(&affected, unshared);
    Ok(())
}

/// Marks also what the first row marks.
fn mark_also(more: &[bool], marks: &mut Vec<bool>)
    ensures count { length marks.new.items ≡ length marks.old.items }
    ensures exact { (at : ℕ) → at < length marks.old.items → IsMarked marks.new.items at
        ↔ (IsMarked marks.old.items at ⊎ IsMarked more.now at) }
{
    for at in 0..marks.len() {
        if is_marked(more, at) {
            mark(marks, at);
        }
    }
}

/// The vertices of the base that aren't marked, but no Init vertex, by their numbers, ascending.
fn shared_points(alloc: Global, base: &Graph, unshared: &[bool]) -> Result<Vec<usize>, NoMemory>
    ensures { IfOk result (λ points. (gs : List Numbered) → MarksUnshared base.now gs unshared.now
        → AreNumbersOf base.now (IsPreservedBy (graph_in base.now) (graphs_in gs)) points.items) }
{
    let mut points = Vec::new(alloc);
    for at in 0..base.vertex_count() {
        let kept = is_preserved(base.vertex(at), unshared, at);
        push_if(kept, at, &mut points)?;
    }
    Ok(points)
}

/// Whether the vertex with this number is no Init vertex and isn't marked.
fn is_preserved(vertex: &Vertex, unshared: &[bool], at: usize) -> bool
    ensures { IsTrue result ↔ ((¬ IsInit vertex.now) × (¬ IsMarked unshared.now at)) }
{
    !is_init(vertex) && !is_marked(unshared, at)
}

fn is_init(vertex: &Vertex) -> bool
    ensures { IsTrue result ↔ IsInit vertex.now }
{
    matches!(vertex, Vertex::Init(_))
}
