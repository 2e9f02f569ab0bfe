//! Three versions of a program merged.
ghost use Rattle.std.specs.Prelude.{◌≡◌, ◌++◌, List, IfOk, map};
ghost use Rattle.std.specs.Ordering.{nat_cmp};
ghost use Rattle.hpr_graph.specs.declared.conflict.Side.TheVariants as sides;
ghost use Rattle.hpr_graph.specs.declared.edge.Edge.{Edge};
ghost use Rattle.hpr_graph.specs.declared.vertex.Vertex.{Vertex};
ghost use Rattle.hpr_graph.specs.Graphs.{Same};
ghost use Rattle.hpr_graph.specs.Numbered.{graph_in};
ghost use Rattle.hpr_graph.specs.InOrder.{Ascends};
ghost use Rattle.hpr_graph.specs.Points.{IsAffected, IsPreserved, merged};
ghost use Rattle.hpr_graph.specs.Conflicts.{AreConflicts};
ghost use Rattle.hpr_graph.specs.Whole.{IsWhole};
ghost use Rattle.hpr_affected.specs.Numbers.{AreNumbersOf};
ghost use Rattle.hpr_slice.specs.Vertices.{IsOneOf};
ghost use Rattle.hpr_merge.specs.PointConflicts.{ArePointConflicts, conflict_on};
ghost use Rattle.hpr_merge.specs.ThreePoints.{ArePointsOf};

use crate::conflicts::conflicts_of;
use hpr_affected::{Comparison, preserved_beside};
use hpr_graph::{Conflict, Edge, Graph, NoMemory, Side, Vertex};
use hpr_slice::slice;
use std::alloc::Global;

/// What becomes of three versions of a program.
#[derive(Drop)]
pub struct Merged {
    /// The merged graph: what the variants changed and what all three share.
    pub graph: Graph,
    /// The affected points of A, by their numbers in its graph, ascending.
    pub affected_a: Vec<usize>,
    /// The affected points of B, by their numbers in its graph, ascending.
    pub affected_b: Vec<usize>,
    /// Where the variants interfere: the conflicts of A, then those of B, each in the order of vertices.
    pub conflicts: Vec<Conflict>,
}

/// The merged graph of two variants and their base, with the affected points of both and all conflicts
/// (Horwitz, Prins and Reps 1989, who name no edge for a conflict).
///
/// The graphs are whole, as those of programs are. Refuses for want of memory alone. Looks at each edge
/// and looks each vertex up a fixed number of times; only where there are conflicts, puts vertices and
/// edges in order, and looks at each edge a few times for every 64 of those whose least edge may be an order
/// edge.
pub fn merge(alloc: Global, base: &Graph, a: &Graph, b: &Graph) -> Result<Merged, NoMemory>
    requires base { IsWhole (graph_in base.now) }
    requires a { IsWhole (graph_in a.now) }
    requires b { IsWhole (graph_in b.now) }
    ensures graph { IfOk result (λ m. Same (graph_in m.graph)
        (merged (graph_in base.now) (graph_in a.now) (graph_in b.now))) }
    ensures affected_a { IfOk result (λ m. AreNumbersOf a.now
        (IsAffected (graph_in a.now) (graph_in base.now)) m.affected_a.items) }
    ensures affected_b { IfOk result (λ m. AreNumbersOf b.now
        (IsAffected (graph_in b.now) (graph_in base.now)) m.affected_b.items) }
    ensures conflicts { IfOk result (λ m. AreConflicts (graph_in base.now) (graph_in a.now)
        (graph_in b.now) m.conflicts.items) }
{
    let points = points_of(alloc, base, a, b)?;
    let graph = merged_graph(alloc, base, a, b, &points)?;
    let conflicts = both_conflicts(alloc, a, b, &points.a, &points.b, &graph)?;
    Ok(Merged {
        graph,
        affected_a: points.a,
        affected_b: points.b,
        conflicts,
    })
}

/// The affected points of both variants, by their numbers in their graphs, and the preserved points, by
/// their numbers in the base.
#[derive(Drop)]
struct Points {
    a: Vec<usize>,
    b: Vec<usize>,
    shared: Vec<usize>,
}

/// The points of three graphs. Compares each variant once with the base.
fn points_of(alloc: Global, base: &Graph, a: &Graph, b: &Graph) -> Result<Points, NoMemory>
    requires base { IsWhole (graph_in base.now) }
    requires a { IsWhole (graph_in a.now) }
    requires b { IsWhole (graph_in b.now) }
    ensures { IfOk result (λ points. ArePointsOf base.now a.now b.now
        points.a.items points.b.items points.shared.items) }
{
    let with_a = Comparison::of(alloc, a, base)?;
    let with_b = Comparison::of(alloc, b, base)?;
    let affected_a = with_a.affected()?;
    let affected_b = with_b.affected()?;
    let shared = shared_points(alloc, base, with_a, with_b)?;
    Ok(Points {
        a: affected_a,
        b: affected_b,
        shared,
    })
}

/// The preserved points of the base with which the two graphs are compared.
fn shared_points(
    alloc: Global,
    base: &Graph,
    with_a: Comparison,
    with_b: Comparison,
) -> Result<Vec<usize>, NoMemory>
    requires a { with_a.other ≡ base.now }
    requires b { with_b.other ≡ base.now }
    requires whole { IsWhole (graph_in base.now) }
    requires whole_a { IsWhole (graph_in with_a.graph) }
    requires whole_b { IsWhole (graph_in with_b.graph) }
    ensures { IfOk result (λ points. AreNumbersOf base.now (IsPreserved (graph_in base.now)
        (graph_in with_a.entry.graph) (graph_in with_b.entry.graph)) points.items) }
{
    let beside_a = with_a.turned();
    let beside_b = with_b.turned();
    preserved_beside(alloc, base, &beside_a, &beside_b)
}

/// The merged graph, from the affected and the preserved points.
fn merged_graph(
    alloc: Global,
    base: &Graph,
    a: &Graph,
    b: &Graph,
    points: &Points,
) -> Result<Graph, NoMemory>
    requires { ArePointsOf base.now a.now b.now points.now.a.items points.now.b.items points.now.shared.items }
    ensures { IfOk result (λ g. Same (graph_in g) (merged (graph_in base.now) (graph_in a.now) (graph_in b.now))) }
{
    let part_a = slice(alloc, a, &points.a)?;
    let part_b = slice(alloc, b, &points.b)?;
    let shared = slice(alloc, base, &points.shared)?;
    // a union copies the first graph and looks the second one up, and most is shared
    let changed = part_a.union(&part_b)?;
    shared.union(&changed)
}

/// The conflicts of A at some of its points, and behind them those of B at some of its.
fn both_conflicts(
    alloc: Global,
    a: &Graph,
    b: &Graph,
    points_a: &[usize],
    points_b: &[usize],
    graph: &Graph,
) -> Result<Vec<Conflict>, NoMemory>
    requires points_a { Ascends nat_cmp points_a.now }
    requires points_b { Ascends nat_cmp points_b.now }
    requires a { IsWhole (graph_in a.now) }
    requires b { IsWhole (graph_in b.now) }
    requires graph { IsWhole (graph_in graph.now) }
    ensures { IfOk result (λ v. (ps qs : List (Vertex × Edge))
        × (v.items ≡ map (conflict_on sides.A) ps ++ map (conflict_on sides.B) qs)
        × ArePointConflicts (graph_in graph.now) (graph_in a.now) (IsOneOf a.now points_a.now) ps
        × ArePointConflicts (graph_in graph.now) (graph_in b.now) (IsOneOf b.now points_b.now) qs) }
{
    let pairs_a = conflicts_of(alloc, a, points_a, graph)?;
    let pairs_b = conflicts_of(alloc, b, points_b, graph)?;
    let mut conflicts = on_side(alloc, Side::A, pairs_a)?;
    let mut others = on_side(alloc, Side::B, pairs_b)?;
    conflicts.append(&mut others)?;
    Ok(conflicts)
}

/// The conflicts of this side, by their points and edges.
fn on_side(alloc: Global, side: Side, pairs: Vec<(Vertex, Edge)>) -> Result<Vec<Conflict>, NoMemory>
    ensures { IfOk result (λ v. v.items ≡ map (conflict_on side) pairs.items) }
{
    let conflicts = pairs
        .into_iter()
        .map(|(point, edge)| Conflict { side, point, edge })
        .collect(alloc)?;
    Ok(conflicts)
}
