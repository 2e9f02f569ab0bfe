//! Any number of variants merged.
ghost use Rattle.std.specs.Prelude.{◌≡◌, ◌≤◌, ◌∷◌, ◌++◌, ℕ, [], IfOk, OnOk, Contains, Vec, length, map};
ghost use Rattle.std.specs.Global.{Global};
ghost use Rattle.hpr_terms.specs.declared.limits.TheConstants.{MAX_VARIANTS};
ghost use Rattle.hpr_search.specs.Rows.{numbers_of};
ghost use Rattle.hpr_graph.specs.Graphs.{Same};
ghost use Rattle.hpr_graph.specs.Numbered.{graph_in, graphs_in};
ghost use Rattle.hpr_graph.specs.Points.{IsAffected, IsPreservedBy, merged_all};
ghost use Rattle.hpr_graph.specs.Conflicts.{AreConflictsBy, told_many};
ghost use Rattle.hpr_graph.specs.Whole.{AreAll, IsWhole};
ghost use Rattle.hpr_affected.specs.Comparison.{Sides};
ghost use Rattle.hpr_affected.specs.Numbers.{AreNumbersOf};
ghost use Rattle.hpr_graph.specs.declared.conflict.ManyConflict.{ManyConflict};
ghost use Rattle.hpr_merge_many.specs.ManyPoints.{AreAffectedIn};

use crate::conflicts::push_conflicts;
use hpr_affected::{Comparison, preserved_by};
use hpr_graph::{Graph, ManyConflict, NoMemory};
use hpr_slice::slice;
use std::alloc::Global;

/// What becomes of a base and its variants.
#[derive(Drop)]
pub struct ManyMerged {
    /// The merged graph: what the variants changed and what all share.
    pub graph: Graph,
    /// For each variant its affected points, by their numbers in its graph, ascending.
    pub affected: Vec<Vec<usize>>,
    /// Where the variants interfere: the conflicts of one variant after another, each variant's in the order
    /// of vertices.
    pub conflicts: Vec<ManyConflict>,
}

/// The merged graph of a base and two to sixteen variants, with the affected points of each and all conflicts:
/// what Horwitz, Prins and Reps (1989), who name no edge for a conflict, have of two variants.
///
/// The graphs are whole, as those of programs are. Refuses for want of memory alone. Compares each variant
/// once with the base, and once with the merged graph, which grows by one variant's changes after another;
/// only where a variant has conflicts, puts vertices and edges in order, and looks at each edge a few times for
/// every 64 of them.
pub fn merge_many(alloc: Global, base: &Graph, variants: &[Graph]) -> Result<ManyMerged, NoMemory>
    requires least { 2 ≤ length variants.now }
    requires most { length variants.now ≤ MAX_VARIANTS }
    requires base { IsWhole (graph_in base.now) }
    requires variants { AreAll IsWhole (graphs_in variants.now) }
    ensures graph { IfOk result (λ m. Same (graph_in m.graph)
        (merged_all (graph_in base.now) (graphs_in variants.now))) }
    ensures affected { IfOk result (λ m. AreAffectedIn base.now variants.now (numbers_of m.affected.items)) }
    ensures conflicts { IfOk result (λ m. AreConflictsBy (λ t. t) (graph_in base.now)
        (graphs_in variants.now) (map told_many m.conflicts.items)) }
    ensures numbers { IfOk result (λ m. (c : ManyConflict) → Contains m.conflicts.items c → 1 ≤ c.variant) }
{
    let points = points_of(alloc, base, variants)?;
    let graph = merged_graph(alloc, base, variants, &points)?;
    let mut conflicts = Vec::new(alloc);
    for at in 0..variants.len() {
        let affected = &points.affected[at];
        push_conflicts(
            alloc,
            at + 1,
            &variants[at],
            affected,
            &graph,
            &mut conflicts,
        )?;
    }
    Ok(ManyMerged {
        graph,
        affected: points.affected,
        conflicts,
    })
}

/// For each variant its affected points, by their numbers in its graph, and the preserved points, by their
/// numbers in the base.
#[derive(Drop)]
struct Points {
    affected: Vec<Vec<usize>>,
    preserved: Vec<usize>,
}

/// The points of a base and its variants. Compares each variant once with the base.
fn points_of(alloc: Global, base: &Graph, variants: &[Graph]) -> Result<Points, NoMemory>
    requires base { IsWhole (graph_in base.now) }
    requires variants { AreAll IsWhole (graphs_in variants.now) }
    ensures affected { IfOk result (λ points. AreAffectedIn base.now variants.now
        (numbers_of points.affected.items)) }
    ensures preserved { IfOk result (λ points. AreNumbersOf base.now (IsPreservedBy (graph_in base.now)
        (graphs_in variants.now)) points.preserved.items) }
{
    let mut affected = Vec::with_capacity(alloc, variants.len())?;
    let mut beside = Vec::with_capacity(alloc, variants.len())?;
    for variant in variants {
        push_points(alloc, base, variant, &mut affected, &mut beside)?;
    }
    let preserved = preserved_by(alloc, base, &beside)?;
    Ok(Points {
        affected,
        preserved,
    })
}

/// Puts the affected points of a variant, and the base beside it, behind those of the others.
fn push_points<'a>(
    alloc: Global,
    base: &'a Graph,
    variant: &'a Graph,
    affected: &mut Vec<Vec<usize>>,
    beside: &mut Vec<Comparison<'a>>,
) -> Result<(), NoMemory>
    requires base { IsWhole (graph_in base.now) }
    requires variant { IsWhole (graph_in variant.now) }
    ensures affected { OnOk result ((row : Vec ℕ Global) × (affected.new.items ≡ affected.old.items ++ row ∷ [])
        × AreNumbersOf variant.now (IsAffected (graph_in variant.now) (graph_in base.now)) row.items) }
    ensures beside { OnOk result ((side : Sides) × (beside.new.items ≡ beside.old.items ++ side ∷ [])
        × (side.graph ≡ base.now) × (side.other ≡ variant.now)) }
{
    let comparison = Comparison::of(alloc, variant, base)?;
    affected.push(comparison.affected()?)?;
    beside.push(comparison.turned())?;
    Ok(())
}

/// The merged graph, from the affected and the preserved points.
fn merged_graph(
    alloc: Global,
    base: &Graph,
    variants: &[Graph],
    points: &Points,
) -> Result<Graph, NoMemory>
    requires affected { AreAffectedIn base.now variants.now (numbers_of points.now.affected.items) }
    requires preserved { AreNumbersOf base.now (IsPreservedBy (graph_in base.now) (graphs_in variants.now))
        points.now.preserved.items }
    ensures { IfOk result (λ g. Same (graph_in g) (merged_all (graph_in base.now) (graphs_in variants.now))) }
{
    let mut changed = Graph::of_vertices(alloc, &[])?;
    for at in 0..variants.len() {
        let part = slice(alloc, &variants[at], &points.affected[at])?;
        changed = changed.union(&part)?;
    }
    // a union copies the first graph and looks the second one up, and most is shared
    let shared = slice(alloc, base, &points.preserved)?;
    shared.union(&changed)
}
