//! The conflicts of one of many variants.
ghost use Rattle.std.specs.Prelude.{◌≡◌, ◌++◌, List, OnOk, map};
ghost use Rattle.std.specs.Ordering.{nat_cmp};
ghost use Rattle.hpr_graph.specs.declared.edge.Edge.{Edge};
ghost use Rattle.hpr_graph.specs.declared.vertex.Vertex.{Vertex};
ghost use Rattle.hpr_graph.specs.InOrder.{Ascends};
ghost use Rattle.hpr_graph.specs.Numbered.{graph_in};
ghost use Rattle.hpr_graph.specs.Whole.{IsWhole};
ghost use Rattle.hpr_slice.specs.Vertices.{IsOneOf};
ghost use Rattle.hpr_merge.specs.PointConflicts.{ArePointConflicts};
ghost use Rattle.hpr_merge_many.specs.Conflicts.{conflict_of};

use hpr_graph::{Edge, Graph, ManyConflict, NoMemory, Vertex};
use hpr_merge::conflicts_of;
use std::alloc::Global;

/// Puts the conflicts of the variant with this number, at some of its points, behind the others.
pub(crate) fn push_conflicts(
    alloc: Global,
    number: usize,
    variant: &Graph,
    points: &[usize],
    merged: &Graph,
    into: &mut Vec<ManyConflict>,
) -> Result<(), NoMemory>
    requires points { Ascends nat_cmp points.now }
    requires variant { IsWhole (graph_in variant.now) }
    requires merged { IsWhole (graph_in merged.now) }
    ensures { OnOk result ((ps : List (Vertex × Edge))
        × (into.new.items ≡ into.old.items ++ map (conflict_of number) ps)
        × ArePointConflicts (graph_in merged.now) (graph_in variant.now) (IsOneOf variant.now points.now) ps) }
{
    let pairs = conflicts_of(alloc, variant, points, merged)?;
    for (point, edge) in pairs {
        into.push(ManyConflict {
            variant: number,
            point,
            edge,
        })?;
    }
    Ok(())
}
