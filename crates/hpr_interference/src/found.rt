//! The conflicts of graphs.
ghost use Rattle.std.specs.Prelude.{◌≤◌, ℕ, Contains, IfOk, length, map};
ghost use Rattle.hpr_terms.specs.declared.limits.TheConstants.{MAX_VARIANTS};
ghost use Rattle.hpr_graph.specs.declared.conflict.ManyConflict.{ManyConflict};
ghost use Rattle.hpr_graph.specs.Conflicts.{AreConflictsBy, told_many};
ghost use Rattle.hpr_graph.specs.Numbered.{graph_in, graphs_in};
ghost use Rattle.hpr_graph.specs.Whole.{AreAll, IsWhole};

use hpr_graph::{Graph, ManyConflict, NoMemory};
use hpr_merge_many::merge_many;
use std::alloc::Global;

/// All conflicts of two to sixteen variants with their base, as an integration lists them: those of one
/// variant after another, each variant's in the order of vertices (Horwitz, Prins and Reps 1989, who
/// name no edge for a conflict, have two variants). The number of a variant counts from 1.
///
/// The graphs are whole, as those of programs are. Makes no program. It fails only for want of memory.
pub fn conflicts_among(
    alloc: Global,
    base: &Graph,
    variants: &[Graph],
) -> Result<Vec<ManyConflict>, NoMemory>
    requires least { 2 ≤ length variants.now }
    requires most { length variants.now ≤ MAX_VARIANTS }
    requires base { IsWhole (graph_in base.now) }
    requires variants { AreAll IsWhole (graphs_in variants.now) }
    ensures conflicts { IfOk result (λ cs. AreConflictsBy (λ t. t) (graph_in base.now)
        (graphs_in variants.now) (map told_many cs.items)) }
    ensures numbers { IfOk result (λ cs. (c : ManyConflict) → Contains cs.items c → 1 ≤ c.variant) }
{
    let merged = merge_many(alloc, base, variants)?;
    Ok(merged.conflicts)
}
