//! An integration, with all that a tool wants to know of it.
ghost use Rattle.std.specs.Prelude.{◌≡◌, ◌≢◌, ◌≤◌, ℕ, true, false, [], Contains, IfOk, length, map};
ghost use Rattle.hpr_terms.specs.declared.limits.TheConstants.{MAX_VARIANTS};
ghost use Rattle.hpr_graph.specs.declared.conflict.ManyConflict.{ManyConflict};
ghost use Rattle.hpr_graph.specs.declared.edge.Edge.{Edge};
ghost use Rattle.hpr_graph.specs.declared.vertex.Vertex.{Vertex};
ghost use Rattle.hpr_graph.specs.Answer.{HasParts, IsAnswerBy, interference, no_program, printed, spent};
ghost use Rattle.hpr_graph.specs.Conflicts.{told_many};
ghost use Rattle.hpr_graph.specs.Numbered.{graph_in};
ghost use Rattle.hpr_engine.specs.Made.{AreGraphsOf, IsGraphOf};
ghost use Rattle.hpr_outcome.specs.Outcomes.{IfInterference, IfMerged, IfNoProgram, IfSpent};
ghost use Rattle.hpr_outcome.specs.Outcomes.{IsMergedBy, IsNoneBy, IsSoughtFor, IsSpentBy};

use crate::outcome::Outcome;
use crate::search::search;
use hpr_engine::searched_for_all;
use hpr_graph::{Graph, ManyConflict, NoMemory};
use hpr_merge_many::merge_many;
use hpr_syntax::Program;
use std::alloc::Global;

/// Whether there is no conflict.
fn are_none(conflicts: &[ManyConflict]) -> bool
    ensures none { result ≡ true → conflicts.now ≡ [] }
    ensures some { result ≡ false → conflicts.now ≢ [] }
{
    conflicts.is_empty()
}

/// What comes of an integration of two to sixteen variants of a program with their base, with at most so many
/// tries: what `hpr_many::integrate_many` answers, and beside it the graph that was searched for, the parts that
/// got new tags, how many tries were made, and where no program is found the first clash of the search (Horwitz,
/// Prins and Reps 1989 have two variants, no tags, and leave the order of tries open).
///
/// The graphs are those of base and of each variant, in their order. At least one try is allowed. It fails only for
/// want of memory. Costs what an integration costs whose graphs are made, and for the first clash one walk more,
/// without a program.
pub fn merge_outcome(
    alloc: Global,
    base: &Program,
    variants: &[Program],
    base_graph: &Graph,
    graphs: &[Graph],
    tries: u64,
) -> Result<Outcome, NoMemory>
    requires least { 2 ≤ length variants.now }
    requires most { length variants.now ≤ MAX_VARIANTS }
    requires base { IsGraphOf base.now base_graph.now }
    requires graphs { AreGraphsOf variants.now graphs.now }
    requires tries { 1 ≤ tries }
    ensures interference { IfOk result (λ o. IfInterference o (λ cs. IsAnswerBy (λ t. t)
        base.now variants.now tries (interference (map told_many cs)))) }
    ensures numbers { IfOk result (λ o. IfInterference o (λ cs. (c : ManyConflict) → Contains cs c
        → 1 ≤ c.variant)) }
    ensures printed { IfOk result (λ o. IfMerged o (λ p s. IsAnswerBy {X = ℕ × Vertex × Edge} (λ t. t)
        base.now variants.now tries (printed p))) }
    ensures merged { IfOk result (λ o. IfMerged o (λ p s. IsSoughtFor base.now variants.now s
        (λ rank issued. IsMergedBy rank issued tries p s))) }
    ensures no_program { IfOk result (λ o. IfNoProgram o (λ s c. (n : ℕ) → HasParts (graph_in s.graph) n
        → IsAnswerBy {X = ℕ × Vertex × Edge} (λ t. t) base.now variants.now tries (no_program n))) }
    ensures none { IfOk result (λ o. IfNoProgram o (λ s c. IsSoughtFor base.now variants.now s
        (λ rank issued. IsNoneBy rank issued tries s c))) }
    ensures spent { IfOk result (λ o. IfSpent o (λ s c. IsAnswerBy {X = ℕ × Vertex × Edge} (λ t. t)
        base.now variants.now tries spent)) }
    ensures unfound { IfOk result (λ o. IfSpent o (λ s c. IsSoughtFor base.now variants.now s
        (λ rank issued. IsSpentBy rank issued tries s c))) }
{
    let merged = merge_many(alloc, base_graph, graphs)?;
    if are_none(&merged.conflicts) {
        let searched = searched_for_all(alloc, merged.graph, base, variants)?;
        search(alloc, searched, tries)
    } else {
        Ok(Outcome::Interference(merged.conflicts))
    }
}
