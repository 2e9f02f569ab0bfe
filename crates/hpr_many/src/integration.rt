//! Many variants and their base become one program.
ghost use Rattle.std.specs.Prelude.{◌≡◌, ◌≤◌, ◌∷◌, ℕ, Contains, IfOk, IsErrOf, length, map};
ghost use Rattle.hpr_terms.specs.declared.limits.TheConstants.{MAX_VARIANTS};
ghost use Rattle.hpr_graph.specs.declared.conflict.ManyConflict.{ManyConflict};
ghost use Rattle.hpr_graph.specs.declared.edge.Edge.{Edge};
ghost use Rattle.hpr_graph.specs.declared.vertex.Vertex.{Vertex};
ghost use Rattle.hpr_graph.specs.Answer.{interference, printed, no_program, spent, HasSpentLeavesOf, IsAnswerBy};
ghost use Rattle.hpr_graph.specs.Conflicts.{told_many};
ghost use Rattle.hpr_meaning.specs.KeptLaw.{KeepsAll};
ghost use Rattle.hpr_engine.specs.Limit.{AreAllInLimit, IsFirstTooLargeOf};
ghost use Rattle.hpr_many.specs.Answers.{IfManyInterference, IfManyJudged, IfManyNoProgram, IfManyTooManyEdges};

use crate::programs::merge_all_programs;
use crate::stop::ManyStop;
use hpr_engine::{Searched, searched_for_all};
use hpr_rebuild::{RebuildError, part_count, rebuild};
use hpr_syntax::Program;
use std::alloc::Global;

/// The integration of two to sixteen variants of a program with their base: the first arrangement, by the
/// rank of the parts, whose graph is the merged graph, in which of several contents of one tag all but that
/// of the first variant that has one of them have a new tag of author 0, so that no tag has two contents. No
/// part has a new tag where their serials would pass the greatest, 4,294,967,295 (Horwitz, Prins and Reps
/// 1989 have two variants, and no tags). Its finals are ascending, and each author has the greatest of the
/// issued numbers of all, author 0 as many more as there are new tags. It keeps the meaning of all variants:
/// from each state on which base and all variants end, it ends within as many steps as they took together,
/// with what each variant changed and what all agree on (Reps and Yang 1988, of two). For two variants the
/// answer is that of [`hpr_engine::integrate`].
///
/// At least one try is allowed; an arrangement whose graph is compared is one, and so is a front of parts
/// that is given up with all that begin with it (Horwitz, Prins and Reps 1989 leave the order open, and
/// know no limit on edges and no budget). Makes the graph of each program once, compares each variant once
/// with the base and once with the merged graph, and looks each part up by hash a fixed number of times.
///
/// Refuses with `TooManyEdges` where a graph of the programs has more than 1,000,000 edges, with the first
/// such number, 0 for the base and from 1 for the variants; else with `Interference` exactly where there is a
/// conflict, and lists all of them; else with `NoProgram`, only where no program has the merged graph with
/// these new tags, and counts that graph's parts; else with `Spent`, only where there are more arrangements
/// than tries and none of the first that many has this graph, and where it is so of their leaves. `Memory`
/// is want of memory.
pub fn integrate_many(
    alloc: Global,
    base: &Program,
    variants: &[Program],
    tries: u64,
) -> Result<Program, ManyStop>
    requires least { 2 ≤ length variants.now }
    requires most { length variants.now ≤ MAX_VARIANTS }
    requires tries { 1 ≤ tries }

    // The answer is one by the definition.
    ensures printed { IfOk result (λ m. IsAnswerBy {X = ℕ × Vertex × Edge} (λ t. t) base.now variants.now tries
        (printed m)) }
    ensures interference { IfManyInterference result (λ cs. IsAnswerBy (λ t. t) base.now variants.now tries
        (interference (map told_many cs))) }
    ensures numbers { IfManyInterference result (λ cs. (c : ManyConflict) → Contains cs c → 1 ≤ c.variant) }
    ensures no_program { IfManyNoProgram result (λ n. IsAnswerBy {X = ℕ × Vertex × Edge} (λ t. t)
        base.now variants.now tries (no_program n)) }
    ensures spent { IsErrOf result ManyStop.Spent
        → IsAnswerBy {X = ℕ × Vertex × Edge} (λ t. t) base.now variants.now tries spent }

    // The search spends no more than one try on each leaf of the arrangements.
    ensures leaves { IsErrOf result ManyStop.Spent → HasSpentLeavesOf base.now variants.now tries }

    // A program that is answered keeps the meaning of all variants: the integration theorem, over programs.
    ensures keeps { IfOk result (λ m. KeepsAll base.now variants.now m) }

    // The limit on edges comes first.
    ensures within { IfManyJudged result (AreAllInLimit (base.now ∷ variants.now)) }
    ensures too_many { IfManyTooManyEdges result (λ n. IsFirstTooLargeOf (base.now ∷ variants.now) n) }
{
    let graph = merge_all_programs(alloc, base, variants)?;
    let Searched {
        graph,
        rank,
        issued,
        renamed: _,
    } = searched_for_all(alloc, graph, base, variants)?;
    match rebuild(alloc, &graph, &rank, &issued, tries) {
        Ok(program) => Ok(program),
        Err(RebuildError::NoProgram) => Err(ManyStop::NoProgram(part_count(&graph))),
        Err(RebuildError::Spent) => Err(ManyStop::Spent),
        Err(RebuildError::Memory) => Err(ManyStop::Memory),
    }
}
