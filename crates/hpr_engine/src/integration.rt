//! Two variants and their base become one program.
ghost use Rattle.std.specs.Prelude.{◌≡◌, ◌≤◌, IfOk, IsErrOf};
ghost use Rattle.hpr_syntax.specs.Meaning.{Keeps};
ghost use Rattle.hpr_graph.specs.Answer.{interference, printed, no_program, spent, HasSpentLeaves, IsAnswer};
ghost use Rattle.hpr_engine.specs.Answers.{IfInterference, IfJudged, IfNoProgram, IfTooManyEdges, IsFirstTooLarge};
ghost use Rattle.hpr_engine.specs.Limit.{AreInLimit};

use crate::programs::merge_programs;
use crate::search::{Searched, searched_for};
use crate::stop::Stop;
use hpr_rebuild::{RebuildError, part_count, rebuild};
use hpr_syntax::Program;
use std::alloc::Global;

/// The integration of two variants of a program with their base: the first arrangement, by the rank of
/// the parts, whose graph is the merged graph (Horwitz, Prins and Reps 1989), in which of two contents of
/// one tag the one that A lacks has a new tag of author 0, so that no tag has two contents. No part has a
/// new tag where their serials would pass the greatest, 4,294,967,295 (Horwitz, Prins and Reps 1989 have
/// no tags). Its finals are ascending, and each author has the greatest of its three issued numbers,
/// author 0 as many more as there are new tags. It keeps the meaning of both variants: from each state on
/// which base and both variants end, it ends with what each variant changed and what all three agree on
/// (Reps and Yang 1988).
///
/// At least one try is allowed; an arrangement whose graph is compared is one, and so is a front of parts
/// that is given up with all that begin with it (Horwitz, Prins and Reps 1989 leave the order open, and
/// know no limit on edges and no budget).
///
/// Refuses with `TooManyEdges` where a graph of the three programs has more than 1,000,000 edges, and
/// names the first of base, A and B; else with `Interference` exactly where there is a conflict, and
/// lists all of them; else with `NoProgram`, only where no program has the merged graph with these new
/// tags, and counts that graph's parts; else with `Spent`, only where there are more arrangements than
/// tries and none of the first that many has this graph, and where it is so of their leaves. `Memory` is
/// want of memory.
pub fn integrate(
    alloc: Global,
    base: &Program,
    a: &Program,
    b: &Program,
    tries: u64,
) -> Result<Program, Stop>
    requires tries { 1 ≤ tries }

    // The answer is one by the definition.
    ensures printed { IfOk result (λ m. IsAnswer base.now a.now b.now tries (printed m)) }
    ensures interference { IfInterference result (λ cs. IsAnswer base.now a.now b.now tries (interference cs)) }
    ensures no_program { IfNoProgram result (λ n. IsAnswer base.now a.now b.now tries (no_program n)) }
    ensures spent { IsErrOf result Stop.Spent → IsAnswer base.now a.now b.now tries spent }

    // The search spends no more than one try on each leaf of the arrangements.
    ensures leaves { IsErrOf result Stop.Spent → HasSpentLeaves base.now a.now b.now tries }

    // A program that is answered keeps the meaning of both variants: the integration theorem, over programs.
    ensures keeps { IfOk result (λ m. Keeps base.now a.now b.now m) }

    // The limit on edges comes first.
    ensures within { IfJudged result (AreInLimit base.now a.now b.now) }
    ensures too_many { IfTooManyEdges result (λ which. IsFirstTooLarge base.now a.now b.now which) }
{
    let graph = merge_programs(alloc, base, a, b)?;
    let Searched {
        graph,
        rank,
        issued,
        renamed: _,
    } = searched_for(alloc, graph, base, a, b)?;
    match rebuild(alloc, &graph, &rank, &issued, tries) {
        Ok(program) => Ok(program),
        Err(RebuildError::NoProgram) => Err(Stop::NoProgram(part_count(&graph))),
        Err(RebuildError::Spent) => Err(Stop::Spent),
        Err(RebuildError::Memory) => Err(Stop::Memory),
    }
}
