//! Two variants and their base become one program, whatever their parts mean.
ghost use Rattle.std.specs.Prelude.{◌≡◌, ◌≤◌, IfOk, IsErrOf};
ghost use Rattle.hpr_graph.specs.Answer.{interference, printed, no_program, spent, HasSpentLeaves, IsAnswer};
ghost use Rattle.hpr_engine.specs.Answers.{IfInterference, IfJudged, IfNoProgram, IfTooManyEdges, IsFirstTooLarge};
ghost use Rattle.hpr_engine.specs.Limit.{AreInLimit};
ghost use Rattle.hpr_meaning.specs.Any.Kept.{Keeps};
ghost use Rattle.hpr_any.specs.MeaningOf.{MeaningOf, by_reads};

use hpr_engine::Stop;
use hpr_syntax::Program;
use std::alloc::Global;

/// The integration of two variants of a program with their base, as `hpr_engine::integrate` makes it, for parts
/// that say something in whatever language. With each meaning of what they say, over values of `V` and faults of
/// `F`, the program that is answered keeps the meaning of both variants: from each state on which base and both
/// end, it ends within as many steps as the three took together, with what each variant changed and what all
/// three agree on (Reps and Yang 1988, of one language).
///
/// Stops without a program as `hpr_engine::integrate` does, with the same causes.
pub fn integrate<V, F>(
    alloc: Global,
    base: &Program,
    a: &Program,
    b: &Program,
    tries: u64,
) -> Result<Program, Stop>
    requires tries { 1 ≤ tries }

    // The answer is one by the definition.
    ensures printed { IfOk result (λ p. IsAnswer base.now a.now b.now tries (printed p)) }
    ensures interference { IfInterference result (λ cs. IsAnswer base.now a.now b.now tries (interference cs)) }
    ensures no_program { IfNoProgram result (λ n. IsAnswer base.now a.now b.now tries (no_program n)) }
    ensures spent { IsErrOf result Stop.Spent → IsAnswer base.now a.now b.now tries spent }
    ensures leaves { IsErrOf result Stop.Spent → HasSpentLeaves base.now a.now b.now tries }

    // The limit on edges comes first.
    ensures within { IfJudged result (AreInLimit base.now a.now b.now) }
    ensures too_many { IfTooManyEdges result (λ which. IsFirstTooLarge base.now a.now b.now which) }

    // A program that is answered keeps the meaning of both variants, whatever the parts mean.
    ensures keeps { IfOk result (λ p. (m : MeaningOf V F) → Keeps (by_reads m) base.now a.now b.now p) }
{
    let _base = base.finals();
    let _a = a.finals();
    let _b = b.finals();
    hpr_engine::integrate(alloc, base, a, b, tries)
}
