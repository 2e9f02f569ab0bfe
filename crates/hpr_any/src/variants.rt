//! Many variants and their base become one program, whatever their parts mean.
ghost use Rattle.std.specs.Prelude.{◌≡◌, ◌≤◌, ◌∷◌, ℕ, Contains, IfOk, IsErrOf, length, map};
ghost use Rattle.std.specs.List.{AllByRecursion};
ghost use Rattle.hpr_terms.specs.declared.limits.TheConstants.{MAX_VARIANTS};
ghost use Rattle.hpr_syntax.specs.Shape.{IsProgram};
ghost use Rattle.hpr_graph.specs.declared.conflict.ManyConflict.{ManyConflict};
ghost use Rattle.hpr_graph.specs.declared.edge.Edge.{Edge};
ghost use Rattle.hpr_graph.specs.declared.vertex.Vertex.{Vertex};
ghost use Rattle.hpr_graph.specs.Answer.{interference, printed, no_program, spent, HasSpentLeavesOf, IsAnswerBy};
ghost use Rattle.hpr_graph.specs.Conflicts.{told_many};
ghost use Rattle.hpr_engine.specs.Limit.{AreAllInLimit, IsFirstTooLargeOf};
ghost use Rattle.hpr_many.specs.Answers.{IfManyInterference, IfManyJudged, IfManyNoProgram, IfManyTooManyEdges};
ghost use Rattle.hpr_meaning.specs.Any.KeptLaw.{KeepsAll};
ghost use Rattle.hpr_any.specs.MeaningOf.{MeaningOf, by_reads};

use hpr_many::ManyStop;
use hpr_syntax::Program;
use std::alloc::Global;

/// The integration of two to sixteen variants of a program with their base, as `hpr_many::integrate_many` makes
/// it, for parts that say something in whatever language. With each meaning of what they say, over values of `V`
/// and faults of `F`, the program that is answered keeps the meaning of all variants.
///
/// Stops without a program as `hpr_many::integrate_many` does, with the same causes.
pub fn integrate_many<V, F>(
    alloc: Global,
    base: &Program,
    variants: &[Program],
    tries: u64,
) -> Result<Program, ManyStop>
    requires least { 2 ≤ length variants.now }
    requires most { length variants.now ≤ MAX_VARIANTS }
    requires tries { 1 ≤ tries }

    // The answer is one by the definition.
    ensures printed { IfOk result (λ p. IsAnswerBy {X = ℕ × Vertex × Edge} (λ t. t) base.now variants.now tries
        (printed p)) }
    ensures interference { IfManyInterference result (λ cs. IsAnswerBy (λ t. t) base.now variants.now tries
        (interference (map told_many cs))) }
    ensures numbers { IfManyInterference result (λ cs. (c : ManyConflict) → Contains cs c → 1 ≤ c.variant) }
    ensures no_program { IfManyNoProgram result (λ n. IsAnswerBy {X = ℕ × Vertex × Edge} (λ t. t)
        base.now variants.now tries (no_program n)) }
    ensures spent { IsErrOf result ManyStop.Spent
        → IsAnswerBy {X = ℕ × Vertex × Edge} (λ t. t) base.now variants.now tries spent }
    ensures leaves { IsErrOf result ManyStop.Spent → HasSpentLeavesOf base.now variants.now tries }

    // The limit on edges comes first.
    ensures within { IfManyJudged result (AreAllInLimit (base.now ∷ variants.now)) }
    ensures too_many { IfManyTooManyEdges result (λ n. IsFirstTooLargeOf (base.now ∷ variants.now) n) }

    // A program that is answered keeps the meaning of all variants, whatever the parts mean.
    ensures keeps { IfOk result (λ p. (m : MeaningOf V F) → KeepsAll (by_reads m) base.now variants.now p) }
{
    let _base = base.finals();
    read_programs(variants);
    hpr_many::integrate_many(alloc, base, variants, tries)
}

/// What holds of each program by itself holds of all of them: they are programs.
fn read_programs(programs: &[Program])
    ensures { AllByRecursion IsProgram programs.now }
{
    for program in programs {
        let _finals = program.finals();
    }
}
