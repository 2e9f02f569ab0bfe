//! A merged program that was made elsewhere is judged, whatever its parts mean.
ghost use Rattle.std.specs.Prelude.{◌≡◌, ◌↔◌, [], ◌∷◌, IfOk};
ghost use Rattle.hpr_engine.specs.Limit.{AreAllInLimit, IsFirstTooLargeOf};
ghost use Rattle.hpr_verify.specs.Refusals.{IfTooManyEdges};
ghost use Rattle.hpr_verify.specs.Verdict.{HasSearchedGraph, IsVerdict};
ghost use Rattle.hpr_meaning.specs.Any.Kept.{Keeps};
ghost use Rattle.hpr_any.specs.MeaningOf.{MeaningOf, by_reads};

use hpr_syntax::Program;
use hpr_verify::{Verdict, VerifyError};
use std::alloc::Global;

/// The judgement on a program that is offered as the merge of two variants and their base, as `hpr_verify::verify`
/// makes it, for parts that say something in whatever language. With each meaning of what they say, over values of
/// `V` and faults of `F`, a program that is judged the same keeps the meaning of both variants.
///
/// Refuses what `hpr_verify::verify` refuses, with the same causes.
pub fn verify<V, F>(
    alloc: Global,
    base: &Program,
    a: &Program,
    b: &Program,
    offered: &Program,
) -> Result<Verdict, VerifyError>
    // The verdict is one by the definition.
    ensures verdict { IfOk result (λ v. IsVerdict base.now a.now b.now offered.now v) }
    ensures same { IfOk result (λ v. (v ≡ Verdict.Same) ↔ HasSearchedGraph base.now a.now b.now offered.now) }

    // The limit on edges comes first.
    ensures within { IfOk result (λ _. AreAllInLimit (base.now ∷ a.now ∷ b.now ∷ offered.now ∷ [])) }
    ensures too_many { IfTooManyEdges result (λ which. IsFirstTooLargeOf (base.now ∷ a.now ∷ b.now ∷ offered.now ∷ [])
        which) }

    // An offered program that has the merged graph keeps the meaning of both variants, whatever the parts mean.
    ensures keeps { IfOk result (λ v. v ≡ Verdict.Same
        → (m : MeaningOf V F) → Keeps (by_reads m) base.now a.now b.now offered.now) }
{
    let _base = base.finals();
    let _a = a.finals();
    let _b = b.finals();
    let _offered = offered.finals();
    hpr_verify::verify(alloc, base, a, b, offered)
}
