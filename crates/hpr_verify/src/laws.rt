//! Laws of verdicts: each function's contract is the law, for all values.
ghost use Rattle.std.specs.Prelude.{◌≡◌, ◌↔◌};
ghost use Rattle.hpr_syntax.specs.Tree.{Tree};
ghost use Rattle.hpr_verify.specs.declared.verdict.Verdict.{Verdict};
ghost use Rattle.hpr_verify.specs.declared.verdict.Verdict.TheVariants.{Same};
ghost use Rattle.hpr_verify.specs.Verdict.{HasSearchedGraph, IsVerdict};

/// Three programs and one that is offered have one verdict. That there is one can't be refuted: it is a
/// relation, and the logic is constructive, so it is said in this form. It is that the graphs are the same
/// exactly where there is no conflict and the offered program's graph is what is searched (Horwitz, Prins and
/// Reps 1989 have no such judgement).
pub fn one_verdict()
    ensures one { (base a b offered : Tree) (v w : Verdict) → IsVerdict base a b offered v
        → IsVerdict base a b offered w → v ≡ w }
    ensures some { (base a b offered : Tree) → ¬ (¬ ((v : Verdict) × IsVerdict base a b offered v)) }
    ensures same { (base a b offered : Tree) → IsVerdict base a b offered Same
        ↔ HasSearchedGraph base a b offered }
{}
