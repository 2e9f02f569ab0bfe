//! Laws over the definitions: each function's contract is the law, for all values.
ghost use Rattle.std.specs.Prelude.{◌≡◌, ℕ, List};
ghost use Rattle.hpr_terms.specs.declared.expr.Expr.{Expr};
ghost use Rattle.hpr_terms.specs.Uses.{Uses};
ghost use Rattle.hpr_syntax.specs.Values.{Values, value_at};
ghost use Rattle.hpr_syntax.specs.Value.{value};
ghost use Rattle.hpr_syntax.specs.declared.rows.Content.{Content};
ghost use Rattle.hpr_syntax.specs.Contents.{UsesIn, answer_of};

/// The value of an expression depends on the names that it uses alone.
pub fn value_by_uses()
    ensures { (e : Expr) (s t : Values) → ((x : List ℕ) → Uses e x → value_at s x ≡ value_at t x)
        → value e s ≡ value e t }
{}

/// What a part does in a state depends on the names that it uses alone.
pub fn act_by_uses()
    ensures { (c : Content) (s t : Values) → ((x : List ℕ) → UsesIn c x → value_at s x ≡ value_at t x)
        → answer_of c s ≡ answer_of c t }
{}
