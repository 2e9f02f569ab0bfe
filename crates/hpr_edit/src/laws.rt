//! Laws over the definitions: each function's contract is the law, for all values.
ghost use Rattle.std.specs.Prelude.{◌≡◌, ◌≤◌, ℕ, List};
ghost use Rattle.hpr_terms.specs.declared.tag.Tag.{Tag};
ghost use Rattle.hpr_syntax.specs.Issued.{issued_to};
ghost use Rattle.hpr_syntax.specs.Tree.{Tree};
ghost use Rattle.hpr_syntax.specs.Shape.{IsProgram};
ghost use Rattle.hpr_edit.specs.declared.command.Command.{Command};
ghost use Rattle.hpr_edit.specs.declared.command.Inverse.{Inverse};
ghost use Rattle.hpr_edit.specs.Edited.{edited, becomes};
ghost use Rattle.hpr_edit.specs.Reverted.{reverted, Undoes, IsPutBackIssued, Restores};
ghost use Rattle.hpr_edit.specs.Rows.{others, touched};
ghost use Rattle.hpr_edit.specs.Steps.{Steps, Fresh};

/// A command followed by its inverse restores the body and the finals, and issued numbers stay. So
/// the inverse, with the body and the finals that the command left, determines those of before. A
/// command leaves an inverse that may be reverted, and what a revert leaves is a program. The inverse
/// may be reverted again and again, wherever that body and those finals come back: so the inverses of
/// a list of commands may be reverted from the last to the first.
pub fn undone()
    ensures restored { (p : Tree) → IsProgram p → (c : Command) (author : ℕ) (q : Tree) (i : Inverse)
        → edited p c author ≡ becomes q i → Restores p i q }
    ensures ready { (p : Tree) → IsProgram p → (c : Command) (author : ℕ) (q : Tree) (i : Inverse)
        → edited p c author ≡ becomes q i → IsPutBackIssued i q }
    ensures program { (old : Tree) (i : Inverse) (q : Tree) → IsProgram q → Undoes old i q → IsPutBackIssued i q
        → IsProgram (reverted i q) }
    ensures again { (old : Tree) (i : Inverse) (p q : Tree) → Undoes old i p → IsPutBackIssued i p → p.body ≡ q.body
        → p.finals ≡ q.finals
        → ((a : ℕ) → issued_to a p.issued ≤ issued_to a q.issued) → Undoes old i q × IsPutBackIssued i q }
{}

/// No command makes an author's issued number less, and no revert changes one.
pub fn issued_numbers_rise()
    ensures command { (p : Tree) → IsProgram p → (c : Command) (author : ℕ) (q : Tree) (i : Inverse)
        → edited p c author ≡ becomes q i
        → (a : ℕ) → issued_to a p.issued ≤ issued_to a q.issued }
    ensures revert { (i : Inverse) (p : Tree) → (reverted i p).issued ≡ p.issued }
{}

/// The parts that a command doesn't name keep tag and content, and their order among each other.
pub fn others_stay()
    ensures { (p : Tree) → IsProgram p → (c : Command) (author : ℕ) (q : Tree) (i : Inverse)
        → edited p c author ≡ becomes q i
        → others (touched p c author) q.body ≡ others (touched p c author) p.body }
{}

/// Over every list of commands and reverts, no tag of a new part is one of the first program or was
/// issued before, and no two are the same.
pub fn fresh_tags()
    ensures { (author : ℕ) (p r : Tree) (ts : List Tag) → IsProgram p → Steps author p ts r → Fresh p ts }
{}
