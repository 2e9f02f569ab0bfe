//! Laws over the definitions: each function's contract is the law, for all values.
ghost use Rattle.hpr_syntax.specs.Tree.{Tree};
ghost use Rattle.hpr_syntax.specs.Shape.{IsProgram};
ghost use Rattle.hpr_syntax.specs.Grammar.{tagged};
ghost use Rattle.hpr_syntax.specs.Spelling.{Spells};
ghost use Rattle.hpr_syntax.specs.Print.{text};

/// The canonical text of a program spells that program.
pub fn text_spells()
    ensures { (t : Tree) → IsProgram t → Spells tagged (text t) t }
{}
