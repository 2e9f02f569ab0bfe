//! Laws of the graphs of programs: each function's contract is the law, for all values.
ghost use Rattle.hpr_syntax.specs.Shape.{IsProgram};
ghost use Rattle.hpr_syntax.specs.Tree.{Tree};
ghost use Rattle.hpr_graph.specs.ProgramGraph.{graph_of};
ghost use Rattle.hpr_graph.specs.Whole.{IsWhole, IsFinite};

/// The graph of a program is whole and finite.
pub fn programs_whole()
    ensures whole { (t : Tree) → IsProgram t → IsWhole (graph_of t) }
    ensures finite { (t : Tree) → IsFinite (graph_of t) }
{}
