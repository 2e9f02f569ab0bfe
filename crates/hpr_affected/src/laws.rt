//! The law of affected points: its function's contract is the law, for all values.
ghost use Rattle.std.specs.Prelude.{◌↔◌};
ghost use Rattle.hpr_syntax.specs.Shape.{IsProgram};
ghost use Rattle.hpr_syntax.specs.Tree.{Tree};
ghost use Rattle.hpr_graph.specs.declared.vertex.Vertex.{Vertex};
ghost use Rattle.hpr_graph.specs.Direct.{IsDirectlyAffected};
ghost use Rattle.hpr_graph.specs.Numbered.{Numbered, IsNumbered, graph_in};
ghost use Rattle.hpr_graph.specs.Points.{IsAffected};
ghost use Rattle.hpr_graph.specs.ProgramGraph.{graph_of};
ghost use Rattle.hpr_graph.specs.Slices.{IsReached};
ghost use Rattle.hpr_graph.specs.Whole.{IsWhole};

/// The affected points of a variant are exactly the vertices that are reached in its graph from the directly affected
/// ones: of programs, and of graphs by numbers that are whole.
pub fn reached_affected()
    ensures programs { (t u : Tree) → IsProgram t → IsProgram u → (v : Vertex)
        → IsAffected (graph_of t) (graph_of u) v
        ↔ IsReached (graph_of t) (IsDirectlyAffected (graph_of t) (graph_of u)) v }
    ensures numbered { (g h : Numbered) → IsNumbered g → IsNumbered h → IsWhole (graph_in g) → IsWhole (graph_in h)
        → (v : Vertex)
        → IsAffected (graph_in g) (graph_in h) v
        ↔ IsReached (graph_in g) (IsDirectlyAffected (graph_in g) (graph_in h)) v }
{}
