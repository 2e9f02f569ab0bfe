//! Laws of clashes: each function's contract is the law, for all values.
ghost use Rattle.std.specs.Prelude.{◌≡◌, List, ◌∷◌, ◌++◌};
ghost use Rattle.hpr_syntax.specs.Issued.{Issued};
ghost use Rattle.hpr_syntax.specs.Tree.{Tree};
ghost use Rattle.hpr_graph.specs.declared.vertex.Vertex.{Vertex};
ghost use Rattle.hpr_graph.specs.Numbered.{Numbered, graph_in};
ghost use Rattle.hpr_graph.specs.Rank.{parts_of};
ghost use Rattle.hpr_graph.specs.Arrangements.{IsArrangement};
ghost use Rattle.hpr_graph.specs.Answer.{Fits};
ghost use Rattle.hpr_graph.specs.Clashes.{Clashes};

/// Where a part clashes with the parts placed before it, no arrangement whose preorder begins with these
/// and then that part has the graph.
pub fn clash_excludes()
    ensures { (g : Numbered) (issued : Issued) (p : Tree) (placed rest : List Vertex) (c : Vertex)
        → IsArrangement (graph_in g) issued p → parts_of p ≡ placed ++ c ∷ rest
        → Clashes (graph_in g) placed c → ¬ Fits (graph_in g) p }
{}
