//! Laws of the merged graph: each function's contract is the law, for all values.
ghost use Rattle.std.specs.Prelude.{◌≡◌, ◌↔◌, ◌⊎◌, ℕ, List, Contains};
ghost use Rattle.std.specs.List.{AllByRecursion};
ghost use Rattle.hpr_syntax.specs.Shape.{IsProgram};
ghost use Rattle.hpr_syntax.specs.Tree.{Tree};
ghost use Rattle.hpr_graph.specs.declared.conflict.Conflict.{Conflict};
ghost use Rattle.hpr_graph.specs.declared.conflict.Side.{Side};
ghost use Rattle.hpr_graph.specs.declared.vertex.Vertex.{Vertex};
ghost use Rattle.hpr_graph.specs.declared.edge.Edge.{Edge};
ghost use Rattle.hpr_graph.specs.Answer.{graphs_of, merged_of, merged_of_all};
ghost use Rattle.hpr_graph.specs.Direct.{IsDirectlyAffected};
ghost use Rattle.hpr_graph.specs.Graphs.{Same};
ghost use Rattle.hpr_graph.specs.Numbered.{Numbered, IsNumbered, graph_in, graphs_in};
ghost use Rattle.hpr_graph.specs.ProgramGraph.{graph_of};
ghost use Rattle.hpr_graph.specs.Slices.{IsReached, slice_at};
ghost use Rattle.hpr_graph.specs.Points.{IsAffected, merged_all};
ghost use Rattle.hpr_graph.specs.Conflicts.{graph_at, graph_on, AreConflicts, IsAdded, IsConflictAt, IsLeast};
ghost use Rattle.hpr_graph.specs.Whole.{AreAll, HasLoops, IsWhole, SaysOnce};

/// There is a conflict exactly where an affected point of a variant is reached in the merged graph from the vertices
/// that are directly affected in it beside the variant's graph: so one walk forward finds all conflicts. Of two
/// variants, of any number, and of graphs by numbers that are whole.
pub fn reached_conflict()
    ensures programs { (base : Tree) (vs : List Tree) → IsProgram base → AllByRecursion IsProgram vs
        → (i : ℕ) (v : Vertex)
        → IsConflictAt (merged_of_all base vs) (graph_at (graphs_of vs) i) (graph_of base) v
        ↔ (IsAffected (graph_at (graphs_of vs) i) (graph_of base) v
        × IsReached (merged_of_all base vs) (IsDirectlyAffected (merged_of_all base vs) (graph_at (graphs_of vs) i)) v) }
    ensures two { (base a b : Tree) → IsProgram base → IsProgram a → IsProgram b → (side : Side) (v : Vertex)
        → IsConflictAt (merged_of base a b) (graph_on side (graph_of a) (graph_of b)) (graph_of base) v
        ↔ (IsAffected (graph_on side (graph_of a) (graph_of b)) (graph_of base) v
        × IsReached (merged_of base a b)
        (IsDirectlyAffected (merged_of base a b) (graph_on side (graph_of a) (graph_of b))) v) }
    ensures numbered { (base : Numbered) (gs : List Numbered) → IsNumbered base → AllByRecursion IsNumbered gs
        → IsWhole (graph_in base) → AreAll IsWhole (graphs_in gs) → (i : ℕ) (v : Vertex)
        → IsConflictAt (merged_all (graph_in base) (graphs_in gs)) (graph_at (graphs_in gs) i) (graph_in base) v
        ↔ (IsAffected (graph_at (graphs_in gs) i) (graph_in base) v
        × IsReached (merged_all (graph_in base) (graphs_in gs))
        (IsDirectlyAffected (merged_all (graph_in base) (graphs_in gs)) (graph_at (graphs_in gs) i)) v) }
{}

/// At each conflict of programs the edge that it names stands: where an affected point of a variant has another
/// slice in the merged graph, there is a least edge that lies in this slice but not in the variant's, and ends in a
/// vertex of the latter. Each affected point keeps its slice, or there is such an edge. So a list of exactly the
/// conflicts of two variants has each affected point whose slice isn't kept.
pub fn edge_stands()
    ensures stands { (base : Tree) (vs : List Tree) → IsProgram base → AllByRecursion IsProgram vs
        → (i : ℕ) (v : Vertex)
        → IsConflictAt (merged_of_all base vs) (graph_at (graphs_of vs) i) (graph_of base) v
        → (e : Edge) × IsLeast (IsAdded (merged_of_all base vs) (graph_at (graphs_of vs) i) v) e }
    ensures kept_or_added { (base : Tree) (vs : List Tree) → IsProgram base → AllByRecursion IsProgram vs
        → (i : ℕ) (v : Vertex)
        → IsAffected (graph_at (graphs_of vs) i) (graph_of base) v
        → Same (slice_at (merged_of_all base vs) v) (slice_at (graph_at (graphs_of vs) i) v)
        ⊎ ((e : Edge) × IsLeast (IsAdded (merged_of_all base vs) (graph_at (graphs_of vs) i) v) e) }
    ensures told { (base a b : Tree) (cs : List Conflict) → IsProgram base → IsProgram a → IsProgram b
        → AreConflicts (graph_of base) (graph_of a) (graph_of b) cs → (side : Side) (v : Vertex)
        → IsConflictAt (merged_of base a b) (graph_on side (graph_of a) (graph_of b)) (graph_of base) v
        → (c : Conflict) × Contains cs c × (c.side ≡ side) × (c.point ≡ v) }
{}

/// The same of graphs by numbers that are whole, as those of programs are.
pub fn edge_stands_in_lists()
    ensures stands { (base : Numbered) (gs : List Numbered) → IsNumbered base → AllByRecursion IsNumbered gs
        → IsWhole (graph_in base) → AreAll IsWhole (graphs_in gs) → (i : ℕ) (v : Vertex)
        → IsConflictAt (merged_all (graph_in base) (graphs_in gs)) (graph_at (graphs_in gs) i) (graph_in base) v
        → (e : Edge) × IsLeast (IsAdded (merged_all (graph_in base) (graphs_in gs)) (graph_at (graphs_in gs) i) v) e }
    ensures kept_or_added { (base : Numbered) (gs : List Numbered) → IsNumbered base → AllByRecursion IsNumbered gs
        → IsWhole (graph_in base) → AreAll IsWhole (graphs_in gs) → (i : ℕ) (v : Vertex)
        → IsAffected (graph_at (graphs_in gs) i) (graph_in base) v
        → Same (slice_at (merged_all (graph_in base) (graphs_in gs)) v) (slice_at (graph_at (graphs_in gs) i) v)
        ⊎ ((e : Edge) × IsLeast (IsAdded (merged_all (graph_in base) (graphs_in gs)) (graph_at (graphs_in gs) i) v) e) }
{}

/// In the graph of a program the loop of each carried edge leads to the edge's target.
pub fn loops_lead()
    ensures { (t : Tree) → SaysOnce t → HasLoops (graph_of t) }
{}
