//! Laws of arrangements and of the programs that have a graph: each function's contract is the law, for
//! all values.
ghost use Rattle.std.specs.Prelude.{◌≡◌, ◌≤◌, ℕ, ◌++◌, ◌∷◌, List};
ghost use Rattle.hpr_terms.specs.declared.tag.Tag.{Tag};
ghost use Rattle.hpr_syntax.specs.declared.rows.Content.{Content};
ghost use Rattle.hpr_syntax.specs.Body.{part_count};
ghost use Rattle.hpr_syntax.specs.Issued.{Issued, issued_to};
ghost use Rattle.hpr_syntax.specs.Nests.{Says};
ghost use Rattle.hpr_syntax.specs.Shape.{IsProgram};
ghost use Rattle.hpr_syntax.specs.Tree.{Tree};
ghost use Rattle.hpr_graph.specs.declared.vertex.Vertex.{Vertex};
ghost use Rattle.hpr_graph.specs.Graphs.{Same, IsOnce};
ghost use Rattle.hpr_graph.specs.Numbered.{Numbered, graph_in};
ghost use Rattle.hpr_graph.specs.ProgramGraph.{graph_of};
ghost use Rattle.hpr_graph.specs.Rank.{parts_of};
ghost use Rattle.hpr_graph.specs.Arrangements.{IsArrangement, AreArrangements};
ghost use Rattle.hpr_graph.specs.declared.edge.Edge.{Edge};
ghost use Rattle.hpr_graph.specs.Answer.{Answer, AnswerBy, printed, Fits, NoneFits, HasNoProgram, HasParts, IsFound};
ghost use Rattle.hpr_graph.specs.Answer.{merged_of, merged_of_all};
ghost use Rattle.hpr_order.specs.Arranging.{AreIssued};
ghost use Rattle.hpr_syntax.specs.Proper.{IsProperIssued};
ghost use Rattle.hpr_rebuild.specs.Settled.{IsSettled};

/// Each program can be settled: its issued numbers replaced, and its finals put in ascending order. Its
/// graph stays the same, and where each part's tag was issued, it stays a program.
pub fn settled_stays()
    ensures stands { (issued : Issued) (p : Tree) → IsProgram p → (q : Tree) × IsSettled issued p q }
    ensures graph { (issued : Issued) (p q : Tree) → IsSettled issued p q → Same (graph_of q) (graph_of p) }
    ensures program { (issued : Issued) (p q : Tree) → IsProgram p → IsProperIssued issued
        → ((t : Tag) (c : Content) → Says p.body t c → (1 ≤ t.serial) × (t.serial ≤ issued_to t.author issued))
        → IsSettled issued p q → IsProgram q }
{}

/// Every program with the graph is an arrangement, but for the order of its finals and its issued
/// numbers. So where no arrangement has the graph, no program has it.
pub fn programs_are_arrangements()
    ensures member { (g : Numbered) (issued : Issued) (p q : Tree) → IsProgram p → Fits (graph_in g) p
        → IsProperIssued issued → AreIssued (graph_in g) issued
        → IsSettled issued p q → IsArrangement (graph_in g) issued q }
    ensures none { (g : Numbered) (rank : List Vertex) (issued : Issued) (ps : List Tree)
        → AreArrangements (graph_in g) rank issued ps → IsProperIssued issued
        → AreIssued (graph_in g) issued → NoneFits (graph_in g) ps → HasNoProgram (graph_in g) }
{}

/// An arrangement has as many parts as the graph.
pub fn arrangements_have_the_parts()
    ensures { (g : Numbered) (issued : Issued) (p : Tree) → IsArrangement (graph_in g) issued p
        → HasParts (graph_in g) (part_count p.body) }
{}

/// Where the rank begins with the parts of a program in preorder, and the program has the graph, it is
/// the first of the arrangements, but for the order of its finals and its issued numbers.
pub fn first_by_rank()
    ensures { (g : Numbered) (rank rest : List Vertex) (issued : Issued) (ps : List Tree) (p q : Tree)
        → AreArrangements (graph_in g) rank issued ps → IsOnce rank
        → IsProgram p → Fits (graph_in g) p → IsProperIssued issued → AreIssued (graph_in g) issued
        → IsSettled issued p q → rank ≡ parts_of p ++ rest
        → (qs : List Tree) × (ps ≡ q ∷ qs) }
{}

/// What is found for a graph is found for the same graph with other numbers, or for the merged graph that
/// it is, of a base and any number of variants, and so of three programs.
pub fn same_graphs_find_the_same()
    ensures numbered { (g h : Numbered) (rank : List Vertex) (issued : Issued) (tries : ℕ) (r : Answer)
        → Same (graph_in g) (graph_in h)
        → IsFound (graph_in g) rank issued tries r → IsFound (graph_in h) rank issued tries r }
    ensures all { (g : Numbered) (base : Tree) (vs : List Tree) (rank : List Vertex) (issued : Issued) (tries : ℕ)
        → (r : AnswerBy (ℕ × Vertex × Edge)) → Same (graph_in g) (merged_of_all base vs)
        → IsFound (graph_in g) rank issued tries r → IsFound (merged_of_all base vs) rank issued tries r }
    ensures merged { (g : Numbered) (base a b : Tree) (rank : List Vertex) (issued : Issued) (tries : ℕ) (r : Answer)
        → Same (graph_in g) (merged_of base a b)
        → IsFound (graph_in g) rank issued tries r → IsFound (merged_of base a b) rank issued tries r }
{}

/// Where the rank begins with the parts of a program in preorder, and the program has the graph, it is
/// what is found, with however few tries, but for the order of its finals and its issued numbers. So it
/// is where one variant is the base: the other variant has the merged graph.
pub fn first_by_rank_is_found()
    ensures { (g : Numbered) (rank rest : List Vertex) (issued : Issued) (tries : ℕ) (r : Answer) (p q : Tree)
        → IsOnce rank → IsProgram p → Fits (graph_in g) p
        → IsProperIssued issued → AreIssued (graph_in g) issued → IsSettled issued p q → rank ≡ parts_of p ++ rest
        → 1 ≤ tries
        → IsFound (graph_in g) rank issued tries r → r ≡ printed q }
{}
