//! Laws of other tags: each function's contract is the law, for all values.
ghost use Rattle.std.specs.Prelude.{◌≡◌, ℕ, ◌+◌, List, [], ◌∷◌, map};
ghost use Rattle.std.specs.List.{AllByRecursion};
ghost use Rattle.hpr_terms.specs.declared.tag.Tag.{Tag};
ghost use Rattle.hpr_syntax.specs.Issued.{Issued};
ghost use Rattle.hpr_syntax.specs.Meaning.{Ends, Keeps};
ghost use Rattle.hpr_syntax.specs.Run.{FinalValues, run};
ghost use Rattle.hpr_syntax.specs.Shape.{IsProgram};
ghost use Rattle.hpr_syntax.specs.Tree.{Tree};
ghost use Rattle.hpr_syntax.specs.Values.{Values};
ghost use Rattle.hpr_graph.specs.declared.vertex.Vertex.{Vertex};
ghost use Rattle.hpr_graph.specs.Answer.{AreSplitOff, Fits, IsWithoutConflict, graphs_of, searched_graph_of};
ghost use Rattle.hpr_graph.specs.Conflicts.{HasNoConflict};
ghost use Rattle.hpr_graph.specs.Graphs.{Same};
ghost use Rattle.hpr_graph.specs.ProgramGraph.{graph_of};
ghost use Rattle.hpr_meaning.specs.Instances.{instances};
ghost use Rattle.hpr_meaning.specs.KeptLaw.{Finished, DoesFinish, KeepsAll, programs_of, steps_in};
ghost use Rattle.hpr_rename.specs.Renamed.{graph_with, tree_with};
ghost use Rattle.hpr_rename.specs.RenamedRuns.{instance_with, outcome_with};
ghost use Rattle.hpr_rename.specs.Replaced.{AreAllowed, IsOneToOne};

/// The law of renaming, of every tree. Under other tags, where these replace its own one to one, whether they are new or
/// not, a program has its graph with these tags, and is a program where the issued numbers allow them. Whatever the
/// renaming is, from each state and with so many steps to spend it does what the program does: its run differs in the
/// tag of a fault alone, and its instances are the same ones with these tags.
pub fn renaming()
    ensures graph { (f : Tag → Tag) (issued : Issued) (t : Tree) → IsOneToOne f t
        → Same (graph_of (tree_with f issued t)) (graph_with f (graph_of t)) }
    ensures program { (f : Tag → Tag) (issued : Issued) (t : Tree) → IsOneToOne f t → AreAllowed f issued t → IsProgram t
        → IsProgram (tree_with f issued t) }
    ensures run { (f : Tag → Tag) (issued : Issued) (t : Tree) (s : Values) (n : ℕ)
        → run (tree_with f issued t) s n ≡ outcome_with f (run t s n) }
    ensures instances { (f : Tag → Tag) (issued : Issued) (t : Tree) (s : Values) (n : ℕ)
        → instances (tree_with f issued t) s n ≡ map (instance_with f) (instances t s n) }
{}

/// The law of split tags. Where there is no conflict, take the merged graph, in which the parts that are split off have
/// their new tags: each program with that graph keeps the meaning of all variants. So it ends, within as many steps as
/// base and they took together, wherever all of them end. Of two variants it keeps the meaning of both. Nothing is said
/// of a merged graph under other new tags, nor of whether some program has the graph. Horwitz, Prins and Reps 1989 have
/// it of two variants and of the merged graph itself, since their programs have no tags.
pub fn split_keeps()
    ensures all { (base m : Tree) (vs : List Tree) (rs : List (Vertex × Tag)) → IsProgram base
        → AllByRecursion IsProgram vs → IsProgram m → HasNoConflict (graph_of base) (graphs_of vs)
        → AreSplitOff base vs rs → Fits (searched_graph_of rs base vs) m → KeepsAll base vs m }
    ensures two { (base a b m : Tree) (rs : List (Vertex × Tag)) → IsProgram base → IsProgram a → IsProgram b
        → IsProgram m → IsWithoutConflict base a b → AreSplitOff base (a ∷ b ∷ []) rs
        → Fits (searched_graph_of rs base (a ∷ b ∷ [])) m → Keeps base a b m }
{}

/// The law of the merged end, over what is searched: the merged graph, in which the parts that are split off have their
/// new tags, if there are serials enough. Each program with that graph ends, where there is no conflict, on every state
/// on which base and all variants end, within as many steps as they have together. Where nothing is split off, it is the
/// law over the merged graph itself (`hpr_meaning::laws::merged_end`).
pub fn merged_end()
    ensures all { (base m : Tree) (vs : List Tree) (parts : List (Vertex × Tag)) → IsProgram base
        → AllByRecursion IsProgram vs → IsProgram m → AreSplitOff base vs parts
        → Fits (searched_graph_of parts base vs) m → HasNoConflict (graph_of base) (graphs_of vs)
        → (s : Values) (n0 : ℕ) (f0 : FinalValues) (rs : List Finished) → programs_of rs ≡ vs → Ends base s n0 f0
        → AllByRecursion (DoesFinish s) rs
        → (f : FinalValues) × Ends m s (n0 + steps_in rs) f }
    ensures two { (base a b m : Tree) (parts : List (Vertex × Tag)) → IsProgram base → IsProgram a → IsProgram b
        → IsProgram m → AreSplitOff base (a ∷ b ∷ []) parts
        → Fits (searched_graph_of parts base (a ∷ b ∷ [])) m → IsWithoutConflict base a b
        → (s : Values) (n0 n1 n2 : ℕ) (f0 f1 f2 : FinalValues) → Ends base s n0 f0 → Ends a s n1 f1 → Ends b s n2 f2
        → (f : FinalValues) × Ends m s (n0 + n1 + n2) f }
{}
