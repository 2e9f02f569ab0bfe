//! Laws of integrations: each function's contract is the law, for all values.
ghost use Rattle.std.specs.Prelude.{◌≡◌, ◌≢◌, ◌≤◌, ℕ, List, [], ◌∷◌, Contains, length, take};
ghost use Rattle.std.specs.List.{AllByRecursion};
ghost use Rattle.hpr_terms.specs.declared.tag.Tag.{Tag};
ghost use Rattle.hpr_syntax.specs.Issued.{issued_to};
ghost use Rattle.hpr_syntax.specs.Tree.{Tree};
ghost use Rattle.hpr_syntax.specs.Meaning.{Keeps};
ghost use Rattle.hpr_syntax.specs.Shape.{IsProgram};
ghost use Rattle.hpr_graph.specs.declared.conflict.Conflict.{Conflict};
ghost use Rattle.hpr_graph.specs.declared.edge.Edge.{Edge};
ghost use Rattle.hpr_graph.specs.declared.vertex.Vertex.{Vertex};
ghost use Rattle.hpr_graph.specs.Answer.{Answer, AnswerBy, printed, spent, graphs_of, issued_of, issued_of_all};
ghost use Rattle.hpr_graph.specs.Answer.{merged_of, merged_of_all, searched_graph_of, AreSplitOff, AreWithoutConflict};
ghost use Rattle.hpr_graph.specs.Answer.{IsAnswer, IsAnswerBy, Fits, IsFirstFit, IsWithoutConflict};
ghost use Rattle.hpr_graph.specs.Conflicts.{AreConflicts, AreConflictsBy, HasNoConflict};
ghost use Rattle.hpr_graph.specs.ProgramGraph.{graph_of};
ghost use Rattle.hpr_graph.specs.Split.{AreRenamed, HasOneContent, IsSplitOff};
ghost use Rattle.hpr_graph.specs.Whole.{SaysOnce};
ghost use Rattle.hpr_rebuild.specs.Settled.{IsSettled};
ghost use Rattle.hpr_engine.specs.Budget.{Agree, AreTried, AreTriedOf};
ghost use Rattle.hpr_engine.specs.OneSide.{IsOnlyChange};
ghost use Rattle.hpr_meaning.specs.KeptLaw.{KeepsAll};
ghost use Rattle.hpr_meaning.specs.UnionLaw.{KeepsEach, KeepsSides};

/// In a program each tag says one content.
pub fn tags_say_once()
    ensures { (t : Tree) → IsProgram t → SaysOnce t }
{}

/// A base and any number of variants have one list of conflicts, each told by the variant's number, the
/// point and the edge; so have three programs.
pub fn conflicts_are_one()
    ensures all { (base : Tree) (vs : List Tree) (cs ds : List (ℕ × Vertex × Edge))
        → AreConflictsBy (λ t. t) (graph_of base) (graphs_of vs) cs
        → AreConflictsBy (λ t. t) (graph_of base) (graphs_of vs) ds → cs ≡ ds }
    ensures two { (base a b : Tree) (cs ds : List Conflict) → AreConflicts (graph_of base) (graph_of a) (graph_of b) cs
        → AreConflicts (graph_of base) (graph_of a) (graph_of b) ds → cs ≡ ds }
{}

/// A change that is the only one interferes with nothing: where each of any number of variants is the base
/// or one program, each affected point keeps its slice. So does each of one of two variants where the other
/// is the base.
pub fn one_side_is_free()
    ensures all { (base v : Tree) (vs : List Tree) → IsProgram base → IsProgram v → IsOnlyChange base vs v
        → KeepsEach base vs }
    ensures a { (base b : Tree) → IsProgram base → IsProgram b → KeepsSides base base b }
    ensures b { (base a : Tree) → IsProgram base → IsProgram a → KeepsSides base a base }
{}

/// Where each of any number of variants is the base or one program, the answer is that program, whatever
/// the budget is: its finals in ascending order, and each author's issued number the greatest of all. So
/// where one of two variants is the base, it is the other variant.
pub fn one_side_unchanged()
    ensures all { (base v : Tree) (vs : List Tree) (tries : ℕ) (r : AnswerBy (ℕ × Vertex × Edge))
        → IsProgram base → IsProgram v → IsOnlyChange base vs v → 1 ≤ tries
        → IsAnswerBy (λ t. t) base vs tries r
        → (m : Tree) × (r ≡ printed m) × IsSettled (issued_of_all base vs) v m }
    ensures b { (base a : Tree) (tries : ℕ) (r : Answer) → IsProgram base → IsProgram a → 1 ≤ tries
        → IsAnswer base a base tries r
        → (m : Tree) × (r ≡ printed m) × IsSettled (issued_of base a base) a m }
    ensures a { (base b : Tree) (tries : ℕ) (r : Answer) → IsProgram base → IsProgram b → 1 ≤ tries
        → IsAnswer base base b tries r
        → (m : Tree) × (r ≡ printed m) × IsSettled (issued_of base base b) b m }
{}

/// Which parts of the merged graph are split off. They are one list, each with its new tag, and that there is
/// such a list can't be refuted: it is a relation, and the logic is constructive, so it is said in this form.
/// Where two contents have one tag, the part of the first variant that has one of them keeps it: so what is
/// split off is no part of the first variant, but of a later one; of two, it is B's and not A's. In what is
/// searched then no tag has two contents, if there are serials enough. Nothing is split off where no tag has
/// two contents, as where one change is the only one. Horwitz, Prins and Reps 1989 have no tags.
pub fn split_off()
    ensures one { (base : Tree) (vs : List Tree) (rs ss : List (Vertex × Tag))
        → AreSplitOff base vs rs → AreSplitOff base vs ss → rs ≡ ss }
    ensures some { (base : Tree) (vs : List Tree) → ¬ (¬ ((rs : List (Vertex × Tag)) × AreSplitOff base vs rs)) }
    ensures later { (base a : Tree) (vs : List Tree) (v : Vertex)
        → IsSplitOff (graphs_of (a ∷ vs)) (merged_of_all base (a ∷ vs)) v
        → ((p : Tree) × Contains vs p × (graph_of p).vertex v) × ¬ (graph_of a).vertex v }
    ensures b { (base a b : Tree) (v : Vertex) → IsSplitOff (graph_of a ∷ graph_of b ∷ []) (merged_of base a b) v
        → (graph_of b).vertex v × ¬ (graph_of a).vertex v }
    ensures one_content { (base : Tree) (vs : List Tree) (rs : List (Vertex × Tag)) → IsProgram base
        → AllByRecursion IsProgram vs
        → AreRenamed (merged_of_all base vs) (IsSplitOff (graphs_of vs) (merged_of_all base vs))
        (issued_to 0 (issued_of_all base vs)) rs
        → HasOneContent (searched_graph_of rs base vs).vertex }
    ensures alike { (base : Tree) (vs : List Tree) (rs : List (Vertex × Tag)) → AreSplitOff base vs rs
        → HasOneContent (merged_of_all base vs).vertex → rs ≡ [] }
    ensures none { (base v : Tree) (vs : List Tree) (rs : List (Vertex × Tag)) → IsProgram base → IsProgram v
        → IsOnlyChange base vs v → AreSplitOff base vs rs → rs ≡ [] }
{}

/// A base and any number of variants have one answer, and so have three programs, but that a search may go
/// on past its budget or not. Where one of the first arrangements that the budget allows fits, the first
/// such one is the answer; and where there are no more arrangements than tries, the budget is not spent.
pub fn one_answer()
    ensures all_agree { (base : Tree) (vs : List Tree) (tries : ℕ) (r s : AnswerBy (ℕ × Vertex × Edge))
        → IsProgram base → AllByRecursion IsProgram vs
        → IsAnswerBy (λ t. t) base vs tries r → IsAnswerBy (λ t. t) base vs tries s → Agree r s }
    ensures all_first { (base : Tree) (vs : List Tree) (rs : List (Vertex × Tag)) (tries : ℕ) (ps : List Tree)
        → (m : Tree) (r : AnswerBy (ℕ × Vertex × Edge)) → IsProgram base → AllByRecursion IsProgram vs
        → AreWithoutConflict {X = ℕ × Vertex × Edge} (λ t. t) base vs
        → AreSplitOff base vs rs → AreTriedOf rs base vs ps
        → IsFirstFit (searched_graph_of rs base vs) (take tries ps) m
        → IsAnswerBy (λ t. t) base vs tries r → r ≡ printed m }
    ensures all_enough { (base : Tree) (vs : List Tree) (rs : List (Vertex × Tag)) (tries : ℕ) (ps : List Tree)
        → (r : AnswerBy (ℕ × Vertex × Edge)) → IsProgram base → AllByRecursion IsProgram vs
        → AreWithoutConflict {X = ℕ × Vertex × Edge} (λ t. t) base vs
        → AreSplitOff base vs rs → AreTriedOf rs base vs ps
        → length ps ≤ tries → IsAnswerBy (λ t. t) base vs tries r → r ≢ spent }
    ensures agree { (base a b : Tree) (tries : ℕ) (r s : Answer) → IsProgram base → IsProgram a → IsProgram b
        → IsAnswer base a b tries r → IsAnswer base a b tries s → Agree r s }
    ensures first { (base a b : Tree) (rs : List (Vertex × Tag)) (tries : ℕ) (ps : List Tree) (m : Tree) (r : Answer)
        → IsProgram base → IsProgram a → IsProgram b → IsWithoutConflict base a b
        → AreSplitOff base (a ∷ b ∷ []) rs → AreTried rs base a b ps
        → IsFirstFit (searched_graph_of rs base (a ∷ b ∷ [])) (take tries ps) m
        → IsAnswer base a b tries r → r ≡ printed m }
    ensures enough { (base a b : Tree) (rs : List (Vertex × Tag)) (tries : ℕ) (ps : List Tree) (r : Answer)
        → IsProgram base → IsProgram a → IsProgram b → IsWithoutConflict base a b
        → AreSplitOff base (a ∷ b ∷ []) rs → AreTried rs base a b ps
        → length ps ≤ tries → IsAnswer base a b tries r → r ≢ spent }
{}

/// Where there is no conflict, each program with the merged graph keeps the meaning of all variants,
/// whoever made it (Horwitz, Prins and Reps 1989; Reps and Yang 1988). So does each program whose graph is
/// what is searched, the merged graph with the parts that are split off under their new tags; they have no
/// tags.
pub fn merged_keeps()
    ensures all { (base m : Tree) (vs : List Tree) → IsProgram base → AllByRecursion IsProgram vs → IsProgram m
        → HasNoConflict (graph_of base) (graphs_of vs) → Fits (merged_of_all base vs) m → KeepsAll base vs m }
    ensures two { (base a b m : Tree) → IsProgram base → IsProgram a → IsProgram b → IsProgram m
        → IsWithoutConflict base a b → Fits (merged_of base a b) m
        → Keeps base a b m }
    ensures split { (base m : Tree) (vs : List Tree) (rs : List (Vertex × Tag)) → IsProgram base
        → AllByRecursion IsProgram vs → IsProgram m → HasNoConflict (graph_of base) (graphs_of vs)
        → AreSplitOff base vs rs → Fits (searched_graph_of rs base vs) m → KeepsAll base vs m }
    ensures split_two { (base a b m : Tree) (rs : List (Vertex × Tag)) → IsProgram base → IsProgram a
        → IsProgram b → IsProgram m → IsWithoutConflict base a b → AreSplitOff base (a ∷ b ∷ []) rs
        → Fits (searched_graph_of rs base (a ∷ b ∷ [])) m → Keeps base a b m }
{}

/// What is printed is a program, and its graph is the merged graph with split tags: the parts that are split
/// off are under their new tags.
pub fn printed_is_merged()
    ensures all { (base : Tree) (vs : List Tree) (tries : ℕ) (m : Tree)
        → IsAnswerBy {X = ℕ × Vertex × Edge} (λ t. t) base vs tries (printed m)
        → IsProgram m × ((rs : List (Vertex × Tag)) × AreSplitOff base vs rs × Fits (searched_graph_of rs base vs) m) }
    ensures two { (base a b : Tree) (tries : ℕ) (m : Tree) → IsAnswer base a b tries (printed m)
        → IsProgram m × ((rs : List (Vertex × Tag)) × AreSplitOff base (a ∷ b ∷ []) rs
        × Fits (searched_graph_of rs base (a ∷ b ∷ [])) m) }
{}

/// The integration theorem, over programs (Horwitz, Prins and Reps 1989; Reps and Yang 1988, of two
/// variants): what is printed keeps the meaning of all variants. From each state on which base and all of
/// them end, it ends within as many steps as they took together, with the variant's value for each final
/// variable that a variant changed, and the common value where all agree.
pub fn printed_keeps()
    ensures all { (base : Tree) (vs : List Tree) (tries : ℕ) (m : Tree)
        → IsProgram base → AllByRecursion IsProgram vs
        → IsAnswerBy {X = ℕ × Vertex × Edge} (λ t. t) base vs tries (printed m) → KeepsAll base vs m }
    ensures two { (base a b : Tree) (tries : ℕ) (m : Tree) → IsProgram base → IsProgram a → IsProgram b
        → IsAnswer base a b tries (printed m) → Keeps base a b m }
{}
