//! The laws of meaning, whatever the contents mean: each function's contract is the law, for all values and
//! faults, which are two types, and for all meanings over them.
ghost use Rattle.std.specs.Prelude.{◌≡◌, ◌↔◌, ℕ, ◌+◌, Bool, List, [], ◌∷◌, map, Contains, Option, Some, Result};
ghost use Rattle.std.specs.List.{AllByRecursion};
ghost use Rattle.hpr_terms.specs.declared.tag.Tag.{Tag};
ghost use Rattle.hpr_syntax.specs.Issued.{Issued};
ghost use Rattle.hpr_syntax.specs.Tree.{Tree};
ghost use Rattle.hpr_syntax.specs.Shape.{IsProgram};
ghost use Rattle.hpr_syntax.specs.Contents.{used_names};
ghost use Rattle.hpr_syntax.specs.Rows.{assigned};
ghost use Rattle.hpr_syntax.specs.Run as own_run;
ghost use Rattle.hpr_syntax.specs.Values.{Values};
ghost use Rattle.hpr_graph.specs.declared.edge.Edge.{Edge};
ghost use Rattle.hpr_graph.specs.declared.vertex.Vertex.{Vertex};
ghost use Rattle.hpr_graph.specs.Answer.{Answer, AnswerBy, printed, IsAnswer, IsAnswerBy, AreSplitOff, Fits, IsWithoutConflict, graphs_of, merged_of, merged_of_all, searched_graph_of};
ghost use Rattle.hpr_graph.specs.Conflicts.{HasNoConflict};
ghost use Rattle.hpr_graph.specs.Graphs.{Same};
ghost use Rattle.hpr_graph.specs.Numbered.{Numbered, graph_in};
ghost use Rattle.hpr_graph.specs.ProgramGraph.{graph_of};
ghost use Rattle.hpr_graph.specs.Slices.{slice_of};
ghost use Rattle.hpr_prune.specs.KeptLaw.{IsSliceOf};
ghost use Rattle.hpr_prune.specs.Programs.{IsPruned};
ghost use Rattle.hpr_meaning.specs.CoverLaw.{Version, IsCovered, steps_of};
ghost use Rattle.hpr_meaning.specs.KeptLaw as own;
ghost use Rattle.hpr_meaning.specs.UnionLaw.{KeepsEach};
ghost use Rattle.hpr_meaning.specs.Any.Meaning.{HasLaws};
ghost use Rattle.hpr_meaning.specs.Any.Run.{run};
ghost use Rattle.hpr_meaning.specs.Any.Instances.{instances};
ghost use Rattle.hpr_meaning.specs.Any.Kept.{Ends, Keeps};
ghost use Rattle.hpr_meaning.specs.Any.KeptLaw.{Finished, DoesFinish, KeepsAll, programs_of, steps_in};
ghost use Rattle.hpr_meaning.specs.Any.CoverLaw.{DoesEnd};
ghost use Rattle.hpr_meaning.specs.Any.TimeLaw.{IsTimely};
ghost use Rattle.hpr_meaning.specs.Any.OrderLaw.{IsOrdered};
ghost use Rattle.hpr_meaning.specs.Any.SliceLaw.{SharesSlice};
ghost use Rattle.hpr_prune.specs.Any.KeptLaw.{IsKeptBy};
ghost use Rattle.hpr_rename.specs.Renamed.{tree_with};
ghost use Rattle.hpr_rename.specs.Any.RenamedRuns.{instance_with, outcome_with};
ghost use Rattle.hpr_any.specs.MeaningOf.{MeaningOf, by_reads};
ghost use Rattle.hpr_any.specs.Opaque.{Statement, defined_by, opaque, statement_content};
ghost use Rattle.hpr_meaning.specs.Any.Standard.{own_outcome, standard};

/// Each meaning that is given by the values of the used names has the laws of a meaning: what a part gives depends
/// on the names that it uses alone, and a state has what was put last.
pub fn lawful<V, F>()
    ensures { (m : MeaningOf V F) → HasLaws (by_reads m) }
{}

/// The laws of time, of order by edges, of shared slices, of the covered end and of slices as programs.
pub fn runs<V, F>()
    ensures time { (m : MeaningOf V F) (p : Tree) (s : List ℕ → V) (n : ℕ) → IsProgram p → IsTimely (by_reads m) p s n }
    ensures order { (m : MeaningOf V F) (p : Tree) (s : List ℕ → V) (n : ℕ) → IsProgram p → IsOrdered (by_reads m) p s n }
    ensures slices { (m : MeaningOf V F) (p q : Tree) (points : List Vertex) (s : List ℕ → V) (n k : ℕ) (finals : List (List ℕ × V))
        → IsProgram p → IsProgram q → Same (slice_of (graph_of p) (Contains points)) (slice_of (graph_of q) (Contains points))
        → Ends (by_reads m) p s n finals → SharesSlice (by_reads m) p q (Contains points) s n k }
    ensures covered { (m : MeaningOf V F) (p : Tree) (versions : List Version) (s : List ℕ → V) → IsProgram p
        → ((i : Version) → Contains versions i → DoesEnd (by_reads m) s i) → IsCovered versions p
        → (f : List (List ℕ × V)) × Ends (by_reads m) p s (steps_of versions) f }
    ensures left { (m : MeaningOf V F) (p q : Tree) (slice : Numbered) (s : List ℕ → V) (n : ℕ) (f : List (List ℕ × V)) → IsProgram p
        → IsSliceOf p (graph_in slice) → IsPruned (graph_in slice).vertex p q → Ends (by_reads m) p s n f
        → IsKeptBy (by_reads m) p q s n f }
{}

/// The law of renaming: whatever a tree's tags are replaced by, from each state and with so many steps to spend it does
/// what the tree does. Its run differs in the tag of a fault alone, and its instances are the same ones with these tags.
/// What `hpr_rename::laws::renaming` says of its graph needs no meaning.
pub fn renaming<V, F>()
    ensures run { (m : MeaningOf V F) (f : Tag → Tag) (issued : Issued) (t : Tree) (s : List ℕ → V) (n : ℕ)
        → run (by_reads m) (tree_with f issued t) s n ≡ outcome_with (by_reads m) f (run (by_reads m) t s n) }
    ensures instances { (m : MeaningOf V F) (f : Tag → Tag) (issued : Issued) (t : Tree) (s : List ℕ → V) (n : ℕ)
        → instances (by_reads m) (tree_with f issued t) s n ≡ map (instance_with (by_reads m) f) (instances (by_reads m) t s n) }
{}

/// The law of the merged end: where there is no conflict, a program with the merged graph ends on every state on which
/// base and all variants end, within as many steps as they have together; and so does a program with what is searched.
pub fn merged_end<V, F>()
    ensures all { (m : MeaningOf V F) (base p : Tree) (vs : List Tree) → IsProgram base → AllByRecursion IsProgram vs
        → IsProgram p → Fits (merged_of_all base vs) p → HasNoConflict (graph_of base) (graphs_of vs)
        → (s : List ℕ → V) (n0 : ℕ) (f0 : List (List ℕ × V)) (rs : List (Finished (by_reads m)))
        → programs_of (by_reads m) rs ≡ vs → Ends (by_reads m) base s n0 f0 → AllByRecursion (DoesFinish (by_reads m) s) rs
        → (f : List (List ℕ × V)) × Ends (by_reads m) p s (n0 + steps_in (by_reads m) rs) f }
    ensures split { (m : MeaningOf V F) (base p : Tree) (vs : List Tree) (parts : List (Vertex × Tag)) → IsProgram base
        → AllByRecursion IsProgram vs → IsProgram p → AreSplitOff base vs parts
        → Fits (searched_graph_of parts base vs) p → HasNoConflict (graph_of base) (graphs_of vs)
        → (s : List ℕ → V) (n0 : ℕ) (f0 : List (List ℕ × V)) (rs : List (Finished (by_reads m)))
        → programs_of (by_reads m) rs ≡ vs → Ends (by_reads m) base s n0 f0 → AllByRecursion (DoesFinish (by_reads m) s) rs
        → (f : List (List ℕ × V)) × Ends (by_reads m) p s (n0 + steps_in (by_reads m) rs) f }
{}

/// A program with the merged graph, where each affected point keeps its variant's slice, keeps the meaning of all
/// variants; so it does where there is no conflict, and so does a program with what is searched.
pub fn merged_keeps<V, F>()
    ensures kept { (m : MeaningOf V F) (base p : Tree) (vs : List Tree) → IsProgram base → AllByRecursion IsProgram vs
        → IsProgram p → Fits (merged_of_all base vs) p → KeepsEach base vs → KeepsAll (by_reads m) base vs p }
    ensures all { (m : MeaningOf V F) (base p : Tree) (vs : List Tree) → IsProgram base → AllByRecursion IsProgram vs
        → IsProgram p → HasNoConflict (graph_of base) (graphs_of vs) → Fits (merged_of_all base vs) p
        → KeepsAll (by_reads m) base vs p }
    ensures split { (m : MeaningOf V F) (base p : Tree) (vs : List Tree) (rs : List (Vertex × Tag)) → IsProgram base
        → AllByRecursion IsProgram vs → IsProgram p → HasNoConflict (graph_of base) (graphs_of vs)
        → AreSplitOff base vs rs → Fits (searched_graph_of rs base vs) p → KeepsAll (by_reads m) base vs p }
    ensures as_two { (m : MeaningOf V F) (base a b p : Tree) → KeepsAll (by_reads m) base (a ∷ b ∷ []) p
        → Keeps (by_reads m) base a b p }
{}

/// The integration theorem, whatever the contents mean: what is printed keeps the meaning of all variants.
pub fn printed_keeps<V, F>()
    ensures all { (m : MeaningOf V F) (base : Tree) (vs : List Tree) (tries : ℕ) (p : Tree)
        → IsProgram base → AllByRecursion IsProgram vs
        → IsAnswerBy {X = ℕ × Vertex × Edge} (λ t. t) base vs tries (printed p) → KeepsAll (by_reads m) base vs p }
    ensures two { (m : MeaningOf V F) (base a b : Tree) (tries : ℕ) (p : Tree) → IsProgram base → IsProgram a → IsProgram b
        → IsAnswer base a b tries (printed p) → Keeps (by_reads m) base a b p }
{}

/// hpr's own meaning is one: it has the laws, a run by it is hpr's run, and what keeps the meaning by it keeps the
/// meaning, in the words of hpr_meaning. So the integration theorem of hpr's own programs is one of these.
pub fn own_meaning()
    ensures laws { HasLaws standard }
    ensures runs { (p : Tree) (s : Values) (n : ℕ) → own_outcome (run standard p s n) ≡ own_run.run p s n }
    ensures keeps { (base p : Tree) (vs : List Tree) → KeepsAll standard base vs p → own.KeepsAll base vs p }
    ensures theorem { (base p : Tree) (vs : List Tree) (rs : List (Vertex × Tag)) → IsProgram base
        → AllByRecursion IsProgram vs → IsProgram p → HasNoConflict (graph_of base) (graphs_of vs)
        → AreSplitOff base vs rs → Fits (searched_graph_of rs base vs) p → KeepsAll standard base vs p }
{}

/// Statements of another language, as a tool hands them over: each is one content, and no two are the same. Its part
/// uses the names of its text in their order, defines the name that it defines, and gives what the tool's meaning
/// gives for the number of its text.
pub fn statements<V, F>()
    ensures apart { (s t : Statement) → (statement_content s ≡ statement_content t) ↔ (s ≡ t) }
    ensures uses { (s : Statement) → used_names (statement_content s) ≡ s.uses }
    ensures defines { (s : Statement) → assigned (statement_content s) ≡ defined_by s.form }
    ensures gives { (gives : Option ℕ → List V → Result V F) (holds : V → Bool)
        (stable : (v w : V) → ¬ (¬ (v ≡ w)) → v ≡ w) (s : Statement) (values : List V)
        → (opaque gives holds stable).gives (statement_content s) values ≡ gives (Some s.number) values }
{}
