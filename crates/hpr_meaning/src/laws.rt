//! The laws of meaning: each function's contract is the law, for all values.
ghost use Rattle.std.specs.Prelude.{◌≡◌, ℕ, ◌+◌, List, [], ◌∷◌, Contains, reverse};
ghost use Rattle.std.specs.List.{AllByRecursion};
ghost use Rattle.hpr_syntax.specs.Tree.{Tree};
ghost use Rattle.hpr_syntax.specs.Shape.{IsProgram};
ghost use Rattle.hpr_syntax.specs.Values.{Values};
ghost use Rattle.hpr_syntax.specs.Run.{FinalValues, run_body};
ghost use Rattle.hpr_syntax.specs.Meaning.{Ends, Keeps};
ghost use Rattle.hpr_graph.specs.declared.vertex.Vertex.{Vertex};
ghost use Rattle.hpr_graph.specs.Graphs.{Same};
ghost use Rattle.hpr_graph.specs.Slices.{slice_of};
ghost use Rattle.hpr_graph.specs.ProgramGraph.{graph_of};
ghost use Rattle.hpr_graph.specs.Answer.{Fits, IsWithoutConflict, graphs_of, merged_of, merged_of_all};
ghost use Rattle.hpr_graph.specs.Conflicts.{HasNoConflict};
ghost use Rattle.hpr_meaning.specs.Instances.{Instance, after_of, course_of, definer};
ghost use Rattle.hpr_meaning.specs.Items.{origin_in, IsOriginOf};
ghost use Rattle.hpr_meaning.specs.TimeLaw.{IsTimely};
ghost use Rattle.hpr_meaning.specs.OrderLaw.{IsOrdered};
ghost use Rattle.hpr_meaning.specs.SliceLaw.{SharesSlice};
ghost use Rattle.hpr_meaning.specs.KeptLaw.{Finished, DoesFinish, KeepsAll, programs_of, steps_in};
ghost use Rattle.hpr_meaning.specs.UnionLaw.{KeepsEach, KeepsSides, IsUnionKept};
ghost use Rattle.hpr_meaning.specs.CoverLaw.{Version, IsCovered, DoesEnd, steps_of};

/// A trace is the run: it ends where the run ends, in the same state and with as many steps left; and
/// else it stops at the part where the run stops, for the same reason.
pub fn trace_is_run()
    ensures { (p : Tree) (s : Values) (n : ℕ) → after_of s (course_of p s n) ≡ run_body p.body s n }
{}

/// The number in an item's read is that of the instance that last defined the name, with its place and
/// its content; and there is none exactly where no instance before defined it.
pub fn origins_are_definers()
    ensures { (log : List Instance) (x : List ℕ) → IsOriginOf (reverse log) (origin_in x log) (definer x log) }
{}

/// The law of time: the steps of a run come in the order of time, none twice; each is due; each place
/// that is due before one of them is among them; where the run ends, each place that is due; and where
/// it stops, the place where it stops is the next one that is due.
pub fn time()
    ensures { (p : Tree) (s : Values) (n : ℕ) → IsProgram p → IsTimely p s n }
{}

/// The law of order by edges. Where a flow edge goes from the part of one step to the part of another,
/// their turns on the loops that enclose both tell which is first; where these are the same, the first
/// is before the second exactly where an independent edge goes between them. Of two steps whose parts
/// have a flow edge for one variable to one use, with the same turns, the first is before the second
/// exactly where an order edge for that use goes from the one part to the other.
pub fn order_by_edges()
    ensures { (p : Tree) (s : Values) (n : ℕ) → IsProgram p → IsOrdered p s n }
{}

/// The law of shared slices. Where two programs have one slice by some vertices, and the first ends,
/// each instance of a part of this slice in the second's run stands in the first's, with the same turns,
/// number and reads, however many steps the second has to spend. The second faults at no part of the
/// slice. Where it ends too, both have the same instances of the slice, and the same final value for each
/// name whose Final vertex is in it.
pub fn shared_slices()
    ensures { (p q : Tree) (points : List Vertex) (s : Values) (n m : ℕ) (finals : FinalValues) → IsProgram p
        → IsProgram q
        → Same (slice_of (graph_of p) (Contains points)) (slice_of (graph_of q) (Contains points)) → Ends p s n finals
        → SharesSlice p q (Contains points) s n m }
{}

/// The law of the union: each preserved point has in the merged graph of a base and its variants the slice
/// that it has in base's graph. Where each variant's affected points keep its slices, so do they together;
/// and so they do where there is no conflict. Each vertex of the merged graph lies in one of the slices that
/// it is made of.
pub fn union_kept()
    ensures { (base : Tree) (vs : List Tree) → IsProgram base → AllByRecursion IsProgram vs → IsUnionKept base vs }
{}

/// The law of the covered end. A program each of whose parts lies in a slice that it has from one of some
/// programs ends on every state on which they end, within as many steps as they have together.
pub fn covered_end()
    ensures { (m : Tree) (versions : List Version) (s : Values) → IsProgram m
        → ((i : Version) → Contains versions i → DoesEnd s i) → IsCovered versions m
        → (f : FinalValues) × Ends m s (steps_of versions) f }
{}

/// The law of the merged end. A program whose graph is the merged graph of a base and its variants, where
/// there is no conflict, ends on every state on which they all end, within as many steps as they have
/// together.
pub fn merged_end()
    ensures all { (base m : Tree) (vs : List Tree) → IsProgram base → AllByRecursion IsProgram vs → IsProgram m
        → Fits (merged_of_all base vs) m → HasNoConflict (graph_of base) (graphs_of vs)
        → (s : Values) (n0 : ℕ) (f0 : FinalValues) (rs : List Finished) → programs_of rs ≡ vs → Ends base s n0 f0
        → AllByRecursion (DoesFinish s) rs
        → (f : FinalValues) × Ends m s (n0 + steps_in rs) f }
    ensures two { (base a b m : Tree) → IsProgram base → IsProgram a → IsProgram b → IsProgram m
        → Fits (merged_of base a b) m → IsWithoutConflict base a b
        → (s : Values) (n0 n1 n2 : ℕ) (f0 f1 f2 : FinalValues) → Ends base s n0 f0 → Ends a s n1 f1 → Ends b s n2 f2
        → (f : FinalValues) × Ends m s (n0 + n1 + n2) f }
{}

/// Kept meaning (Reps and Yang 1988; Horwitz, Prins and Reps 1989). A program whose graph is the merged
/// graph, where each affected point keeps its variant's slice, keeps the meaning of all variants: where base
/// and all variants end, it ends with the variant's value for each final variable that a variant changed, and
/// with the common value where all agree. Of two variants it keeps the meaning of both, in the words of two.
pub fn kept_meaning()
    ensures all { (base m : Tree) (vs : List Tree) → IsProgram base → AllByRecursion IsProgram vs → IsProgram m
        → Fits (merged_of_all base vs) m → KeepsEach base vs → KeepsAll base vs m }
    ensures two { (base a b m : Tree) → IsProgram base → IsProgram a → IsProgram b → IsProgram m
        → Fits (merged_of base a b) m → KeepsSides base a b → Keeps base a b m }
    ensures as_two { (base a b m : Tree) → KeepsAll base (a ∷ b ∷ []) m → Keeps base a b m }
{}
