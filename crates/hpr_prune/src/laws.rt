//! Laws of slices as programs: each function's contract is the law, for all values.
ghost use Rattle.std.specs.Prelude.{◌≡◌, ◌↔◌, ℕ, Bool, true, List, Option, Some, Contains};
ghost use Rattle.hpr_terms.specs.declared.tag.Tag.{Tag};
ghost use Rattle.hpr_syntax.specs.Skeleton.{Skeleton, Point, Distinct, StandsIn};
ghost use Rattle.hpr_syntax.specs.Places.{StandsLeft, Parted, EnclosesBoth};
ghost use Rattle.hpr_syntax.specs.Paths.{Path};
ghost use Rattle.hpr_syntax.specs.Tree.{Tree};
ghost use Rattle.hpr_syntax.specs.Shape.{IsProgram};
ghost use Rattle.hpr_syntax.specs.Values.{Values};
ghost use Rattle.hpr_syntax.specs.Run.{FinalValues};
ghost use Rattle.hpr_syntax.specs.Meaning.{Ends};
ghost use Rattle.hpr_graph.specs.declared.vertex.Vertex.{Vertex};
ghost use Rattle.hpr_graph.specs.Graphs.{Same};
ghost use Rattle.hpr_graph.specs.Numbered.{Numbered, graph_in};
ghost use Rattle.hpr_graph.specs.ProgramGraph.{graph_of};
ghost use Rattle.hpr_prune.specs.Pruned.{Pruned, IsKept, Pairs};
ghost use Rattle.hpr_prune.specs.Programs.{IsPruned, without_idle};
ghost use Rattle.hpr_prune.specs.KeptLaw.{IsSliceOf, IsKeptBy};

/// Slices as programs (Reps and Yang 1988). What a set of vertices leaves of a program is a program. Where
/// these are the vertices of a slice, its graph is the slice, without each Init vertex that nothing in the
/// slice uses. Where the whole program ends, so does what is left, within as many steps; its final values are
/// the whole program's; and its steps are the steps of its parts there, with the same turns, value and reads.
pub fn slices_as_programs()
    ensures program { (p q : Tree) (vertices : List Vertex) → IsProgram p → IsPruned (Contains vertices) p q
        → IsProgram q }
    ensures graph { (p q : Tree) (slice : Numbered) → IsProgram p → IsSliceOf p (graph_in slice)
        → IsPruned (graph_in slice).vertex p q → Same (graph_of q) (without_idle (graph_in slice)) }
    ensures kept { (p q : Tree) (slice : Numbered) (s : Values) (n : ℕ) (f : FinalValues) → IsProgram p
        → IsSliceOf p (graph_in slice) → IsPruned (graph_in slice).vertex p q → Ends p s n f → IsKeptBy p q s n f }
{}

/// What is left stands as it stood: which parts there are, which of two is to the left, whether a
/// conditional has them in different branches, and which loops are around both.
pub fn parts_stand()
    ensures stands { (keeps : Tag → Bool) (sk rest : Skeleton) (p : Point) → Pruned (λ t. keeps t ≡ true) sk rest
        → StandsIn rest p ↔ (StandsIn sk p × IsKept (λ t. keeps t ≡ true) p) }
    ensures distinct { (keeps : Tag → Bool) (sk rest : Skeleton) → Pruned (λ t. keeps t ≡ true) sk rest
        → Distinct sk → Distinct rest }
    ensures left { (keeps : Tag → Bool) (sk rest : Skeleton) (d u : Point) → Pruned (λ t. keeps t ≡ true) sk rest
        → IsKept (λ t. keeps t ≡ true) d → IsKept (λ t. keeps t ≡ true) u → StandsLeft rest d u ↔ StandsLeft sk d u }
    ensures parted { (keeps : Tag → Bool) (sk rest : Skeleton) (d u : Point) → Pruned (λ t. keeps t ≡ true) sk rest
        → IsKept (λ t. keeps t ≡ true) d → IsKept (λ t. keeps t ≡ true) u → Parted rest d u ↔ Parted sk d u }
    ensures enclosed { (keeps : Tag → Bool) (sk rest : Skeleton) (d u : Point) (w : Tag)
        → Pruned (λ t. keeps t ≡ true) sk rest → IsKept (λ t. keeps t ≡ true) d → IsKept (λ t. keeps t ≡ true) u
        → EnclosesBoth rest d u w ↔ EnclosesBoth sk d u w }
{}

/// Each path between two points that are left is a path of what is left, by leaving out the points
/// that are taken out: with the same back edges to the loops that are kept, and no point between that
/// was none before.
pub fn paths_stay()
    ensures { (keeps : Tag → Bool) (sk rest : Skeleton) (stops : Point → Bool) (a z : Point) (marks : List (Option Tag))
        → Distinct sk → Pruned (λ t. keeps t ≡ true) sk rest
        → IsKept (λ t. keeps t ≡ true) a → IsKept (λ t. keeps t ≡ true) z
        → Path (Pairs sk) (λ p. stops p ≡ true) a z marks
        → (left : List (Option Tag)) × Path (Pairs rest) (λ p. stops p ≡ true) a z left
        × ((w : Tag) → keeps w ≡ true → Contains marks (Some w) ↔ Contains left (Some w)) }
{}

/// Each path of what is left leads through the whole program with the same back edges, and nothing
/// stops it there, where no part that stops and is taken out has such a path to its end.
pub fn paths_come_back()
    ensures { (keeps : Tag → Bool) (sk rest : Skeleton) (stops : Point → Bool) (a z : Point) (left : List (Option Tag))
        → Pruned (λ t. keeps t ≡ true) sk rest → Path (Pairs rest) (λ p. stops p ≡ true) a z left
        → ((d : Point) (marks : List (Option Tag)) → stops d ≡ true
        → Path (Pairs sk) (λ p. stops p ≡ true) d z marks → IsKept (λ t. keeps t ≡ true) d)
        → (marks : List (Option Tag)) × Path (Pairs sk) (λ p. stops p ≡ true) a z marks
        × ((w : Tag) → Contains marks (Some w) ↔ Contains left (Some w)) }
{}
