//! Laws of the skeletons of programs: each function's contract is the law, for all values.
ghost use Rattle.std.specs.Prelude.{◌≡◌, ℕ, Bool, true, List, [], Option, Some, Contains};
ghost use Rattle.hpr_terms.specs.declared.tag.Tag.{Tag};
ghost use Rattle.hpr_syntax.specs.Tree.{Tree};
ghost use Rattle.hpr_syntax.specs.Shape.{IsProgram};
ghost use Rattle.hpr_syntax.specs.Skeleton.{Skeleton, Point, at, Distinct, skeleton};
ghost use Rattle.hpr_syntax.specs.Paths.{IsPath, DefinesAt, IsUndisturbed};
ghost use Rattle.hpr_syntax.specs.Places.{EnclosesBoth, StandsLeft, Parted};
ghost use Rattle.hpr_paths.specs.Times.{Place, ComesBefore, IsBefore};
ghost use Rattle.hpr_paths.specs.Runs.{Log, Execution, Ascending};

/// A path between two parts of a program that takes no back edge to a loop around both leads from
/// left to right, and not from one branch of a conditional into the other.
pub fn paths_lead_ahead()
    ensures { (t : Tree) (d u : Tag) (marks : List (Option Tag)) → IsProgram t → IsPath t.body (at d) (at u) marks
        → ((w : Tag) → EnclosesBoth (skeleton t.body) (at d) (at u) w → ¬ Contains marks (Some w))
        → StandsLeft (skeleton t.body) (at d) (at u) × ¬ Parted (skeleton t.body) (at d) (at u) }
{}

/// Where an undisturbed path leads from a definition of a name to a part that stands to the right,
/// and not in another branch, it need not go round: one leads there that takes no back edge to a
/// loop around both.
pub fn direct_ways_exist()
    ensures { (t : Tree) (x : List ℕ) (d u : Tag) (marks : List (Option Tag)) → IsProgram t → DefinesAt t.body x (at d)
        → IsUndisturbed t.body x (at d) (at u) marks → StandsLeft (skeleton t.body) (at d) (at u)
        → ¬ Parted (skeleton t.body) (at d) (at u)
        → (direct : List (Option Tag)) × IsUndisturbed t.body x (at d) (at u) direct
        × ((w : Tag) → EnclosesBoth (skeleton t.body) (at d) (at u) w → ¬ Contains direct (Some w)) }
{}

/// The order of places in time is a strict order.
pub fn time_is_an_order()
    ensures irreflexive { (t : Tree) (i : Place) → IsProgram t → ¬ IsBefore t.body i i }
    ensures transitive { (t : Tree) (i j k : Place) → IsProgram t → IsBefore t.body i j → IsBefore t.body j k
        → IsBefore t.body i k }
{}

/// A run comes to its places in the order of time, whatever its parts give, and whether it goes to
/// the end or stops.
pub fn runs_go_with_time()
    ensures { (sk : Skeleton) (truth : ℕ → Bool) (gives : Tag → Log ℕ → ℕ
        → Bool) (steps : List Place) (over : Bool) (log : Log ℕ) → Distinct sk
        → Execution ℕ truth (λ t before v. gives t before v ≡ true) sk 0 [] [] steps over log
        → Ascending (ComesBefore sk 0) steps }
{}
