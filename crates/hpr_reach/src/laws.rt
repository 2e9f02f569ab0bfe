//! Laws of undisturbed reach, by tags and through the back edges of loops: each function's contract
//! is the law, for all values.
ghost use Rattle.std.specs.Prelude.{◌≡◌, ◌↔◌, ℕ, List, Option, Some, Contains, take};
ghost use Rattle.hpr_terms.specs.declared.tag.Tag.{Tag};
ghost use Rattle.hpr_syntax.specs.Tree.{Tree};
ghost use Rattle.hpr_syntax.specs.Skeleton.{Point, at};
ghost use Rattle.hpr_syntax.specs.Paths.{IsUndisturbed};
ghost use Rattle.hpr_syntax.specs.Initial.{IsInitial};
ghost use Rattle.hpr_syntax.specs.Shape.{IsProgram};
ghost use Rattle.hpr_paths.specs.declared.spot.Step.{Step};
ghost use Rattle.hpr_paths.specs.Spots.{Spot, nest_at, IsLoopAt};
ghost use Rattle.hpr_paths.specs.Successors.{spots, AreSpots};
ghost use Rattle.hpr_paths.specs.Numbers.{IsNumberOf, NumberUndisturbed};
ghost use Rattle.hpr_reach.specs.Reaches.{back_to, Reaches};
ghost use Rattle.hpr_reach.specs.Live.{IsLive};
ghost use Rattle.hpr_reach.specs.Flows.{ComesRound, GoesOn, PartsAt, AvoidsCommon};
ghost use Rattle.hpr_reach.specs.ByTags.{NestOf, AvoidsTags, AvoidsShared};

/// What is reached by number is what an undisturbed path of the program reaches, with no back edge
/// to one of the first loops around the start.
pub fn reach_by_tags()
    ensures { (t : Tree) (x : List ℕ) (p q cut : ℕ) (a z : Point) (loops : List Tag) → IsProgram t
        → IsNumberOf (spots t) p a → IsNumberOf (spots t) q z
        → NestOf t.body a loops
        → Reaches (spots t) x (take cut (nest_at (spots t) p)) p q
        ↔ ((marks : List (Option Tag)) × IsUndisturbed t.body x a z marks × AvoidsTags (take cut loops) marks) }
{}

/// The names that are live by number are those of the program's initial definitions.
pub fn live_by_tags()
    ensures { (t : Tree) (x : List ℕ) → IsProgram t → IsLive (spots t) x ↔ IsInitial t x }
{}

/// The undisturbed paths by number that take the back edge to a loop, and those that take none to a
/// loop that encloses both ends, are those of the program.
pub fn flows_by_tags()
    ensures carried { (t : Tree) (x : List ℕ) (p q l : ℕ) (a z : Point) (w : Tag) → IsProgram t
        → IsNumberOf (spots t) p a → IsNumberOf (spots t) q z
        → IsNumberOf (spots t) l (at w)
        → ((steps : List Step) × NumberUndisturbed (spots t) x p q steps × Contains steps (back_to l))
        ↔ ((marks : List (Option Tag)) × IsUndisturbed t.body x a z marks × Contains marks (Some w)) }
    ensures independent { (t : Tree) (x : List ℕ) (p q : ℕ) (a z : Point) (loops others : List Tag) → IsProgram t
        → IsNumberOf (spots t) p a
        → IsNumberOf (spots t) q z → NestOf t.body a loops → NestOf t.body z others
        → ((steps : List Step) × NumberUndisturbed (spots t) x p q steps × AvoidsCommon (spots t) p q steps)
        ↔ ((marks : List (Option Tag)) × IsUndisturbed t.body x a z marks × AvoidsShared loops others marks) }
{}

/// An undisturbed path takes the back edge to a loop exactly where it comes round to the end of the
/// loop's body and goes on from the loop's predicate.
pub fn carried_by_parts()
    ensures parts { (s : List Spot) (x : List ℕ) (w d u : ℕ) (steps : List Step) → NumberUndisturbed s x d u steps
        → Contains steps (back_to w)
        → ComesRound s x w d × GoesOn s x w u }
    ensures whole { (s : List Spot) (x : List ℕ) (w d u : ℕ) → IsLoopAt s w → ComesRound s x w d → GoesOn s x w u
        → (steps : List Step) × NumberUndisturbed s x d u steps × Contains steps (back_to w) }
{}

/// The loops that enclose both of two points are the front up to which their nests agree. So the
/// paths that take no back edge to one of them are those that take none to that front.
pub fn common_loops()
    ensures front { (s : List Spot) (d u c w : ℕ) → AreSpots s → PartsAt (nest_at s d) (nest_at s u) c
        → Contains (take c (nest_at s d)) w ↔ (Contains (nest_at s d) w × Contains (nest_at s u) w) }
    ensures paths { (s : List Spot) (x : List ℕ) (d u c : ℕ) → AreSpots s → PartsAt (nest_at s d) (nest_at s u) c
        → Reaches s x (take c (nest_at s d)) d u ↔ ((steps : List Step) × NumberUndisturbed s x d u steps
        × AvoidsCommon s d u steps) }
{}
