//! Laws that tie the numbers of points to points by their tags: each function's contract is the
//! law, for all values.
ghost use Rattle.std.specs.Prelude.{◌≡◌, ℕ, ◌+◌, ◌<◌, ◌++◌, List, [], ◌∷◌, map, Option, Some, None, length, Contains};
ghost use Rattle.hpr_terms.specs.declared.tag.Tag.{Tag};
ghost use Rattle.hpr_syntax.specs.declared.rows.Content.{Content};
ghost use Rattle.hpr_syntax.specs.Body.{part_count};
ghost use Rattle.hpr_syntax.specs.Tree.{Tree};
ghost use Rattle.hpr_syntax.specs.Parts.{tags_of};
ghost use Rattle.hpr_syntax.specs.Skeleton.{Point, at, skeleton};
ghost use Rattle.hpr_syntax.specs.Pairs.{IsPair};
ghost use Rattle.hpr_syntax.specs.Nests.{Standing, StandsAsIn, Says};
ghost use Rattle.hpr_syntax.specs.Places.{EnclosesBoth, StandsLeft};
ghost use Rattle.hpr_syntax.specs.Paths.{IsPath, DefinesAt, IsUndisturbed};
ghost use Rattle.hpr_syntax.specs.Shape.{IsProgram};
ghost use Rattle.hpr_paths.specs.declared.spot.Step.{Step};
ghost use Rattle.hpr_paths.specs.Spots.{enter, part, exit, tag_of, nest_at, role_at, tag_at, defined_at};
ghost use Rattle.hpr_paths.specs.Successors.{spots};
ghost use Rattle.hpr_paths.specs.Numbers.{IsNumberOf, HaveTags, mark_of, marks_of, Leads, NumberPath, NumberUndisturbed};

/// Point 0 is Enter, the last point is Exit, with the names of `end`, and those between have the
/// tags of the program's parts in preorder.
pub fn points_in_order()
    ensures first { (t : Tree) → role_at (spots t) 0 ≡ Some enter }
    ensures last { (t : Tree) → role_at (spots t) (part_count t.body + 1) ≡ Some (exit t.finals) }
    ensures count { (t : Tree) → length (spots t) ≡ part_count t.body + 2 }
    ensures tags { (t : Tree) → map (λ s. tag_of s.role) (spots t)
        ≡ None ∷ (map Some (tags_of t.body []) ++ None ∷ []) }
{}

/// Each number below the number of points stands for one point, and no two numbers stand for the
/// same point of a program.
pub fn numbers_of_points()
    ensures some { (t : Tree) (p : ℕ) → p < length (spots t) → (a : Point) × IsNumberOf (spots t) p a }
    ensures one { (t : Tree) (p : ℕ) (a b : Point) → IsNumberOf (spots t) p a → IsNumberOf (spots t) p b → a ≡ b }
    ensures once { (t : Tree) (p q : ℕ) (a : Point) → IsProgram t → IsNumberOf (spots t) p a
        → IsNumberOf (spots t) q a → p ≡ q }
{}

/// What stands at a part's number is what the part says.
pub fn contents_by_number()
    ensures sound { (t : Tree) (p : ℕ) (v : Tag) (c : Content) → role_at (spots t) p ≡ Some (part v c)
        → Says t.body v c }
    ensures complete { (t : Tree) (v : Tag) (c : Content) → Says t.body v c → (p : ℕ)
        × (role_at (spots t) p ≡ Some (part v c)) }
{}

/// The loops that enclose a number are those that enclose its part.
pub fn nests_by_number()
    ensures sound { (t : Tree) (p : ℕ) (v : Tag) (c : Content) → role_at (spots t) p ≡ Some (part v c)
        → (s : Standing) × StandsAsIn t.body v s × (s.content ≡ c) × HaveTags (spots t) (nest_at (spots t) p) s.nest }
    ensures complete { (t : Tree) (v : Tag) (s : Standing) → StandsAsIn t.body v s
        → (p : ℕ) × (role_at (spots t) p ≡ Some (part v s.content)) × HaveTags (spots t) (nest_at (spots t) p) s.nest }
{}

/// The loops that enclose two numbers are those that enclose both points.
pub fn enclosing_by_number()
    ensures sound { (t : Tree) (p q l : ℕ) (d u : Point) (w : Tag) → IsNumberOf (spots t) p d → IsNumberOf (spots t) q u
        → Contains (nest_at (spots t) p) l → Contains (nest_at (spots t) q) l → tag_at (spots t) l ≡ Some w
        → EnclosesBoth (skeleton t.body) d u w }
    ensures complete { (t : Tree) (p q : ℕ) (d u : Point) (w : Tag) → IsProgram t → IsNumberOf (spots t) p d
        → IsNumberOf (spots t) q u
        → EnclosesBoth (skeleton t.body) d u w
        → (l : ℕ) × Contains (nest_at (spots t) p) l × Contains (nest_at (spots t) q) l
        × (tag_at (spots t) l ≡ Some w) }
{}

/// Of two parts the one with the lower number stands to the left.
pub fn left_by_number()
    ensures sound { (t : Tree) (p q : ℕ) (d u : Tag) → IsNumberOf (spots t) p (at d) → IsNumberOf (spots t) q (at u)
        → p < q
        → StandsLeft (skeleton t.body) (at d) (at u) }
    ensures complete { (t : Tree) (p q : ℕ) (d u : Point) → IsProgram t → IsNumberOf (spots t) p d
        → IsNumberOf (spots t) q u
        → StandsLeft (skeleton t.body) d u → p < q }
{}

/// The name that a number defines is the one that its part defines.
pub fn definitions_by_number()
    ensures sound { (t : Tree) (p : ℕ) (a : Point) (x : List ℕ) → IsNumberOf (spots t) p a
        → defined_at (spots t) p ≡ Some x → DefinesAt t.body x a }
    ensures complete { (t : Tree) (p : ℕ) (a : Point) (x : List ℕ) → IsProgram t → IsNumberOf (spots t) p a
        → DefinesAt t.body x a
        → defined_at (spots t) p ≡ Some x }
{}

/// The steps between numbers are the pairs of points, with their marks.
pub fn steps_are_pairs()
    ensures sound { (t : Tree) (p q : ℕ) (s : Step) (a z : Point) → Leads (spots t) p q s → IsNumberOf (spots t) p a
        → IsNumberOf (spots t) q z
        → IsPair t.body a z (mark_of (spots t) s) }
    ensures complete { (t : Tree) (p : ℕ) (a z : Point) (m : Option Tag) → IsProgram t → IsNumberOf (spots t) p a
        → IsPair t.body a z m
        → (q : ℕ) × (s : Step) × Leads (spots t) p q s × IsNumberOf (spots t) q z × (m ≡ mark_of (spots t) s) }
{}

/// The paths over numbers are the paths of the program, with their marks.
pub fn paths_by_number()
    ensures sound { (t : Tree) (p q : ℕ) (a z : Point) (steps : List Step) → NumberPath (spots t) p q steps
        → IsNumberOf (spots t) p a → IsNumberOf (spots t) q z → IsPath t.body a z (marks_of (spots t) steps) }
    ensures complete { (t : Tree) (p : ℕ) (a z : Point) (marks : List (Option Tag)) → IsProgram t
        → IsNumberOf (spots t) p a → IsPath t.body a z marks
        → (q : ℕ) × (steps : List Step) × NumberPath (spots t) p q steps × IsNumberOf (spots t) q z
        × (marks ≡ marks_of (spots t) steps) }
{}

/// The undisturbed paths over numbers are those of the program, with their marks.
pub fn undisturbed_by_number()
    ensures sound { (t : Tree) (x : List ℕ) (p q : ℕ) (a z : Point) (steps : List Step) → IsProgram t
        → NumberUndisturbed (spots t) x p q steps
        → IsNumberOf (spots t) p a → IsNumberOf (spots t) q z → IsUndisturbed t.body x a z (marks_of (spots t) steps) }
    ensures complete { (t : Tree) (x : List ℕ) (p : ℕ) (a z : Point) (marks : List (Option Tag)) → IsProgram t
        → IsNumberOf (spots t) p a
        → IsUndisturbed t.body x a z marks
        → (q : ℕ) × (steps : List Step) × NumberUndisturbed (spots t) x p q steps × IsNumberOf (spots t) q z
        × (marks ≡ marks_of (spots t) steps) }
{}
