//! Laws of the graph of a program: each function's contract is the law, for all values.
ghost use Rattle.std.specs.Prelude.{◌≡◌, ◌<◌, ◌↔◌, ℕ, length, List, Option, Some, Contains};
ghost use Rattle.hpr_terms.specs.declared.tag.Tag.{Tag};
ghost use Rattle.hpr_syntax.specs.declared.rows.Content.{Content};
ghost use Rattle.hpr_syntax.specs.Tree.{Tree};
ghost use Rattle.hpr_syntax.specs.Skeleton.{Point, at, skeleton};
ghost use Rattle.hpr_syntax.specs.Body.{part_count};
ghost use Rattle.hpr_syntax.specs.Nests.{Standing, StandsAsIn};
ghost use Rattle.hpr_syntax.specs.Places.{StandsLeft, Parted, EnclosesBoth};
ghost use Rattle.hpr_syntax.specs.Paths.{IsUndisturbed};
ghost use Rattle.hpr_syntax.specs.Shape.{IsProgram};
ghost use Rattle.hpr_paths.specs.Spots.{part, role_at};
ghost use Rattle.hpr_paths.specs.Successors.{spots};
ghost use Rattle.hpr_paths.specs.Numbers.{IsNumberOf};
ghost use Rattle.hpr_graph.specs.declared.vertex.Vertex.{Vertex};
ghost use Rattle.hpr_graph.specs.declared.vertex.Vertex.TheVariants.{Part};
ghost use Rattle.hpr_graph.specs.declared.edge.Kind.TheVariants as kind;
ghost use Rattle.hpr_graph.specs.declared.edge.Edge.{Edge};
ghost use Rattle.hpr_graph.specs.ProgramGraph.{graph_of};
ghost use Rattle.hpr_build.specs.declared.flows.FlowKind.TheVariants.{Independent, Carried};
ghost use Rattle.hpr_build.specs.Flows.{IsFlowAt};
ghost use Rattle.hpr_build.specs.Places.{Place, places, place_at, IsParentOf};
ghost use Rattle.hpr_build.specs.Orders.{IsBefore};
ghost use Rattle.hpr_graph.specs.ProgramGraph as around;

/// The flow edges between numbers are those between the points of the program that they stand for.
pub fn flow_edges_by_tags()
    ensures independent { (t : Tree) (x : List ℕ) (p q : ℕ) (a z : Point) → IsProgram t → IsNumberOf (spots t) p a
        → IsNumberOf (spots t) q z
        → IsFlowAt (spots t) x p q Independent ↔ ((marks : List (Option Tag)) × IsUndisturbed t.body x a z marks
        × around.AvoidsCommon t a z marks) }
    ensures carried { (t : Tree) (x : List ℕ) (p q l : ℕ) (a z : Point) (w : Tag) → IsProgram t
        → IsNumberOf (spots t) p a → IsNumberOf (spots t) q z
        → IsNumberOf (spots t) l (at w)
        → IsFlowAt (spots t) x p q (Carried l)
        ↔ (EnclosesBoth (skeleton t.body) a z w
        × ((marks : List (Option Tag)) × IsUndisturbed t.body x a z marks × Contains marks (Some w))) }
{}

/// The parts by number are those of the program, and what their places say of what stands around
/// them is so.
pub fn places_by_tags()
    ensures count { (t : Tree) → length (places t) ≡ part_count t.body }
    ensures role { (t : Tree) (p : ℕ) (x : Place) → 0 < p → place_at (places t) p ≡ Some x
        → role_at (spots t) p ≡ Some (part x.tag x.content) }
    ensures sound { (t : Tree) (p : ℕ) (x : Place) → 0 < p → place_at (places t) p ≡ Some x
        → (s : Standing) × StandsAsIn t.body x.tag s × (s.content ≡ x.content)
        × IsParentOf (spots t) x.parent s.parent }
    ensures complete { (t : Tree) (v : Tag) (s : Standing) → StandsAsIn t.body v s
        → (p : ℕ) × (x : Place) × (0 < p) × (place_at (places t) p ≡ Some x) × (x.tag ≡ v) × (x.content ≡ s.content)
        × IsParentOf (spots t) x.parent s.parent }
{}

/// The order between parts by number is the one between the parts of the program: the one stands to
/// the left, and no conditional has them in different branches.
pub fn order_by_tags()
    ensures { (t : Tree) (p q : ℕ) (v w : Tag) → IsProgram t → IsNumberOf (spots t) p (at v)
        → IsNumberOf (spots t) q (at w)
        → IsBefore (places t) p q ↔ (StandsLeft (skeleton t.body) (at v) (at w)
        × ¬ Parted (skeleton t.body) (at v) (at w)) }
{}

/// In the graph of a program the independent flow edges and the order edges between two parts go
/// from left to right.
pub fn left_to_right()
    ensures independent { (t : Tree) (e : Edge) (x : List ℕ) (v w : Tag) (c d : Content) → IsProgram t
        → (graph_of t).edge e → e.kind ≡ kind.Independent x
        → e.from ≡ Part v c → e.to ≡ Part w d → StandsLeft (skeleton t.body) (at v) (at w) }
    ensures order { (t : Tree) (e : Edge) (u : Vertex) (v w : Tag) (c d : Content) → IsProgram t → (graph_of t).edge e
        → e.kind ≡ kind.Order u
        → e.from ≡ Part v c → e.to ≡ Part w d → StandsLeft (skeleton t.body) (at v) (at w) }
{}
