//! The tree that the control edges of a graph make.
ghost use Rattle.std.specs.Prelude.{◌≡◌, ◌≢◌, ◌↔◌, ◌<◌, ℕ, Bool, false, Option, Some, IsNone, IfOk, IfErr, IsTrue, length, slice_get};
ghost use Rattle.std.specs.Option.{option_copied};
ghost use Rattle.hpr_graph.specs.declared.vertex.Vertex.{Vertex};
ghost use Rattle.hpr_graph.specs.Numbered.{graph_in};
ghost use Rattle.hpr_graph.specs.Order.{vertex_cmp};
ghost use Rattle.hpr_order.specs.Regions.{AreRegionsOf, IsRefusal, IsImpossible, IsPossible, AllPossible, IsRegionAt};
ghost use Rattle.hpr_order.specs.Least.{IsLeastIn, lesser};
ghost use Rattle.hpr_order.specs.Controls.{AreReached};

use crate::control::{is_allowed, only_control};
use crate::reached::reached_from_entry;
use crate::tags::repeated_tag;
use hpr_graph::{Graph, NoMemory, Tag, Vertex, compare_vertices};
use std::alloc::Global;
use std::cmp::Ordering;
use std::marker::Model;

/// Why the control edges of a graph are those of no program.
pub enum OrderError {
    /// The least tag that has two contents.
    TwoContents(Tag),
    /// Each tag has one content, and this is the least vertex, other than Entry, into which not exactly one
    /// control edge goes, or one that no program has between such vertices, or which isn't reached
    /// from Entry over control edges.
    Impossible(Vertex),
    /// Memory ran out.
    Memory,
}

/// A refusal is dropped in one call.
impl Drop for OrderError {
    fn drop(self) {
        match self {
            OrderError::TwoContents(_) => {}
            OrderError::Impossible(_) => {}
            OrderError::Memory => {}
        }
    }
}

impl From<NoMemory> for OrderError {
    ghost use Rattle.std.specs.Prelude.{◌≡◌};
    ghost use Rattle.hpr_order.specs.declared.tree.OrderError.TheVariants.{Memory};

    ghost from_gives = { λ _ e. e ≡ Memory };

    fn from(_error: NoMemory) -> OrderError {
        OrderError::Memory
    }
}

/// Where each vertex of a graph stands, by its number.
///
/// A contract sees, for each number, the number of the vertex that controls it, with the label of the
/// edge; none for Entry.
#[derive(Drop)]
pub struct RegionTree {
    parents: Vec<Option<(usize, bool)>>,
}

impl Model for RegionTree {
    ghost use Rattle.std.specs.Prelude.{List, Option, ℕ, Bool};

    ghost Value = { List (Option (ℕ × Bool)) };

    ghost view = { λ r. r.parents.items };
}

impl RegionTree {
    /// The number of the vertex from which the one control edge into the vertex with this number comes,
    /// and its label. None for Entry alone. The number is that of a vertex.
    pub fn parent(&self, at: usize) -> Option<(usize, bool)>
        requires { at < length self.now }
        ensures { slice_get self.now at ≡ Some result }
    {
        self.parents[at]
    }
}

/// The tree that the control edges of a graph make, in whatever graph they may. Looks at each edge a
/// fixed number of times (Horwitz, Prins and Reps 1989 for the edges).
///
/// `TwoContents` comes exactly where a tag has two contents, with the least such tag. `Impossible` comes
/// exactly where no tag has and some vertex other than Entry has not exactly one control edge into it, or
/// one into it that doesn't go from Entry, labelled true, to a part, an Init or a Final vertex, nor from a
/// loop, labelled true, to a part, nor from a conditional, with either label, to a part, or isn't reached
/// from Entry over control edges. It carries the least such vertex.
pub fn regions(alloc: Global, graph: &Graph) -> Result<RegionTree, OrderError>
    ensures ok { IfOk result (λ rs. AreRegionsOf graph.now rs) }
    ensures refused { IfErr result (λ e. IsRefusal (graph_in graph.now) e) }
{
    if let Some(tag) = repeated_tag(alloc, graph.vertices())? {
        return Err(OrderError::TwoContents(tag));
    }
    if let Some(vertex) = impossible_vertex(alloc, graph)? {
        return Err(OrderError::Impossible(vertex.copy(alloc)?));
    }
    let parents = parents_of(alloc, graph)?;
    Ok(RegionTree { parents })
}

/// The least vertex that has no place in such a tree, if there is one.
fn impossible_vertex(alloc: Global, graph: &Graph) -> Result<Option<&Vertex>, NoMemory>
    ensures least { IfOk result (λ v. IsLeastIn vertex_cmp (IsImpossible (graph_in graph.now)) (option_copied v)) }
    ensures none { IfOk result (λ v. IsNone v → AllPossible (graph_in graph.now)) }
{
    let reached = reached_from_entry(alloc, graph)?;
    Ok(least_impossible(graph, &reached))
}

/// The least vertex that has no place in such a tree, if there is one. There is a mark for each vertex:
/// whether control edges lead to it from Entry.
fn least_impossible<'a>(graph: &'a Graph, reached: &[bool]) -> Option<&'a Vertex>
    requires { AreReached graph.now reached.now }
    ensures least { IsLeastIn vertex_cmp (IsImpossible (graph_in graph.now)) (option_copied result) }
    ensures none { IsNone result → AllPossible (graph_in graph.now) }
{
    let mut least = None;
    for at in 0..graph.vertices().len() {
        if is_impossible(graph, reached, at) {
            least = Some(lesser_vertex(least, graph.vertex(at)));
        }
    }
    least
}

/// Whether the vertex with this number is other than Entry and has no place in such a tree.
fn is_impossible(graph: &Graph, reached: &[bool], at: usize) -> bool
    requires at { at < length graph.now.vertices }
    requires reached { AreReached graph.now reached.now }
    ensures impossible { IsTrue result → (v : Vertex) → slice_get graph.now.vertices at ≡ Some v
        → IsImpossible (graph_in graph.now) v }
    ensures possible { result ≡ false → (v : Vertex) → slice_get graph.now.vertices at ≡ Some v → v ≢ Vertex.Entry
        → IsPossible (graph_in graph.now) v }
{
    !is_entry(graph.vertex(at)) && !is_possible(graph, reached, at)
}

/// Whether one control edge alone goes into the vertex with this number, and it may, and control edges
/// lead to the vertex from Entry.
fn is_possible(graph: &Graph, reached: &[bool], at: usize) -> bool
    requires at { at < length graph.now.vertices }
    requires reached { AreReached graph.now reached.now }
    ensures { (v : Vertex) → slice_get graph.now.vertices at ≡ Some v → IsTrue result
        ↔ IsPossible (graph_in graph.now) v }
{
    match only_control(graph.edges_into(at)) {
        Some((from, label)) => {
            reached[at] && is_allowed(graph.vertex(from), label, graph.vertex(at))
        }
        None => false,
    }
}

/// The lesser of the two.
fn lesser_vertex<'a>(least: Option<&'a Vertex>, vertex: &'a Vertex) -> &'a Vertex
    ensures { result.now ≡ lesser vertex_cmp (option_copied least.entry) vertex.now }
{
    match least {
        Some(other) => if compare_vertices(vertex, other) == Ordering::Less {
            vertex
        } else {
            other
        },
        None => vertex,
    }
}

fn is_entry(vertex: &Vertex) -> bool
    ensures { IsTrue result ↔ (vertex.now ≡ Vertex.Entry) }
{
    matches!(vertex, Vertex::Entry)
}

/// Where each vertex stands.
fn parents_of(alloc: Global, graph: &Graph) -> Result<Vec<Option<(usize, bool)>>, NoMemory>
    requires { AllPossible (graph_in graph.now) }
    ensures count { IfOk result (λ rs. length rs.items ≡ length graph.now.vertices) }
    ensures parents { IfOk result (λ rs. (at : ℕ) (v : Vertex) (r : Option (ℕ × Bool))
        → slice_get graph.now.vertices at ≡ Some v → slice_get rs.items at ≡ Some r → IsRegionAt graph.now at v r) }
{
    let mut parents = Vec::new(alloc);
    for at in 0..graph.vertices().len() {
        parents.push(parent_at(graph, at))?;
    }
    Ok(parents)
}

/// Where the vertex with this number stands.
fn parent_at(graph: &Graph, at: usize) -> Option<(usize, bool)>
    requires at { at < length graph.now.vertices }
    requires possible { AllPossible (graph_in graph.now) }
    ensures { (v : Vertex) → slice_get graph.now.vertices at ≡ Some v → IsRegionAt graph.now at v result }
{
    if is_entry(graph.vertex(at)) {
        return None;
    }
    only_control(graph.edges_into(at))
}
