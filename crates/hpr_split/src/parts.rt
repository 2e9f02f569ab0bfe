//! The parts that get new tags.
ghost use Rattle.std.specs.Prelude.{◌≡◌, ◌↔◌, length, Contains, IfOk, OnOk};
ghost use Rattle.hpr_graph.specs.declared.vertex.Vertex.{Vertex};
ghost use Rattle.hpr_graph.specs.Graphs.{IsOnce};
ghost use Rattle.hpr_graph.specs.Numbered.{graph_in};
ghost use Rattle.hpr_graph.specs.Split.{AreSplitParts};
ghost use Rattle.hpr_split.specs.Marks.{IsUnmarked, IsChosenAt, is_chosen, with_chosen};

use hpr_graph::{Graph, NoMemory, Vertex};
use std::alloc::Global;

/// Copies of the parts that aren't marked, in the order of vertices.
pub(crate) fn unmarked_parts(
    alloc: Global,
    graph: &Graph,
    keep: &[bool],
) -> Result<Vec<Vertex>, NoMemory>
    requires { length keep.now ≡ length graph.now.vertices }
    ensures { IfOk result (λ v. AreSplitParts (graph_in graph.now) (IsUnmarked graph.now keep.now) v.items) }
{
    let mut parts = chosen(alloc, graph.vertices(), keep)?;
    parts.sort_unstable();
    Ok(parts)
}

/// Copies of the parts among these vertices that aren't marked.
fn chosen(alloc: Global, vertices: &[Vertex], keep: &[bool]) -> Result<Vec<Vertex>, NoMemory>
    requires marks { length keep.now ≡ length vertices.now }
    requires once { IsOnce vertices.now }
    ensures once { IfOk result (λ v. IsOnce v.items) }
    ensures parts { IfOk result (λ v. (x : Vertex) → Contains v.items x ↔ IsChosenAt vertices.now keep.now (length vertices.now) x) }
{
    let mut parts = Vec::new(alloc);
    for (at, vertex) in vertices.iter().enumerate() {
        push_chosen(alloc, &mut parts, vertex, keep[at])?;
    }
    Ok(parts)
}

/// Puts a copy of the vertex behind the others, if it is a part that isn't kept.
fn push_chosen(
    alloc: Global,
    parts: &mut Vec<Vertex>,
    vertex: &Vertex,
    keep: bool,
) -> Result<(), NoMemory>
    ensures { OnOk result (parts.new.items ≡ with_chosen keep vertex.now parts.old.items) }
{
    if is_chosen(vertex, keep) {
        parts.push(vertex.copy(alloc)?)?;
    }
    Ok(())
}

/// Whether the vertex is a part that isn't kept.
fn is_chosen(vertex: &Vertex, keep: bool) -> bool
    ensures { result ≡ is_chosen keep vertex.now }
{
    match vertex {
        Vertex::Part(_, _) => !keep,
        _ => false,
    }
}
