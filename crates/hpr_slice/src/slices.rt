//! Slices, and what is reached from some vertices.
ghost use Rattle.std.specs.Prelude.{◌≡◌, ◌<◌, false, length, replicate, All, IfOk};
ghost use Rattle.hpr_graph.specs.Graphs.{Same};
ghost use Rattle.hpr_graph.specs.Numbered.{graph_in};
ghost use Rattle.hpr_graph.specs.Slices.{IsReached, slice_of};
ghost use Rattle.hpr_slice.specs.Vertices.{IsOneOf, MarksExactly};

use crate::sources::Sources;
use crate::targets::targets_of;
use hpr_graph::{Graph, NoMemory};
use hpr_search::reachable;
use std::alloc::Global;

/// The slice of a graph at some of its vertices, by their numbers: the vertices from which control and
/// flow edges lead to one of them, these included, and the edges all of whose vertices are among these
/// (Reps and Yang 1988). The list may be empty. Looks at each edge a fixed number of times.
pub fn slice(alloc: Global, graph: &Graph, points: &[usize]) -> Result<Graph, NoMemory>
    requires { All (λ p. p < length graph.now.vertices) points.now }
    ensures { IfOk result (λ g. Same (graph_in g) (slice_of (graph_in graph.now) (IsOneOf graph.now points.now))) }
{
    let sources = Sources::of(alloc, graph);
    let keep = sources.reaching(points)?;
    graph.restrict(&keep)
}

/// Marks the vertices to which control and flow edges lead from one of these, these included. The points
/// are numbers of vertices, and there may be none; then nothing is marked. Looks at each edge a fixed
/// number of times.
pub fn forward(alloc: Global, graph: &Graph, points: &[usize]) -> Result<Vec<bool>, NoMemory>
    requires { All (λ p. p < length graph.now.vertices) points.now }
    ensures { IfOk result (λ marks. MarksExactly graph.now (IsReached (graph_in graph.now)
        (IsOneOf graph.now points.now)) marks.items) }
{
    if points.is_empty() {
        return unmarked(alloc, graph.vertex_count());
    }
    let targets = targets_of(alloc, graph)?;
    Ok(reachable(alloc, &targets, points)?)
}

/// So many vertices, none of which is marked.
pub(crate) fn unmarked(alloc: Global, count: usize) -> Result<Vec<bool>, NoMemory>
    ensures { IfOk result (λ marks. marks.items ≡ replicate count false) }
{
    Ok(vec![in alloc; false; count]?)
}
