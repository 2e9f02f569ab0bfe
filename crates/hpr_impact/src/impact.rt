//! What a change at some points of a program can reach.
ghost use Rattle.std.specs.Prelude.{◌≡◌, ◌↔◌, ◌<◌, ℕ, length, All, Contains, IfOk};
ghost use Rattle.hpr_graph.specs.Numbered.{graph_in};
ghost use Rattle.hpr_graph.specs.Slices.{IsReached};
ghost use Rattle.hpr_report.specs.AffectedText.{ArePoints, IsAffectedText, IsOneOf};

use hpr_graph::{Graph, NoMemory};
use hpr_report::affected_text;
use hpr_slice::forward;
use std::alloc::Global;

/// What a change at some vertices of a graph, by their numbers, can reach: the vertices to which control and flow
/// edges lead from one of them, these included. The text is that of affected points, in hpr's order: the line
/// `affected N` and a line for each. The list may be empty. It fails only for want of memory.
///
/// Looks at each edge a fixed number of times, and sorts the vertices that are reached.
pub fn impact_text(alloc: Global, graph: &Graph, points: &[usize]) -> Result<Vec<u8>, NoMemory>
    requires { All (λ p. p < length graph.now.vertices) points.now }
    ensures { IfOk result (λ text. IsAffectedText (IsReached (graph_in graph.now)
        (IsOneOf graph.now points.now)) text.items) }
{
    let reached = reached_graph(alloc, graph, points)?;
    let all = numbers_below(alloc, reached.vertex_count())?;
    affected_text(alloc, &reached, &all)
}

/// A graph of the vertices that are reached from these, in order.
pub(crate) fn reached_graph(
    alloc: Global,
    graph: &Graph,
    points: &[usize],
) -> Result<Graph, NoMemory>
    requires { All (λ p. p < length graph.now.vertices) points.now }
    ensures { IfOk result (λ g. ArePoints (IsReached (graph_in graph.now) (IsOneOf graph.now points.now)) g.vertices) }
{
    let _vertices = graph.vertices();
    let marks = forward(alloc, graph, points)?;
    graph.restrict(&marks)?.in_order()
}

/// The numbers below a count, ascending.
fn numbers_below(alloc: Global, count: usize) -> Result<Vec<usize>, NoMemory>
    ensures within { IfOk result (λ numbers. All (λ n. n < count) numbers.items) }
    ensures all { IfOk result (λ numbers. (n : ℕ) → n < count → Contains numbers.items n) }
{
    let mut numbers = Vec::with_capacity(alloc, count)?;
    for number in 0..count {
        numbers.push(number)?;
    }
    Ok(numbers)
}
