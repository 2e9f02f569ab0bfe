//! The affected points as JSON.
ghost use Rattle.std.specs.Prelude.{◌≡◌, ◌↔◌, ◌<◌, false, length, All, IfOk};
ghost use Rattle.serde_json.specs.View.{view};
ghost use Rattle.serde_json.specs.Written.{has_float};
ghost use Rattle.hpr_graph.specs.declared.vertex.Vertex.{Vertex};
ghost use Rattle.hpr_graph.specs.Numbered.{IsMarkedVertex};
ghost use Rattle.hpr_report.specs.AffectedText.{ArePoints, IsOneOf};
ghost use Rattle.hpr_json.specs.Answers.{points_data, IsPointsData};

use crate::members::listed_value;
use crate::vertices::vertex_values;
use hpr_graph::{Graph, NoMemory, Vertex};
use serde_json::Value;
use std::alloc::Global;

/// The vertices of a graph with these numbers: an object that has them as `points`, in their order, and the
/// status `done`. A number that is listed twice is shown once, and each number is that of a vertex. It fails
/// only for want of memory.
pub fn points_value(alloc: Global, graph: &Graph, points: &[usize]) -> Result<Value, NoMemory>
    requires { All (λ p. p < length graph.now.vertices) points.now }
    ensures data { IfOk result (λ value. IsPointsData (IsOneOf graph.now points.now) (view value)) }
    ensures whole { IfOk result (λ value. has_float (view value) ≡ false) }
{
    let kept = graph_at(alloc, graph, points)?;
    shown_value(alloc, kept.vertices())
}

/// The object of these vertices.
fn shown_value(alloc: Global, vertices: &[Vertex]) -> Result<Value, NoMemory>
    ensures data { IfOk result (λ value. view value ≡ points_data vertices.now) }
    ensures whole { IfOk result (λ value. has_float (view value) ≡ false) }
{
    let values = vertex_values(alloc, vertices)?;
    Ok(listed_value(alloc, "points", values, "done")?)
}

/// The graph of the vertices with these numbers, in order.
fn graph_at(alloc: Global, graph: &Graph, points: &[usize]) -> Result<Graph, NoMemory>
    requires { All (λ p. p < length graph.now.vertices) points.now }
    ensures { IfOk result (λ g. ArePoints (IsOneOf graph.now points.now) g.vertices) }
{
    let marks = marks_of(alloc, graph, points)?;
    graph.restrict(&marks)?.in_order()
}

/// Marks the vertices with these numbers.
fn marks_of(alloc: Global, graph: &Graph, points: &[usize]) -> Result<Vec<bool>, NoMemory>
    requires { All (λ p. p < length graph.now.vertices) points.now }
    ensures count { IfOk result (λ marks. length marks.items ≡ length graph.now.vertices) }
    ensures marks { IfOk result (λ marks. (v : Vertex) → IsMarkedVertex graph.now marks.items v
        ↔ IsOneOf graph.now points.now v) }
{
    let mut marks = vec![in alloc; false; graph.vertex_count()]?;
    for point in points {
        marks[*point] = true;
    }
    Ok(marks)
}
