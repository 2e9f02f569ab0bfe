//! The text of a program with marks at what a change can reach.
ghost use Rattle.std.specs.Prelude.{◌≡◌, ◌↔◌, ◌⊎◌, ◌<◌, ℕ, length, All, Contains, IfOk, OnOk};
ghost use Rattle.hpr_search.specs.Marks.{IsMarked};
ghost use Rattle.hpr_graph.specs.Numbered.{graph_in};
ghost use Rattle.hpr_graph.specs.Slices.{IsReached};
ghost use Rattle.hpr_report.specs.AffectedText.{IsOneOf};
ghost use Rattle.hpr_located.specs.Sources.{standing_of};
ghost use Rattle.hpr_impact.specs.Lines.{AreMarkedLines, BeginsIn};
ghost use Rattle.hpr_impact.specs.Private.Marking.{IsLineOf};

use crate::impact::reached_graph;
use crate::lines::{mark_line, marked_text};
use hpr_graph::{Graph, NoMemory, Vertex};
use hpr_located::{Located, Source};
use std::alloc::Global;

/// The bytes with `> ` at the front of each line in which a part begins that a change at some vertices of a graph can
/// reach, and two blanks at the front of each other line. The source tells in which line a part begins, and the bytes
/// are its text. It fails only for want of memory.
pub fn impact_marks(
    alloc: Global,
    graph: &Graph,
    points: &[usize],
    bytes: &[u8],
    source: &Source,
) -> Result<Vec<u8>, NoMemory>
    requires { All (λ p. p < length graph.now.vertices) points.now }
    ensures { IfOk result (λ text. AreMarkedLines (BeginsIn (standing_of source.now)
        (IsReached (graph_in graph.now) (IsOneOf graph.now points.now))) 1 bytes.now text.items) }
{
    let reached = reached_graph(alloc, graph, points)?;
    let marks = line_marks(alloc, reached.vertices(), source)?;
    let text = marked_text(alloc, bytes, &marks)?;
    Ok(text)
}

/// Marks the lines in which one of the vertices begins.
fn line_marks(alloc: Global, vertices: &[Vertex], source: &Source) -> Result<Vec<bool>, NoMemory>
    ensures { IfOk result (λ marks. (n : ℕ) → IsMarked marks.items n
        ↔ BeginsIn (standing_of source.now) (Contains vertices.now) n) }
{
    let mut marks = Vec::new(alloc);
    for vertex in vertices {
        mark_place(&mut marks, source.place(vertex))?;
    }
    Ok(marks)
}

/// Marks the line of a place, if there is one.
fn mark_place(marks: &mut Vec<bool>, place: Option<Located>) -> Result<(), NoMemory>
    ensures { OnOk result ((n : ℕ) → IsMarked marks.new.items n ↔ (IsMarked marks.old.items n ⊎ IsLineOf place n)) }
{
    match place {
        Some(located) => mark_line(marks, located.line),
        None => Ok(()),
    }
}
