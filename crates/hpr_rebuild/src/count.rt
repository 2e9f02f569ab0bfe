//! The parts of a graph.
ghost use Rattle.std.specs.Prelude.{◌≡◌, length, filter};
ghost use Rattle.hpr_graph.specs.Numbered.{graph_in};
ghost use Rattle.hpr_graph.specs.Answer.{HasParts};
ghost use Rattle.hpr_rebuild.specs.Parts.{is_part};

use hpr_graph::{Graph, Vertex};

fn is_part(vertex: &Vertex) -> bool
    ensures { result ≡ is_part vertex.now }
{
    matches!(vertex, Vertex::Part(_, _))
}

/// How many parts there are among the vertices.
fn parts_among(vertices: &[Vertex]) -> usize
    ensures { result ≡ length (filter is_part vertices.now) }
{
    let mut parts = 0;
    for vertex in vertices {
        if is_part(vertex) {
            parts += 1;
        }
    }
    parts
}

/// How many parts the graph has.
pub fn part_count(graph: &Graph) -> usize
    ensures { HasParts (graph_in graph.now) result }
{
    parts_among(graph.vertices())
}
