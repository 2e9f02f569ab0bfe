//! Calls on graphs.

use crate::marks::Marks;
use hpr_graph::{Graph, Link};
use std::alloc::Global;

/// Makes the calls.
pub(crate) fn call(alloc: Global, marks: &mut Marks, graph: &Graph) -> Option<()> {
    let ordered = graph.in_order().ok()?;
    marks.ready()?;
    marks.after("Graph::empty", Graph::empty(alloc).vertex_count() == 0)?;
    marks.after("Graph::vertex_count", graph.vertex_count() == 11)?;
    marks.after("Graph::edge_count", graph.edge_count() > 10)?;
    marks.after("Graph::vertices", graph.vertices().len() == 11)?;
    marks.after("Graph::same", graph.same(&ordered))?;
    call_vertex(marks, graph)
}

fn call_vertex(marks: &mut Marks, graph: &Graph) -> Option<()> {
    if graph.vertex_count() <= 1 {
        return None;
    }
    let vertex = graph.vertex(1);
    marks.after("Graph::vertex", true)?;
    marks.after("Graph::number_of", graph.number_of(vertex) == Some(1))?;
    let links: &[Link] = graph.edges_into(1);
    marks.after("Graph::edges_into", links.len() > 0)?;
    let link = links.first()?;
    marks.after("Graph::is_link", graph.is_link(1, *link))
}
