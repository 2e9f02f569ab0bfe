//! Calls that make the answers of graphs.
ghost use Rattle.std.specs.Prelude.{◌↔◌, ◌<◌, length, All, IsTrue};

use crate::put::put_value;
use hpr_build::graph_of;
use hpr_graph::{Edge, Graph, ManyConflict};
use hpr_json::{conflicts_value, graph_value, points_value};
use hpr_rows::{Out, Row};
use std::alloc::Global;

/// Answers the call: `graph conflicts TEXT TO`: each edge of the program's graph into the vertex with this
/// number shows a conflict at that vertex, of the variants from 1 on; `graph points TEXT NUMBER..`: the
/// vertices with these numbers, as affected points; `graph whole TEXT`: the graph.
pub(crate) fn call(row: Row<'_>, out: &mut Out) -> Option<()> {
    let graph = graph_of(row.alloc, &row.program(2)?, 1000).ok()?;
    match row.word(1)? {
        "conflicts" => put_conflicts(row.alloc, out, &graph, row.number(3)?),
        "points" => put_points(row.alloc, out, &graph, &numbers(row, 3)?),
        "whole" => {
            put_value(row.alloc, out, graph_value(row.alloc, &graph));
            Some(())
        }
        _ => None,
    }
}

fn numbers(row: Row<'_>, from: usize) -> Option<Vec<usize>> {
    let mut numbers = Vec::new(row.alloc);
    for word in row.rest(from) {
        numbers.push(word.parse().ok()?).ok()?;
    }
    Some(numbers)
}

fn are_below(points: &[usize], count: usize) -> bool
    ensures { IsTrue result ↔ All (λ p. p < count) points.now }
{
    points.iter().all(|point| *point < count)
}

fn put_points(alloc: Global, out: &mut Out, graph: &Graph, points: &[usize]) -> Option<()> {
    if !are_below(points, graph.vertex_count()) {
        return None;
    }
    put_value(alloc, out, points_value(alloc, graph, points));
    Some(())
}

fn put_conflicts(alloc: Global, out: &mut Out, graph: &Graph, to: usize) -> Option<()> {
    if to >= graph.vertex_count() {
        return None;
    }
    let conflicts = conflicts_into(alloc, graph, to)?;
    put_value(alloc, out, conflicts_value(alloc, &conflicts));
    Some(())
}

fn conflict(alloc: Global, variant: usize, edge: Edge) -> Option<ManyConflict> {
    let point = edge.to.copy(alloc).ok()?;
    Some(ManyConflict {
        variant,
        point,
        edge,
    })
}

fn conflicts_into(alloc: Global, graph: &Graph, to: usize) -> Option<Vec<ManyConflict>>
    requires { to < length graph.now.vertices }
{
    let mut conflicts = Vec::new(alloc);
    for link in graph.edges_into(to) {
        let edge = graph.edge(to, *link).ok()?;
        conflicts
            .push(conflict(alloc, conflicts.len() + 1, edge)?)
            .ok()?;
    }
    Some(conflicts)
}
