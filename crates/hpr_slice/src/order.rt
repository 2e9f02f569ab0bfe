//! An order of the vertices in which a sweep over the edges comes far.
use crate::slices::unmarked;
use crate::sources::is_followed;
use hpr_graph::{Graph, NoMemory};
use hpr_search::is_marked;
use std::alloc::Global;

/// The vertices, by their numbers, each in front of those from which control and flow edges lead to it, as far
/// as edges don't go round in a circle. Goes once along each edge, back from its target, and puts a vertex at
/// the end once all from which edges lead to it are there; this list is turned.
///
/// No contract says so: whoever takes this order looks for himself that no vertex is left out, and is only
/// faster for it.
pub(crate) fn targets_first(alloc: Global, graph: &Graph) -> Result<Vec<usize>, NoMemory> {
    let mut seen = unmarked(alloc, graph.vertex_count())?;
    let mut order = Vec::with_capacity(alloc, graph.vertex_count())?;
    for start in 0..graph.vertex_count() {
        go_back(alloc, graph, start, &mut seen, &mut order)?;
    }
    order.reverse();
    Ok(order)
}

/// Puts the vertices that are come to from this one back along edges, and aren't yet seen, at the end of the
/// order, each behind those from which edges lead to it.
fn go_back(
    alloc: Global,
    graph: &Graph,
    start: usize,
    seen: &mut Vec<bool>,
    order: &mut Vec<usize>,
) -> Result<(), NoMemory> {
    let mut way = Vec::new(alloc);
    enter(start, seen, &mut way)?;
    for _ in 0..usize::MAX {
        let Some((at, next)) = way.pop() else {
            return Ok(());
        };
        match source_at(graph, at, next) {
            Some((source, later)) => {
                way.push((at, later))?;
                enter(source, seen, &mut way)?;
            }
            None => order.push(at)?,
        }
    }
    Ok(())
}

/// Puts a vertex that isn't seen at the end of the way, with the place of its first edge.
fn enter(at: usize, seen: &mut Vec<bool>, way: &mut Vec<(usize, usize)>) -> Result<(), NoMemory> {
    if at < seen.len() && !is_marked(seen, at) {
        seen[at] = true;
        way.push((at, 0))?;
    }
    Ok(())
}

/// Where the edge at this place among those into the vertex comes from, and the place behind it; none past the
/// last. A slice doesn't follow order edges: such an edge counts as one from the vertex itself.
fn source_at(graph: &Graph, at: usize, place: usize) -> Option<(usize, usize)> {
    if at >= graph.vertex_count() {
        return None;
    }
    let links = graph.edges_into(at);
    if place >= links.len() {
        return None;
    }
    let link = links[place];
    let source = if is_followed(link.kind) {
        link.from
    } else {
        at
    };
    Some((source, place + 1))
}
