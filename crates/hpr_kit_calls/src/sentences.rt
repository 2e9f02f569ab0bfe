//! Calls of hpr_conflicts on edges.
use crate::spelled::{edges, vertices};
use hpr_conflicts::sentence;
use hpr_graph::{Edge, Vertex};
use hpr_rows::{Out, Row};
use std::alloc::Global;

fn references(alloc: Global, vertices: &[Vertex]) -> Option<Vec<&Vertex>> {
    let mut found = Vec::new(alloc);
    for vertex in vertices {
        found.push(vertex).ok()?;
    }
    Some(found)
}

fn put_sentence(alloc: Global, out: &mut Out, file: &str, edge: &Edge, points: &[&Vertex]) {
    match sentence(alloc, file, edge, points) {
        Ok(said) => out.put_piece(said.as_str()),
        Err(_) => out.cut(),
    }
    out.put_piece("\n");
}

/// Answers the call `sentence EDGES FILE VERTICES`: what each edge means beside the changes of the file, and that it
/// matters to these points.
pub(crate) fn call(row: Row<'_>, out: &mut Out) -> Option<()> {
    let file = row.word(3)?;
    let vertices = vertices(row, 4)?;
    let points = references(row.alloc, &vertices)?;
    for edge in edges(row, 2)?.iter() {
        put_sentence(row.alloc, out, file, edge, &points);
    }
    Some(())
}
