//! Calls of hpr_rebuild that tell how many tries a search made, and its first clash.
ghost use Rattle.std.specs.Prelude.{◌≤◌};

use crate::graph::put_vertex;
use crate::orders::{are_issued, issued_of};
use hpr_graph::{Graph, Vertex};
use hpr_rebuild::{FirstClash, Rebuilt, first_clash, rebuild_counted};
use hpr_rows::{Out, Row, put_count};
use hpr_syntax::Issued;
use hpr_terms::NoMemory;
use std::alloc::Global;

fn counted(alloc: Global, graph: &Graph, issued: &Issued, tries: u64) -> Result<Rebuilt, NoMemory>
    requires { 1 ≤ tries }
{
    if are_issued(graph.vertices(), issued) {
        return rebuild_counted(alloc, graph, graph.vertices(), issued, tries);
    }
    Err(NoMemory)
}

fn put_outcome(out: &mut Out, outcome: &Rebuilt) {
    match outcome {
        Rebuilt::Found(_, leaf) => put_count(out, "found at try ", *leaf),
        Rebuilt::NoProgram(leaves) => put_count(out, "no program, tries ", *leaves),
        Rebuilt::Spent => out.put_piece("spent\n"),
    }
}

// `tries GRAPH TRIES`: at which try a program is found, or after how many none is.
pub(crate) fn tries_made(row: Row<'_>, out: &mut Out, graph: &Graph) -> Option<()> {
    let tries = row.count(3)?;
    if tries == 0 {
        return None;
    }
    let issued = issued_of(row.alloc, graph)?;
    let outcome = counted(row.alloc, graph, &issued, tries).ok()?;
    put_outcome(out, &outcome);
    Some(())
}

fn clash_in(alloc: Global, graph: &Graph, issued: &Issued) -> Result<Option<FirstClash>, NoMemory> {
    if are_issued(graph.vertices(), issued) {
        return first_clash(alloc, graph, graph.vertices(), issued);
    }
    Err(NoMemory)
}

fn put_numbered(alloc: Global, out: &mut Out, vertices: &[Vertex], number: usize) -> Option<()> {
    put_vertex(alloc, out, vertices.get(number)?);
    out.put_piece("\n");
    Some(())
}

fn put_clash(alloc: Global, out: &mut Out, vertices: &[Vertex], clash: &FirstClash) -> Option<()> {
    for number in &clash.front {
        put_numbered(alloc, out, vertices, *number)?;
    }
    out.put_piece("clash ");
    put_numbered(alloc, out, vertices, clash.part)
}

// `clash GRAPH`: the first leaf, and its last part where that clashes with those before it.
pub(crate) fn clash(row: Row<'_>, out: &mut Out, graph: &Graph) -> Option<()> {
    let issued = issued_of(row.alloc, graph)?;
    match clash_in(row.alloc, graph, &issued).ok()? {
        Some(clash) => put_clash(row.alloc, out, graph.vertices(), &clash),
        None => {
            out.put_piece("no clash\n");
            Some(())
        }
    }
}
