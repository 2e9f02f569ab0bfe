//! Calls of hpr_split.
ghost use Rattle.std.specs.Prelude.{IsTrue, Contains};
ghost use Rattle.hpr_graph.specs.declared.vertex.Vertex.{Vertex};
ghost use Rattle.hpr_graph.specs.Fits.{IsPart};
ghost use Rattle.hpr_graph.specs.Numbered.{HasVertex};

use crate::graph::{marks, put_rows, put_vertex, put_vertices};
use crate::orders::are_issued;
use crate::spelled::graph;
use hpr_graph::{Graph, Vertex};
use hpr_rows::{Out, Row, put_counted, put_tag, tag_of};
use hpr_split::{SplitTags, split};
use hpr_syntax::Issued;
use hpr_terms::{NoMemory, Tag};
use std::alloc::Global;

// Raises the number of an author to that of a tag.
fn raise(issued: &mut Issued, line: &str) -> Option<()> {
    let tag = tag_of(line)?;
    if tag.serial == 0 {
        return None;
    }
    issued.raise(tag.author, tag.serial).ok()
}

// The issued numbers of a text, the last tag of an author a line.
fn issued(alloc: Global, lines: &str) -> Option<Issued> {
    let mut issued = Issued::new(alloc);
    for line in lines.lines() {
        raise(&mut issued, line)?;
    }
    Some(issued)
}

// Whether the vertex is no part, or one that is listed.
fn is_listed(vertex: &Vertex, list: &Graph) -> bool
    ensures { IsTrue result → IsPart vertex.now → HasVertex list.now vertex.now }
{
    match vertex {
        Vertex::Part(_, _) => list.number_of(vertex).is_some(),
        _ => true,
    }
}

// Whether each part among the vertices is listed.
fn are_listed(vertices: &[Vertex], list: &Graph) -> bool
    ensures { IsTrue result → (v : Vertex) → Contains vertices.now v → IsPart v → HasVertex list.now v }
{
    for vertex in vertices {
        if !is_listed(vertex, list) {
            return false;
        }
    }
    true
}

// The graph with new tags for its parts that aren't kept, where the vertices of the list stand by their rank.
fn split_by(
    alloc: Global,
    graph: &Graph,
    list: &Graph,
    keep: &[bool],
    issued: &Issued,
) -> Result<Option<SplitTags>, NoMemory> {
    let rank = list.vertices();
    if keep.len() != graph.vertex_count() {
        return Err(NoMemory);
    }
    if !are_listed(graph.vertices(), list) || !are_issued(rank, issued) {
        return Err(NoMemory);
    }
    split(alloc, graph, keep, rank, issued)
}

fn put_renamed(alloc: Global, out: &mut Out, renamed: &[(Vertex, Tag)]) {
    for (vertex, tag) in renamed {
        put_vertex(alloc, out, vertex);
        out.put_piece(" gets ");
        put_tag(out, *tag);
        out.put_piece("\n");
    }
}

fn put_issued(out: &mut Out, issued: &Issued) {
    out.put_piece("issued");
    for (author, serial) in issued.rows() {
        put_counted(out, " ", *author as usize);
        put_counted(out, ":", *serial as usize);
    }
    out.put_piece("\n");
}

fn put_split(alloc: Global, out: &mut Out, tags: &SplitTags) {
    put_renamed(alloc, out, &tags.renamed);
    put_rows(alloc, out, &tags.graph);
    put_vertices(alloc, out, &tags.rank);
    put_issued(out, &tags.issued);
}

/// `split GRAPH LIST MARKS ISSUED`: the parts that get new tags, the graph by numbers, the rank and the
/// issued numbers, where the vertices of the list stand by their rank.
pub(crate) fn call(row: Row<'_>, out: &mut Out) -> Option<()> {
    let list = graph(row, 3)?;
    let graph = graph(row, 2)?;
    let keep = marks(row.alloc, row.word(4)?)?;
    let issued = issued(row.alloc, row.text(5)?)?;
    match split_by(row.alloc, &graph, &list, &keep, &issued).ok()? {
        Some(tags) => put_split(row.alloc, out, &tags),
        None => out.put_piece("too many serials\n"),
    }
    Some(())
}
