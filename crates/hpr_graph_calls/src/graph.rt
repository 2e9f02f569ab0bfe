//! Calls of hpr_graph and hpr_build on graphs, with their reports.
ghost use Rattle.std.specs.Prelude.{◌<◌, length};

use crate::spelled::{draft, graph, graphs, link, vertex};
use hpr_build::{BuildError, graph_of};
use hpr_closure::counts_at;
use hpr_graph::links::is_inside;
use hpr_graph::{Draft, Graph, Link, LinkKind, Vertex, compare_vertices, place_of, same_vertex};
use hpr_report::{graph_json, graph_text};
use hpr_rows::{
    Out, Row, order_word, put, put_content, put_count, put_counted, put_made, put_tag, truth,
};
use hpr_syntax::{Content, Program};
use hpr_terms::{NoMemory, Tag};
use std::alloc::Global;

/// Answers the call.
pub(crate) fn call(row: Row<'_>, out: &mut Out) -> Option<()> {
    match row.word(1)? {
        "build" => build(row, out),
        "add" => add(row, out),
        "draft" => finished(row, out),
        "compare" => compare(row, out),
        "union" | "same" => both(row, out),
        _ => one(row, out),
    }
}

// The calls of one graph.
fn one(row: Row<'_>, out: &mut Out) -> Option<()> {
    let graph = graph(row, 2)?;
    match row.word(1)? {
        "links" => are_links(row, out, &graph),
        "keep" => keep(row, out, &graph),
        "places" => places(row, out, &graph),
        "inside" => are_inside(row, out),
        _ => shown(row, out, &graph),
    }
}

// The calls that show one graph.
fn shown(row: Row<'_>, out: &mut Out, graph: &Graph) -> Option<()> {
    match row.word(1)? {
        "text" => put_graph(row.alloc, out, graph),
        "json" => put_made(out, graph_json(row.alloc, graph)),
        "rows" => put_rows(row.alloc, out, graph),
        "counts" => put_counting(out, graph),
        _ => put_ordered(row.alloc, out, graph),
    }
    Some(())
}

fn put_row_counting(out: &mut Out, row: &[Link], to: usize) {
    for link in row {
        put_counted(out, " ", counts_at(link.kind, to));
    }
}

// Puts the vertices at which the edges count, target by target.
fn put_counting(out: &mut Out, graph: &Graph) {
    out.put_piece("counts");
    for to in 0..graph.vertex_count() {
        put_row_counting(out, graph.edges_into(to), to);
    }
    out.put_piece("\n");
}

fn put_ordered(alloc: Global, out: &mut Out, graph: &Graph) {
    match graph.in_order() {
        Ok(ordered) => put_rows(alloc, out, &ordered),
        Err(_) => out.cut(),
    }
}

/// Puts the text of a graph.
pub(crate) fn put_graph(alloc: Global, out: &mut Out, graph: &Graph) {
    put_made(out, graph_text(alloc, graph));
}

fn put_part(alloc: Global, out: &mut Out, tag: Tag, content: &Content) {
    out.put_piece("part ");
    put_tag(out, tag);
    out.put_piece(" ");
    put_content(alloc, out, content);
}

/// Puts a vertex as a row spells it.
pub(crate) fn put_vertex(alloc: Global, out: &mut Out, vertex: &Vertex) {
    match vertex {
        Vertex::Entry => out.put_piece("entry"),
        Vertex::Init(name) => put(out, &["init ", name.text()]),
        Vertex::Part(tag, content) => put_part(alloc, out, *tag, content),
        Vertex::Final(name) => put(out, &["final ", name.text()]),
    }
}

/// Puts vertices, one a line.
pub(crate) fn put_vertices(alloc: Global, out: &mut Out, vertices: &[Vertex]) {
    for vertex in vertices {
        put_vertex(alloc, out, vertex);
        out.put_piece("\n");
    }
}

fn put_kind(out: &mut Out, kind: LinkKind) {
    match kind {
        LinkKind::Control(label) => put(out, &[" control ", truth(label)]),
        LinkKind::Independent => out.put_piece(" independent"),
        LinkKind::Carried(by) => put_counted(out, " carried ", by),
        LinkKind::Order(used) => put_counted(out, " order ", used),
    }
}

fn put_links(out: &mut Out, links: &[Link]) {
    for link in links {
        put_counted(out, ", ", link.from);
        put_kind(out, link.kind);
    }
    out.put_piece("\n");
}

// Puts the vertex with this number, and the edges into it.
fn put_row(alloc: Global, out: &mut Out, graph: &Graph, at: usize)
    requires { at < length graph.now.vertices }
{
    put_vertex(alloc, out, graph.vertex(at));
    put_links(out, graph.edges_into(at));
}

/// Puts each vertex in the order of the numbers, with the edges into it by numbers.
pub(crate) fn put_rows(alloc: Global, out: &mut Out, graph: &Graph) {
    for at in 0..graph.vertex_count() {
        put_row(alloc, out, graph, at);
    }
}

/// Puts how large a graph is.
pub(crate) fn put_counts(out: &mut Out, graph: &Graph) {
    put_counted(out, "vertices ", graph.vertex_count());
    put_count(out, ", edges ", graph.edge_count() as u64);
}

fn put_built(alloc: Global, out: &mut Out, program: &Program, most: usize) {
    match graph_of(alloc, program, most) {
        Ok(graph) => put_counts(out, &graph),
        Err(BuildError::TooManyEdges) => out.put_piece("too many edges\n"),
        Err(BuildError::Memory) => out.cut(),
    }
}

// `build PROGRAM MOST`: the size of a graph that may have so many edges.
fn build(row: Row<'_>, out: &mut Out) -> Option<()> {
    let most = row.number(3)?;
    let program = row.program(2)?;
    put_built(row.alloc, out, &program, most);
    Some(())
}

fn add_vertex(alloc: Global, out: &mut Out, draft: &mut Draft, line: &str) -> Option<()> {
    let number = draft.add_vertex(vertex(alloc, line)?).ok()?;
    put_counted(out, " ", number);
    Some(())
}

fn add_vertices(alloc: Global, out: &mut Out, draft: &mut Draft, lines: &str) -> Option<()> {
    out.put_piece("numbers");
    for line in lines.lines() {
        add_vertex(alloc, out, draft, line)?;
    }
    out.put_piece(", ");
    put_draft_counts(out, draft);
    Some(())
}

// `add VERTICES`: the numbers of vertices that are added to an empty draft, and its size.
fn add(row: Row<'_>, out: &mut Out) -> Option<()> {
    let lines = row.text(2)?;
    let mut draft = Draft::empty(row.alloc);
    add_vertices(row.alloc, out, &mut draft, lines)
}

fn is_link(out: &mut Out, graph: &Graph, line: &str) -> Option<()> {
    let (to, link) = link(line)?;
    put(out, &[" ", truth(graph.is_link(to, link))]);
    Some(())
}

// `links GRAPH LINKS`: which links are edges between vertices of the graph.
fn are_links(row: Row<'_>, out: &mut Out, graph: &Graph) -> Option<()> {
    let lines = row.text(3)?;
    out.put_piece("links");
    for line in lines.lines() {
        is_link(out, graph, line)?;
    }
    out.put_piece("\n");
    Some(())
}

fn put_draft_counts(out: &mut Out, draft: &Draft) {
    put_counted(out, "vertices ", draft.vertices().len());
    put_count(out, ", edges ", draft.edge_count() as u64);
}

// Puts the size of a draft, and the edges into each vertex in the order of adding.
fn put_draft(out: &mut Out, draft: &Draft) {
    put_draft_counts(out, draft);
    for at in 0..draft.vertex_count() {
        put_counted(out, "into ", at);
        put_links(out, draft.edges_into(at));
    }
}

// `draft GRAPH`: the edges into each vertex in the order of adding, and as the finished graph has them.
fn finished(row: Row<'_>, out: &mut Out) -> Option<()> {
    let draft = draft(row.alloc, row.text(2)?)?;
    put_draft(out, &draft);
    put_rows(row.alloc, out, &draft.finish());
    Some(())
}

/// The marks that a word spells, a digit a mark.
pub(crate) fn marks(alloc: Global, word: &str) -> Option<Vec<bool>> {
    let mut marks = Vec::new(alloc);
    for byte in word.as_bytes() {
        marks.push(*byte == b'1').ok()?;
    }
    Some(marks)
}

fn put_kept(alloc: Global, out: &mut Out, graph: &Graph, marks: &[bool]) {
    if marks.len() == graph.vertex_count() {
        put_new(alloc, out, graph.restrict(marks));
    }
}

/// Puts the text of a graph that was made.
pub(crate) fn put_new(alloc: Global, out: &mut Out, made: Result<Graph, NoMemory>) {
    match made {
        Ok(graph) => put_graph(alloc, out, &graph),
        Err(_) => out.cut(),
    }
}

/// Puts the number of a vertex, if it has one.
pub(crate) fn put_number(out: &mut Out, number: Option<usize>) {
    match number {
        Some(at) => put_counted(out, " ", at),
        None => out.put_piece(" none"),
    }
}

fn put_place(alloc: Global, out: &mut Out, graph: &Graph, line: &str) -> Option<()> {
    put_number(out, place_of(graph.vertices(), &vertex(alloc, line)?));
    Some(())
}

// `places GRAPH VERTICES`: where vertices stand in the list of those of the graph.
fn places(row: Row<'_>, out: &mut Out, graph: &Graph) -> Option<()> {
    let lines = row.text(3)?;
    out.put_piece("places");
    for line in lines.lines() {
        put_place(row.alloc, out, graph, line)?;
    }
    out.put_piece("\n");
    Some(())
}

fn put_inside(out: &mut Out, line: &str, marks: &[bool]) -> Option<()> {
    let (_, link) = link(line)?;
    put(out, &[" ", truth(is_inside(link, marks))]);
    Some(())
}

// `inside GRAPH LINKS MARKS`: whether all vertices of the links but their targets are marked.
fn are_inside(row: Row<'_>, out: &mut Out) -> Option<()> {
    let lines = row.text(3)?;
    let marks = marks(row.alloc, row.word(4)?)?;
    out.put_piece("inside");
    for line in lines.lines() {
        put_inside(out, line, &marks)?;
    }
    out.put_piece("\n");
    Some(())
}

// `keep GRAPH MARKS`: the graph of the marked vertices.
fn keep(row: Row<'_>, out: &mut Out, graph: &Graph) -> Option<()> {
    let marks = marks(row.alloc, row.word(3)?)?;
    put_kept(row.alloc, out, graph, &marks);
    Some(())
}

fn put_same(out: &mut Out, one: &Graph, other: &Graph) {
    let there = truth(one.same(other));
    let back = truth(other.same(one));
    put(out, &["same ", there, " ", back, "\n"]);
}

fn of_two(row: Row<'_>, out: &mut Out, graphs: &[Graph]) -> Option<()> {
    let [one, other] = graphs else {
        return None;
    };
    match row.word(1)? {
        "same" => put_same(out, one, other),
        _ => put_new(row.alloc, out, one.union(other)),
    }
    Some(())
}

// `union GRAPH GRAPH`: both together; `same GRAPH GRAPH`: whether both have the same vertices and edges.
fn both(row: Row<'_>, out: &mut Out) -> Option<()> {
    let graphs = graphs(row, 2, 4)?;
    of_two(row, out, &graphs)
}

fn push_vertex(alloc: Global, vertices: &mut Vec<Vertex>, line: &str) -> Option<()> {
    vertices.push(vertex(alloc, line)?).ok()
}

fn vertices(alloc: Global, lines: &str) -> Option<Vec<Vertex>> {
    let mut vertices = Vec::new(alloc);
    for line in lines.lines() {
        push_vertex(alloc, &mut vertices, line)?;
    }
    Some(vertices)
}

fn is_copied(alloc: Global, one: &Vertex, other: &Vertex) -> bool {
    match one.copy(alloc) {
        Ok(copy) => same_vertex(&copy, other),
        Err(_) => false,
    }
}

fn put_order(alloc: Global, out: &mut Out, one: &Vertex, other: &Vertex) {
    let order = order_word(compare_vertices(one, other));
    let sign = if is_copied(alloc, one, other) {
        "same"
    } else {
        order
    };
    put(out, &[" ", sign]);
}

fn put_orders(alloc: Global, out: &mut Out, one: &Vertex, others: &[Vertex]) {
    for other in others {
        put_order(alloc, out, one, other);
    }
    out.put_piece("\n");
}

fn put_all_orders(alloc: Global, out: &mut Out, vertices: &[Vertex]) {
    for one in vertices {
        put_orders(alloc, out, one, vertices);
    }
}

// `compare VERTICES`: for each vertex how it stands to each of them.
fn compare(row: Row<'_>, out: &mut Out) -> Option<()> {
    let vertices = vertices(row.alloc, row.text(2)?)?;
    put_all_orders(row.alloc, out, &vertices);
    Some(())
}
