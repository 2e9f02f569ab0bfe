//! The edges of a picture.
ghost use Rattle.std.specs.Prelude.{◌≡◌, ◌++◌, ◌<◌, ℕ, List, [], IfOk, OnOk, codes, length, unwrap_or};
ghost use Rattle.hpr_graph.specs.declared.vertex.Vertex.{Vertex};
ghost use Rattle.hpr_graph.specs.Graphs.{name_of};
ghost use Rattle.hpr_graph.specs.InOrder.{edge_of, edges_of, kind_of, name_at, row_edges, vertex_at};
ghost use Rattle.hpr_drawn.specs.Pictures.{drawn_line, edge_line, edges_text, is_drawn, labelled, look, name};

use crate::LeftOut;
use crate::nodes::{put_name, short_words_at};
use crate::put::{put, put_quoted};
use hpr_graph::{Graph, Kind, Link, LinkKind, NoMemory, Vertex};
use std::alloc::Global;

/// Puts the lines of the edges, vertex by vertex.
pub(crate) fn put_edges(
    alloc: Global,
    out: &mut Vec<u8>,
    graph: &Graph,
    left_out: LeftOut,
) -> Result<(), NoMemory>
    ensures { OnOk result (out.new.items ≡ out.old.items ++ edges_text left_out (edges_of graph.now)) }
{
    for to in 0..graph.vertices().len() {
        put_row(alloc, out, graph, to, left_out)?;
    }
    Ok(())
}

/// Puts the lines of the edges into one vertex.
fn put_row(
    alloc: Global,
    out: &mut Vec<u8>,
    graph: &Graph,
    to: usize,
    left_out: LeftOut,
) -> Result<(), NoMemory>
    requires { to < length graph.now.vertices }
    ensures { OnOk result (out.new.items ≡ out.old.items ++ edges_text left_out (row_edges graph.now to)) }
{
    for link in graph.edges_into(to) {
        put_drawn(alloc, out, graph, to, *link, left_out)?;
    }
    Ok(())
}

/// Puts the line of the edge that a link is, unless its kind is left out.
fn put_drawn(
    alloc: Global,
    out: &mut Vec<u8>,
    graph: &Graph,
    to: usize,
    link: Link,
    left_out: LeftOut,
) -> Result<(), NoMemory>
    ensures { OnOk result (out.new.items
        ≡ out.old.items ++ drawn_line left_out (edge_of graph.now.vertices to link)) }
{
    if is_drawn(left_out, link.kind) {
        put_edge(alloc, out, graph.vertices(), to, link)
    } else {
        Ok(())
    }
}

fn is_drawn(left_out: LeftOut, kind: LinkKind) -> bool
    ensures { (vs : List Vertex) (from : ℕ) → result ≡ is_drawn left_out (kind_of vs kind from) }
{
    match kind {
        LinkKind::Control(_) => !left_out.control,
        LinkKind::Independent | LinkKind::Carried(_) => !left_out.flow,
        LinkKind::Order(_) => !left_out.order,
    }
}

/// Puts the line of the edge that a link is.
fn put_edge(
    alloc: Global,
    out: &mut Vec<u8>,
    vertices: &[Vertex],
    to: usize,
    link: Link,
) -> Result<(), NoMemory>
    ensures { OnOk result (out.new.items ≡ out.old.items ++ edge_line (edge_of vertices.now to link)) }
{
    put_ends(alloc, out, vertices, link.from, to)?;
    put(out, " [")?;
    put_look(alloc, out, vertices, link)?;
    put(out, "]\n")
}

/// Puts the names of both ends.
fn put_ends(
    alloc: Global,
    out: &mut Vec<u8>,
    vertices: &[Vertex],
    from: usize,
    to: usize,
) -> Result<(), NoMemory>
    ensures { OnOk result (out.new.items ≡ out.old.items ++ (codes "  " ++ name (vertex_at vertices.now from)
        ++ codes " -> " ++ name (vertex_at vertices.now to))) }
{
    put(out, "  ")?;
    put_name_at(alloc, out, vertices, from)?;
    put(out, " -> ")?;
    put_name_at(alloc, out, vertices, to)
}

/// Puts the name of the vertex with this number. There is none past the last; definitions take Entry for it.
fn put_name_at(
    alloc: Global,
    out: &mut Vec<u8>,
    vertices: &[Vertex],
    at: usize,
) -> Result<(), NoMemory>
    ensures { OnOk result (out.new.items ≡ out.old.items ++ name (vertex_at vertices.now at)) }
{
    if at < vertices.len() {
        put_name(alloc, out, &vertices[at])
    } else {
        put(out, "\"entry\"")
    }
}

/// Puts how the edge that a link is looks, and what stands beside it.
fn put_look(
    alloc: Global,
    out: &mut Vec<u8>,
    vertices: &[Vertex],
    link: Link,
) -> Result<(), NoMemory>
    ensures { OnOk result (out.new.items
        ≡ out.old.items ++ look (kind_of vertices.now link.kind link.from)) }
{
    match link.kind {
        LinkKind::Control(true) => put(out, "weight=4"),
        LinkKind::Control(false) => put(out, "label=\" false\" weight=4"),
        LinkKind::Independent => put_flow(alloc, out, name_at(vertices, link.from)),
        LinkKind::Carried(by) => put_carried(alloc, out, vertices, link.from, by),
        LinkKind::Order(used) => put_order(alloc, out, vertices, used),
    }
}

/// Puts a text that stands beside an edge, and how the edge looks.
fn put_labelled(out: &mut Vec<u8>, text: &str, look: &str) -> Result<(), NoMemory>
    ensures { OnOk result (out.new.items ≡ out.old.items ++ (labelled text.now ++ look.now)) }
{
    put(out, "label=")?;
    put_quoted(out, text)?;
    put(out, look)
}

// Each of these puts how an edge of one kind looks.

fn put_flow(alloc: Global, out: &mut Vec<u8>, name: &str) -> Result<(), NoMemory>
    ensures { OnOk result (out.new.items ≡ out.old.items
        ++ (labelled (codes " " ++ name.now) ++ codes " color=blue fontcolor=blue weight=1")) }
{
    let text = format!(in alloc; " {name}")?;
    put_labelled(out, text.as_str(), " color=blue fontcolor=blue weight=1")
}

fn put_carried(
    alloc: Global,
    out: &mut Vec<u8>,
    vertices: &[Vertex],
    from: usize,
    by: usize,
) -> Result<(), NoMemory>
    ensures { OnOk result (out.new.items ≡ out.old.items
        ++ look (kind_of vertices.now (LinkKind.Carried by) from)) }
{
    let name = name_at(vertices, from);
    let words = short_words_at(alloc, vertices, by)?;
    let text = format!(in alloc; " {name} by {words}")?;
    put_labelled(
        out,
        text.as_str(),
        " color=blue fontcolor=blue style=dashed constraint=false",
    )
}

fn put_order(
    alloc: Global,
    out: &mut Vec<u8>,
    vertices: &[Vertex],
    used: usize,
) -> Result<(), NoMemory>
    ensures { OnOk result (out.new.items ≡ out.old.items
        ++ look (Kind.Order (vertex_at vertices.now used))) }
{
    let words = short_words_at(alloc, vertices, used)?;
    let text = format!(in alloc; " for {words}")?;
    put_labelled(
        out,
        text.as_str(),
        " color=gray70 fontcolor=gray55 style=dotted arrowsize=0.6 weight=0",
    )
}

/// The name that the vertex with this number defines, or nothing.
fn name_at(vertices: &[Vertex], at: usize) -> &str
    ensures { result.now ≡ name_at vertices.now at }
{
    if at < vertices.len() {
        name_in(&vertices[at])
    } else {
        ""
    }
}

/// The name that the vertex defines, or nothing.
fn name_in(vertex: &Vertex) -> &str
    ensures { result.now ≡ unwrap_or (name_of vertex.now) [] }
{
    match vertex.defines() {
        Some(name) => name.text(),
        None => "",
    }
}
