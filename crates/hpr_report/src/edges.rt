//! The edges of a graph line by line, from the text of each vertex.
ghost use Rattle.std.specs.Prelude.{◌≡◌, ◌++◌, ◌<◌, [], length, map, unwrap_or, IfOk, OnOk, codes, string_bytes};
ghost use Rattle.hpr_graph.specs.declared.vertex.Vertex.{Vertex};
ghost use Rattle.hpr_graph.specs.Graphs.{name_of};
ghost use Rattle.hpr_graph.specs.InOrder.{edge_of, edges_of, kind_of, name_at, row_edges, vertex_at};
ghost use Rattle.hpr_report.specs.EdgeParts.{kind_head, kind_tail};
ghost use Rattle.hpr_report.specs.GraphTexts.{edge_text, label_word, on_lines, vertex_text};
ghost use Rattle.hpr_report.specs.VertexTexts.{AreTexts};

use crate::graphs::{bracketed, put_line};
use hpr_graph::{Graph, Link, LinkKind, NoMemory, Vertex};
use std::alloc::Global;

/// A graph with the text of each of its vertices, in brackets.
#[derive(Drop)]
pub(crate) struct VertexTexts<'a> {
    pub(crate) graph: &'a Graph,
    pub(crate) texts: Vec<String>,
}

/// The text of each vertex.
fn texts(alloc: Global, vertices: &[Vertex]) -> Result<Vec<String>, NoMemory>
    ensures { IfOk result (λ texts. map string_bytes texts.items ≡ map vertex_text vertices.now) }
{
    let mut texts = Vec::new(alloc);
    for vertex in vertices {
        texts.push(bracketed(alloc, vertex)?)?;
    }
    Ok(texts)
}

/// The graph with the text of each of its vertices.
pub(crate) fn texts_of(alloc: Global, graph: &Graph) -> Result<VertexTexts<'_>, NoMemory>
    ensures texts { IfOk result AreTexts }
    ensures graph { IfOk result (λ of. of.graph.now ≡ graph.now) }
{
    let texts = texts(alloc, graph.vertices())?;
    Ok(VertexTexts { graph, texts })
}

/// Puts a line for each vertex.
pub(crate) fn put_texts(out: &mut Vec<u8>, of: &VertexTexts) -> Result<(), NoMemory>
    requires { AreTexts of.now }
    ensures { OnOk result (out.new.items ≡ out.old.items ++ on_lines (map vertex_text of.now.graph.now.vertices)) }
{
    put_lines(out, &of.texts)
}

/// Puts a line for each text.
fn put_lines(out: &mut Vec<u8>, texts: &[String]) -> Result<(), NoMemory>
    ensures { OnOk result (out.new.items ≡ out.old.items ++ on_lines (map string_bytes texts.now)) }
{
    for text in texts {
        put_line(out, text.as_str())?;
    }
    Ok(())
}

/// The text of the vertex with this number. There is none past the last; definitions take Entry for it.
fn text_at<'a>(of: &'a VertexTexts, at: usize) -> &'a str
    requires { AreTexts of.now }
    ensures { result.now ≡ vertex_text (vertex_at of.now.graph.now.vertices at) }
{
    if at < of.texts.len() {
        of.texts[at].as_str()
    } else {
        "[entry]"
    }
}

/// The name that the vertex defines, or nothing.
fn name_in(vertex: &Vertex) -> &str
    ensures { result.now ≡ unwrap_or (name_of vertex.now) [] }
{
    match vertex.defines() {
        Some(name) => name.text(),
        None => "",
    }
}

/// The name that the vertex with this number defines, or nothing.
fn name_at(vertices: &[Vertex], at: usize) -> &str
    ensures { result.now ≡ name_at vertices.now at }
{
    if at < vertices.len() {
        name_in(&vertices[at])
    } else {
        ""
    }
}

fn label_word(label: bool) -> &'static str
    ensures { result.now ≡ label_word label }
{
    if label { "true" } else { "false" }
}

fn put(out: &mut Vec<u8>, text: &str) -> Result<(), NoMemory>
    ensures { OnOk result (out.new.items ≡ out.old.items ++ text.now) }
{
    out.extend_from_slice(text.as_bytes())?;
    Ok(())
}

/// Puts a word and a text.
fn put_both(out: &mut Vec<u8>, word: &str, text: &str) -> Result<(), NoMemory>
    ensures { OnOk result (out.new.items ≡ out.old.items ++ (word.now ++ text.now)) }
{
    put(out, word)?;
    put(out, text)
}

/// Puts a word, a text and a blank.
fn put_spaced(out: &mut Vec<u8>, word: &str, text: &str) -> Result<(), NoMemory>
    ensures { OnOk result (out.new.items ≡ out.old.items ++ (word.now ++ text.now ++ codes " ")) }
{
    put_both(out, word, text)?;
    put(out, " ")
}

/// Puts what stands before the ends of an edge.
fn put_head(out: &mut Vec<u8>, vertices: &[Vertex], link: Link) -> Result<(), NoMemory>
    ensures { OnOk result (out.new.items ≡ out.old.items ++ kind_head (kind_of vertices.now link.kind link.from)) }
{
    match link.kind {
        LinkKind::Control(label) => put_spaced(out, "control ", label_word(label)),
        LinkKind::Independent => put_spaced(out, "flow ", name_at(vertices, link.from)),
        LinkKind::Carried(_) => put_spaced(out, "carried ", name_at(vertices, link.from)),
        LinkKind::Order(_) => put(out, "order "),
    }
}

/// Puts what stands behind the ends of an edge.
fn put_tail(out: &mut Vec<u8>, of: &VertexTexts, link: Link) -> Result<(), NoMemory>
    requires { AreTexts of.now }
    ensures { OnOk result (out.new.items ≡ out.old.items
        ++ kind_tail (kind_of of.now.graph.now.vertices link.kind link.from)) }
{
    match link.kind {
        LinkKind::Control(_) | LinkKind::Independent => Ok(()),
        LinkKind::Carried(w) => put_both(out, " by ", text_at(of, w)),
        LinkKind::Order(user) => put_both(out, " for ", text_at(of, user)),
    }
}

/// Puts the edge that a link into the vertex with the number `to` is.
fn put_link(out: &mut Vec<u8>, of: &VertexTexts, to: usize, link: Link) -> Result<(), NoMemory>
    requires { AreTexts of.now }
    ensures { OnOk result (out.new.items ≡ out.old.items
        ++ edge_text (edge_of of.now.graph.now.vertices to link)) }
{
    put_head(out, of.graph.vertices(), link)?;
    put(out, text_at(of, link.from))?;
    put_both(out, " -> ", text_at(of, to))?;
    put_tail(out, of, link)
}

/// Puts the line of the edge that a link is.
fn put_link_line(out: &mut Vec<u8>, of: &VertexTexts, to: usize, link: Link) -> Result<(), NoMemory>
    requires { AreTexts of.now }
    ensures { OnOk result (out.new.items ≡ out.old.items
        ++ (edge_text (edge_of of.now.graph.now.vertices to link) ++ codes "\n")) }
{
    put_link(out, of, to, link)?;
    put(out, "\n")
}

/// Puts a line for each edge into one vertex.
fn put_row(out: &mut Vec<u8>, of: &VertexTexts, to: usize) -> Result<(), NoMemory>
    requires texts { AreTexts of.now }
    requires to { to < length of.now.graph.now.vertices }
    ensures { OnOk result (out.new.items ≡ out.old.items
        ++ on_lines (map edge_text (row_edges of.now.graph.now to))) }
{
    for link in of.graph.edges_into(to) {
        put_link_line(out, of, to, *link)?;
    }
    Ok(())
}

/// Puts a line for each edge, vertex by vertex.
pub(crate) fn put_edges(out: &mut Vec<u8>, of: &VertexTexts) -> Result<(), NoMemory>
    requires { AreTexts of.now }
    ensures { OnOk result (out.new.items ≡ out.old.items ++ on_lines (map edge_text (edges_of of.now.graph.now))) }
{
    for to in 0..of.graph.vertices().len() {
        put_row(out, of, to)?;
    }
    Ok(())
}
