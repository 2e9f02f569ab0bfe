//! Vertices, edges and graphs.
ghost use Rattle.std.specs.Prelude.{◌≡◌, ◌++◌, ◌<◌, length, map, IfOk, OnOk, codes, string_bytes};
ghost use Rattle.std.specs.Fmt.{decimal};
ghost use Rattle.hpr_terms.specs.Texts.{tag_text};
ghost use Rattle.hpr_syntax.specs.Print.{content_text};
ghost use Rattle.hpr_graph.specs.InOrder.{edges_of};
ghost use Rattle.hpr_graph.specs.Numbered.{graph_in};
ghost use Rattle.hpr_report.specs.EdgeParts.{kind_head, kind_tail};
ghost use Rattle.hpr_report.specs.GraphTexts.{vertex_words, vertex_text, edge_text, graph_text, on_lines, IsGraphText};
ghost use Rattle.hpr_report.specs.VertexTexts.{AreTexts};

use crate::edges::{VertexTexts, put_edges, put_texts, texts_of};
use hpr_graph::{Content, Edge, Graph, Kind, NoMemory, Tag, Vertex};
use hpr_print::content_text;
use std::alloc::{AllocError, Global};

/// A vertex in brackets: `[entry]`, `[init NAME]`, `[final NAME]`, and for a part its tag and what it
/// says, as `[1.2 x := 1]`. It fails only for want of memory.
pub fn vertex_text(alloc: Global, vertex: &Vertex) -> Result<Vec<u8>, NoMemory>
    ensures { IfOk result (λ text. text.items ≡ vertex_text vertex.now) }
{
    Ok(bracketed(alloc, vertex)?.into_bytes())
}

/// A vertex in brackets.
pub(crate) fn bracketed(alloc: Global, vertex: &Vertex) -> Result<String, NoMemory>
    ensures { IfOk result (λ text. string_bytes text ≡ vertex_text vertex.now) }
{
    let mut text = String::new(alloc);
    put_vertex(alloc, &mut text, vertex)?;
    Ok(text)
}

/// Puts a vertex in brackets behind a text.
fn put_vertex(alloc: Global, text: &mut String, vertex: &Vertex) -> Result<(), NoMemory>
    ensures { OnOk result (string_bytes text.new ≡ string_bytes text.old ++ vertex_text vertex.now) }
{
    let words = vertex_words(alloc, vertex)?;
    Ok(write!(text, "[{words}]")?)
}

/// Puts a word and a vertex in brackets behind a text.
pub(crate) fn put_behind(
    alloc: Global,
    text: &mut String,
    word: &str,
    vertex: &Vertex,
) -> Result<(), NoMemory>
    ensures { OnOk result (string_bytes text.new ≡ string_bytes text.old ++ (word.now ++ vertex_text vertex.now)) }
{
    text.push_str(word)?;
    put_vertex(alloc, text, vertex)
}

/// What a vertex is, as [`vertex_text`] has it between the brackets. It fails only for want of memory.
pub fn vertex_words(alloc: Global, vertex: &Vertex) -> Result<String, NoMemory>
    ensures { IfOk result (λ text. string_bytes text ≡ vertex_words vertex.now) }
{
    match vertex {
        Vertex::Entry => Ok(String::from_str(alloc, "entry")?),
        Vertex::Init(name) => Ok(format!(in alloc; "init {name}")?),
        Vertex::Part(tag, content) => part_words(alloc, tag, content),
        Vertex::Final(name) => Ok(format!(in alloc; "final {name}")?),
    }
}

/// The tag of a part and what it says.
fn part_words(alloc: Global, tag: &Tag, content: &Content) -> Result<String, NoMemory>
    ensures { IfOk result (λ text. string_bytes text ≡ tag_text tag.now ++ codes " " ++ content_text content.now) }
{
    let content = content_words(alloc, content)?;
    Ok(format!(in alloc; "{tag} {content}")?)
}

/// What a part says.
fn content_words(alloc: Global, content: &Content) -> Result<String, NoMemory>
    ensures { IfOk result (λ text. string_bytes text ≡ content_text content.now) }
{
    match String::from_utf8(content_text(alloc, content)?) {
        Ok(text) => Ok(text),
        Err(_) => unreachable!(),
    }
}

/// An edge from its source to its target, each in brackets: `control LABEL FROM -> TO`,
/// `flow NAME FROM -> TO`, `carried NAME FROM -> TO by LOOP`, `order FROM -> TO for USE`. It fails only
/// for want of memory.
pub fn edge_text(alloc: Global, edge: &Edge) -> Result<Vec<u8>, NoMemory>
    ensures { IfOk result (λ text. text.items ≡ edge_text edge.now) }
{
    Ok(edge_words(alloc, edge)?.into_bytes())
}

/// The same text of an edge as a string. It fails only for want of memory.
pub fn edge_words(alloc: Global, edge: &Edge) -> Result<String, NoMemory>
    ensures { IfOk result (λ text. string_bytes text ≡ edge_text edge.now) }
{
    let mut text = String::new(alloc);
    put_edge(alloc, &mut text, edge)?;
    Ok(text)
}

/// Puts an edge behind a text.
pub(crate) fn put_edge(alloc: Global, text: &mut String, edge: &Edge) -> Result<(), NoMemory>
    ensures { OnOk result (string_bytes text.new ≡ string_bytes text.old ++ edge_text edge.now) }
{
    put_head(text, &edge.kind)?;
    put_vertex(alloc, text, &edge.from)?;
    put_behind(alloc, text, " -> ", &edge.to)?;
    put_tail(alloc, text, &edge.kind)
}

/// Puts what stands before the ends of an edge.
fn put_head(text: &mut String, kind: &Kind) -> Result<(), AllocError>
    ensures { OnOk result (string_bytes text.new ≡ string_bytes text.old ++ kind_head kind.now) }
{
    match kind {
        Kind::Control(label) => write!(text, "control {label} "),
        Kind::Independent(name) => write!(text, "flow {name} "),
        Kind::Carried(name, _) => write!(text, "carried {name} "),
        Kind::Order(_) => text.push_str("order "),
    }
}

/// Puts what stands behind the ends of an edge.
fn put_tail(alloc: Global, text: &mut String, kind: &Kind) -> Result<(), NoMemory>
    ensures { OnOk result (string_bytes text.new ≡ string_bytes text.old ++ kind_tail kind.now) }
{
    match kind {
        Kind::Control(_) | Kind::Independent(_) => Ok(()),
        Kind::Carried(_, by) => put_behind(alloc, text, " by ", by),
        Kind::Order(used) => put_behind(alloc, text, " for ", used),
    }
}

/// A graph: the line `vertices N` and a line for each vertex, the line `edges N` and a line for each
/// edge, both in their order. Each line ends with a newline. It fails only for want of memory.
pub fn graph_text(alloc: Global, graph: &Graph) -> Result<Vec<u8>, NoMemory>
    ensures { IfOk result (λ text. IsGraphText (graph_in graph.now) text.items) }
{
    let graph = graph.in_order()?;
    let _vertices = graph.vertices();
    text_of(alloc, &graph)
}

/// The same of a graph whose vertices and edges stand as they do in the graph.
fn text_of(alloc: Global, graph: &Graph) -> Result<Vec<u8>, NoMemory>
    ensures { IfOk result (λ text. text.items ≡ graph_text graph.now.vertices (edges_of graph.now)) }
{
    let of = texts_of(alloc, graph)?;
    let mut out = count_line(alloc, "vertices ", graph.vertex_count() as u64)?;
    put_parts(alloc, &mut out, &of)?;
    Ok(out)
}

/// Puts the vertices, the number of the edges, and the edges.
fn put_parts(alloc: Global, out: &mut Vec<u8>, of: &VertexTexts) -> Result<(), NoMemory>
    requires { AreTexts of.now }
    ensures { OnOk result (out.new.items ≡ out.old.items ++ (on_lines (map vertex_text of.now.graph.now.vertices)
        ++ codes "edges " ++ decimal (length (edges_of of.now.graph.now)) ++ codes "\n"
        ++ on_lines (map edge_text (edges_of of.now.graph.now)))) }
{
    put_texts(out, of)?;
    let line = count_line(alloc, "edges ", of.graph.edge_count() as u64)?;
    out.extend_from_slice(&line)?;
    put_edges(out, of)
}

/// The line of a word and a number.
pub(crate) fn count_line(alloc: Global, word: &str, count: u64) -> Result<Vec<u8>, NoMemory>
    ensures { IfOk result (λ line. line.items ≡ word.now ++ decimal count ++ codes "\n") }
{
    Ok(format!(in alloc; "{word}{count}\n")?.into_bytes())
}

/// Puts a text and a newline.
pub(crate) fn put_line(out: &mut Vec<u8>, text: &str) -> Result<(), NoMemory>
    ensures { OnOk result (out.new.items ≡ out.old.items ++ (text.now ++ codes "\n")) }
{
    out.extend_from_slice(text.as_bytes())?;
    out.push(b'\n')?;
    Ok(())
}

/// Puts a line for each vertex.
pub(crate) fn put_vertices(
    alloc: Global,
    out: &mut Vec<u8>,
    vertices: &[Vertex],
) -> Result<(), NoMemory>
    ensures { OnOk result (out.new.items ≡ out.old.items ++ on_lines (map vertex_text vertices.now)) }
{
    for vertex in vertices {
        put_vertex_line(alloc, out, vertex)?;
    }
    Ok(())
}

/// Puts the line of a vertex.
fn put_vertex_line(alloc: Global, out: &mut Vec<u8>, vertex: &Vertex) -> Result<(), NoMemory>
    ensures { OnOk result (out.new.items ≡ out.old.items ++ (vertex_text vertex.now ++ codes "\n")) }
{
    let text = bracketed(alloc, vertex)?;
    put_line(out, text.as_str())
}
